// Laws of the ends of raises and of forced unwinds in words: calls of no effect, whose contracts state what holds of every unit.
ghost use Rattle.raise_ends.specs.Exits.{ForcedUnwindsExit};
ghost use Rattle.raise_ends.specs.Barriers.{ForcedUnwindsTerminate};
ghost use Rattle.raise_ends.specs.Full.{ModulesAreRefusedWhenFull};
ghost use Rattle.raise_ends.specs.Modules.{ModulesDoom};
ghost use Rattle.raise_ends.specs.Rethrows.{RethrowsDoom};
ghost use Rattle.raise_ends.specs.Throws.{DoomsAbort};

use machine_pieces::laws::{calls_are_turns, values_are_computed};
use machine_stubs::laws::{calls_are_made, terminate_runs};
use raise_simulation::laws::{forced_agree, raises_agree};

/// Where nothing handles an exception that is thrown, and no terminate handler is called, both machines abort.
pub fn dooms_abort()
    ensures { DoomsAbort }
{
    calls_are_turns();
    calls_are_made();
    terminate_runs();
    raises_agree();
}

/// Where nothing handles the newest handled exception, which is thrown again, its terminate handler begins on the ABI machine as on the machine
/// for linear code, or both abort.
pub fn rethrows_doom()
    ensures { RethrowsDoom }
{
    calls_are_turns();
    calls_are_made();
    terminate_runs();
    raises_agree();
}

/// Where nothing handles an exception that a module raises, the terminate handler in effect begins on the ABI machine as on the machine for
/// linear code, in whatever vacant slot the exception is, or both abort.
pub fn modules_doom()
    ensures { ModulesDoom }
{
    calls_are_turns();
    calls_are_made();
    terminate_runs();
    raises_agree();
}

/// Where a module raises while as many exceptions are live as can be, the terminate handler in effect begins on both machines, or both abort.
pub fn modules_are_refused_when_full()
    ensures { ModulesAreRefusedWhenFull }
{
    calls_are_turns();
    calls_are_made();
    terminate_runs();
}

/// Where a forced unwind comes to the end of the stack, both machines exit with its number.
pub fn forced_unwinds_exit()
    ensures { ForcedUnwindsExit }
{
    calls_are_turns();
    calls_are_made();
    values_are_computed();
    forced_agree();
}

/// Where a forced unwind comes to a call out of which nothing may come, the terminate handler in effect begins on both machines, below the
/// frames of the calls that the unwind has left, or both abort.
pub fn forced_unwinds_terminate()
    ensures { ForcedUnwindsTerminate }
{
    calls_are_turns();
    calls_are_made();
    values_are_computed();
    terminate_runs();
    forced_agree();
}
