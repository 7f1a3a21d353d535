// Laws of terminate handlers that find no room: calls of no effect, whose contracts state what holds of every unit.
ghost use Rattle.handler_overflows.specs.AtOnce.{TerminatesOverflow};
ghost use Rattle.handler_overflows.specs.Modules.{ModulesOverflow};
ghost use Rattle.handler_overflows.specs.Rethrows.{RethrowsOverflow};
ghost use Rattle.handler_overflows.specs.Throws.{DoomsOverflow};
ghost use Rattle.handler_overflows.specs.Unwinds.{ForcedUnwindsOverflow};

use machine_pieces::laws::{calls_are_turns, values_are_computed};
use machine_stubs::laws::{calls_are_made, terminate_runs};
use raise_simulation::laws::{forced_agree, raises_agree};
use stack_bounds::laws::functions_overflow;

/// Where an operation terminates at once and the terminate handler in effect finds no room for its frame, the run ends for want of stack.
pub fn terminates_overflow()
    ensures { TerminatesOverflow }
{
    calls_are_turns();
    calls_are_made();
    terminate_runs();
    functions_overflow();
}

/// Where nothing handles an exception that is thrown and the terminate handler in effect finds no room for its frame, the run shows that the
/// exception is entered and ends for want of stack.
pub fn dooms_overflow()
    ensures { DoomsOverflow }
{
    calls_are_turns();
    calls_are_made();
    terminate_runs();
    raises_agree();
    functions_overflow();
}

/// Where nothing handles the newest handled exception, which is thrown again, and the terminate handler that is used finds no room for its
/// frame, the run shows that it is entered, if it is of this language, and ends for want of stack.
pub fn rethrows_overflow()
    ensures { RethrowsOverflow }
{
    calls_are_turns();
    calls_are_made();
    terminate_runs();
    raises_agree();
    functions_overflow();
}

/// Where a module raises, nothing handles it or as many exceptions are live as can be, and the terminate handler in effect finds no room for
/// its frame, the run shows what was made, in whatever slot, and ends for want of stack.
pub fn modules_overflow()
    ensures { ModulesOverflow }
{
    calls_are_turns();
    calls_are_made();
    terminate_runs();
    raises_agree();
    functions_overflow();
}

/// Where a forced unwind comes to a call out of which nothing may come, and the terminate handler in effect finds no room for its frame below
/// the frames of all calls that were open, the run ends for want of stack.
pub fn forced_unwinds_overflow()
    ensures { ForcedUnwindsOverflow }
{
    calls_are_turns();
    calls_are_made();
    values_are_computed();
    terminate_runs();
    forced_agree();
    functions_overflow();
}
