// Laws of raises in words: calls of no effect, whose contracts state what holds of every unit.
ghost use Rattle.machine_raises.specs.Cancels.{CancelsRun};
ghost use Rattle.machine_raises.specs.Doomed.{DoomsRun};
ghost use Rattle.machine_raises.specs.Forced.{ForcedRun};
ghost use Rattle.machine_raises.specs.Modules.{ModulesRaise};
ghost use Rattle.machine_raises.specs.Pads.{PadsRun};
ghost use Rattle.machine_raises.specs.Resumes.{ResumesRun};
ghost use Rattle.machine_raises.specs.Rethrows.{RethrowsRun};
ghost use Rattle.machine_raises.specs.Stacks.{StacksStand};
ghost use Rattle.machine_raises.specs.Throws.{ThrowsRun};

use machine_pieces::laws::{calls_are_turns, values_are_computed};
use machine_stubs::laws::{calls_are_made, calls_terminate};
use raise_simulation::laws::{forced_agree, raises_agree, resumes_agree};

/// Where a state of the machine for linear code matches the stack in memory, the unwinder meets its open calls there, and the exception tables
/// say of each what the linear code says.
pub fn stacks_stand()
    ensures { StacksStand }
{}

/// The two words of a landing pad put the object's address and the selector into its slots.
pub fn pads_run()
    ensures { PadsRun }
{}

/// An exception that is thrown comes to the landing pad on the ABI machine that it comes to on the machine for linear code.
pub fn throws_run()
    ensures { ThrowsRun }
{
    calls_are_turns();
    calls_are_made();
    raises_agree();
}

/// An exception that goes on towards its target comes to the landing pad on the ABI machine that it comes to on the machine for linear code.
pub fn resumes_run()
    ensures { ResumesRun }
{
    calls_are_turns();
    calls_are_made();
    resumes_agree();
}

/// The newest handled exception that is thrown again comes to the landing pad on the ABI machine that it comes to on the machine for linear code.
pub fn rethrows_run()
    ensures { RethrowsRun }
{
    calls_are_turns();
    calls_are_made();
    raises_agree();
}

/// A forced unwind that goes on comes to the landing pad on the ABI machine that it comes to on the machine for linear code.
pub fn forced_run()
    ensures { ForcedRun }
{
    calls_are_turns();
    calls_are_made();
    forced_agree();
}

/// A forced unwind that begins comes to the landing pad on the ABI machine that it comes to on the machine for linear code.
pub fn cancels_run()
    ensures { CancelsRun }
{
    calls_are_turns();
    calls_are_made();
    values_are_computed();
    forced_agree();
}

/// An exception that a module raises comes to the landing pad on the ABI machine that it comes to on the machine for linear code, in whatever
/// vacant slot.
pub fn modules_raise()
    ensures { ModulesRaise }
{
    calls_are_turns();
    calls_are_made();
    raises_agree();
}

/// Where nothing handles an exception that is thrown, the terminate handler begins on the ABI machine as on the machine for linear code.
pub fn dooms_run()
    ensures { DoomsRun }
{
    calls_are_turns();
    calls_terminate();
    raises_agree();
}
