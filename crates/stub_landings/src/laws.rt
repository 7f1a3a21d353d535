// Laws of landing pads in words: calls of no effect, whose contracts state what holds of every unit.
ghost use Rattle.stub_landings.specs.Landings.{CancelsLand, ForcedLands, ModulesLand, ResumesLand, RethrowsLand, ThrowsLand};
ghost use Rattle.stub_landings.specs.OwnRaises.{OwnForcedLands, OwnResumesLand, OwnRethrowsLand, OwnThrowsLand};
ghost use Rattle.stub_landings.specs.StubStacks.{StubStacksStand};

use machine_pieces::laws::{calls_are_turns, values_are_computed};
use machine_stubs::laws::calls_are_made;
use raise_simulation::laws::{forced_agree, raises_agree, resumes_agree};

/// Where one of the runtime's own functions runs, the unwinder meets the open calls on the machine's stack, and the exception tables say of each
/// what the linear code says.
pub fn stub_stacks_stand()
    ensures { StubStacksStand }
{}

/// An exception that a compiled function throws comes to where the next state rests: behind the landing pad of a compiled function, or at that of
/// one of the runtime's own.
pub fn throws_land()
    ensures { ThrowsLand }
{
    calls_are_turns();
    calls_are_made();
    raises_agree();
}

/// So does the newest handled exception that is thrown again.
pub fn rethrows_land()
    ensures { RethrowsLand }
{
    calls_are_turns();
    calls_are_made();
    raises_agree();
}

/// So does an exception that a module raises, in whatever vacant slot.
pub fn modules_land()
    ensures { ModulesLand }
{
    calls_are_turns();
    calls_are_made();
    raises_agree();
}

/// So does an exception that goes on behind a cleanup.
pub fn resumes_land()
    ensures { ResumesLand }
{
    calls_are_turns();
    calls_are_made();
    resumes_agree();
}

/// So does a forced unwind that goes on.
pub fn forced_lands()
    ensures { ForcedLands }
{
    calls_are_turns();
    calls_are_made();
    forced_agree();
}

/// So does a forced unwind that begins.
pub fn cancels_land()
    ensures { CancelsLand }
{
    calls_are_turns();
    calls_are_made();
    values_are_computed();
    forced_agree();
}

/// A bad_exception that call_unexpected throws comes to where the next state rests.
pub fn own_throws_land()
    ensures { OwnThrowsLand }
{
    calls_are_made();
    raises_agree();
}

/// So does what the unexpected handler threw and call_unexpected throws again.
pub fn own_rethrows_land()
    ensures { OwnRethrowsLand }
{
    calls_are_made();
    raises_agree();
}

/// So does an exception that goes on behind a pad of end_catch or of call_unexpected.
pub fn own_resumes_land()
    ensures { OwnResumesLand }
{
    calls_are_made();
    resumes_agree();
}

/// So does a forced unwind that goes on there.
pub fn own_forced_lands()
    ensures { OwnForcedLands }
{
    calls_are_made();
    forced_agree();
}
