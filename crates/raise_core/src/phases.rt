// The two phases of a raise, a raise that resumes, and a forced unwind.
ghost use Rattle.std.specs.Prelude.{◌≡◌};
ghost use Rattle.personality.specs.Seen.{thrown_of};
ghost use Rattle.raise_core.specs.declared.goal.Goal.TheVariants as goals;
ghost use Rattle.raise_core.specs.Stack as stack;
ghost use Rattle.raise_core.specs.Raise as forms;
ghost use Rattle.raise_core.specs.Reads.{AreTables};
ghost use Rattle.raise_core.specs.Entered.{EntersOrStays};
ghost use Rattle.raise_core.specs.Finds.{FindsFrame, KeepsFirstPad};
ghost use Rattle.raise_core.specs.Landings.{lands, cleaned};

use crate::asked::Target;
use crate::enter::{enter, stop_at};
use crate::find::{find_frame, is_with_cfa};
use crate::found::{Found, Landing, Stop, landing_of};
use crate::goal::Goal;
use crate::raised::Raised;
use frame_read::Frames;
use frame_walk::{FaultKind, Frame};
use personality::Thrown;
use rv64_machine::Machine;
use table_forms::Verdict;

// Phase one: the frame that the exception does not pass.
fn search_phase(machine: &Machine, frames: &Frames, thrown: &Thrown) -> Found
    requires { AreTables machine.now frames.now }
    ensures frame { (t : AreTables machine.now frames.now) → FindsFrame machine.now t.read.fdes (thrown_of thrown.now) goals.Target result }
    ensures pad { (t : AreTables machine.now frames.now) → KeepsFirstPad machine.now t.read.fdes (thrown_of thrown.now) result }
{
    find_frame(machine, frames, thrown, Goal::Target)
}

// Control enters a frame on the way to a target.
fn land(machine: &mut Machine, landing: &Landing, target: Option<Target>) -> Raised
    ensures { (result, machine.new) ≡ lands machine.old landing.now target }
{
    match target {
        None => Raised::Fault(FaultKind::Walk),
        Some(target) => enter(machine, &landing.frame, target, landing.verdict),
    }
}

// Phase two, up to the first frame that control enters: the first with a landing pad, which the
// search has kept. Nothing has changed since, so it need not be looked for again.
fn cleanup_phase(machine: &mut Machine, stop: &Stop) -> Raised
    ensures { (result, machine.new) ≡ cleaned machine.old stop.now stop.now.verdict }
{
    match stop.verdict {
        Verdict::Terminate => Raised::Terminate,
        _ => land(machine, &landing_of(stop), stop.target),
    }
}

/// Raises an exception from the frame that makes a runtime call: the search for a target, then
/// phase two up to the first frame that control enters.
///
/// `NoHandler` exactly where the search comes to the end of the stack, `Terminate` where a frame
/// ends the program first, `Fault` where the stack can't be walked; then nothing has changed. Takes
/// no memory.
pub fn raise(machine: &mut Machine, frames: &Frames, thrown: &Thrown) -> Raised
    requires { AreTables machine.old frames.now }
    ensures meaning { (t : AreTables machine.old frames.now) → (result, machine.new) ≡ forms.raise t.read.fdes (thrown_of thrown.now) machine.old }
    ensures frame { (t : AreTables machine.old frames.now) → EntersOrStays (stack.frames machine.old t.read.fdes).frames result machine.old machine.new }
    ensures memory { machine.new.memory ≡ machine.old.memory }
{
    match search_phase(machine, frames, thrown) {
        Found::EndOfStack => Raised::NoHandler,
        Found::Broken(kind) => Raised::Fault(kind),
        Found::At(stop) => cleanup_phase(machine, &stop),
    }
}

// The target of a raise that goes on, which must have a handler or a specification still.
fn arrive(machine: &mut Machine, frame: &Frame, target: Target, verdict: Verdict) -> Raised
    ensures { (result, machine.new) ≡ forms.arrives machine.old frame.now target verdict }
{
    match verdict {
        Verdict::Cleanup(_) => Raised::Fault(FaultKind::Walk),
        _ => stop_at(machine, frame, target, verdict),
    }
}

// A frame at which a raise that goes on stops: the target, or one on the way.
fn go_on(
    machine: &mut Machine,
    frame: &Frame,
    is_target: bool,
    target: Target,
    verdict: Verdict,
) -> Raised
    ensures { (result, machine.new) ≡ forms.goes_on machine.old frame.now is_target target verdict }
{
    if is_target {
        arrive(machine, frame, target, verdict)
    } else {
        stop_at(machine, frame, target, verdict)
    }
}

/// Goes on with phase two from the frame that makes the call, up to the target, which is the frame
/// with this canonical frame address.
///
/// `Terminate` where a frame ends the program first, `Fault(Walk)` where the frames end before the
/// target, or it has neither a handler nor a specification. Takes no memory.
pub fn resume(machine: &mut Machine, frames: &Frames, thrown: &Thrown, target: u64) -> Raised
    requires { AreTables machine.old frames.now }
    ensures meaning { (t : AreTables machine.old frames.now) → (result, machine.new) ≡ forms.resume t.read.fdes (thrown_of thrown.now) target machine.old }
    ensures frame { (t : AreTables machine.old frames.now) → EntersOrStays (stack.frames machine.old t.read.fdes).frames result machine.old machine.new }
    ensures memory { machine.new.memory ≡ machine.old.memory }
{
    let given = Target {
        cfa: target,
        lsda: 0,
    };
    match find_frame(machine, frames, thrown, Goal::UpTo(target)) {
        Found::EndOfStack => Raised::Fault(FaultKind::Walk),
        Found::Broken(_) => Raised::Fault(FaultKind::Walk),
        Found::At(stop) => {
            let here = is_with_cfa(target, stop.target);
            go_on(machine, &stop.frame, here, given, stop.verdict)
        }
    }
}

/// Unwinds by force from the frame that makes the call, up to the first cleanup.
///
/// `NoHandler` exactly where the frames end without one, `Terminate` where one ends the program
/// first, `Fault` where the stack can't be walked; then nothing has changed. Takes no memory.
pub fn forced(machine: &mut Machine, frames: &Frames) -> Raised
    requires { AreTables machine.old frames.now }
    ensures meaning { (t : AreTables machine.old frames.now) → (result, machine.new) ≡ forms.forced_unwind t.read.fdes machine.old }
    ensures frame { (t : AreTables machine.old frames.now) → EntersOrStays (stack.frames machine.old t.read.fdes).frames result machine.old machine.new }
    ensures memory { machine.new.memory ≡ machine.old.memory }
{
    let nowhere = Target { cfa: 0, lsda: 0 };
    match find_frame(machine, frames, &Thrown::Forced, Goal::Cleanup) {
        Found::EndOfStack => Raised::NoHandler,
        Found::Broken(kind) => Raised::Fault(kind),
        Found::At(stop) => stop_at(machine, &stop.frame, nowhere, stop.verdict),
    }
}
