// What the tables say of the frames that stand at one place.
ghost use Rattle.std.specs.Prelude.{◌≡◌, true, List, option_map};
ghost use Rattle.table_forms.specs.Fde as forms;
ghost use Rattle.frame_walk.specs.Located.{located_seen};
ghost use Rattle.frame_walk.specs.Outward.{row_for, next_frame};
ghost use Rattle.personality.specs.Seen.{thrown_of};
ghost use Rattle.raise_core.specs.Lookups.{IsLookup};
ghost use Rattle.raise_core.specs.Reads.{AreTables};

use crate::asked::verdict_by;
use frame_read::Frames;
use frame_walk::{Frame, Located, Walk, locate, step_by};
use personality::Thrown;
use rv64_machine::Machine;
use table_forms::Verdict;

/// A place, as a frame's pc and whether a signal interrupted the frame there: the FDE that holds
/// it with its row there, if any, and what becomes of an exception in a frame that stands there.
#[derive(Drop)]
pub struct Lookup {
    pub pc: u64,
    pub signal: bool,
    pub entry: Option<Located>,
    pub verdict: Verdict,
}

/// What the tables say of a frame's place.
pub fn look_up(machine: &Machine, frames: &Frames, thrown: &Thrown, frame: &Frame) -> Lookup
    requires { AreTables machine.now frames.now }
    ensures pc { result.pc ≡ frame.now.pc }
    ensures signal { result.signal ≡ frame.now.signal }
    ensures says { (t : AreTables machine.now frames.now) → IsLookup machine.now t.read.fdes (thrown_of thrown.now) result }
{
    let entry = locate(machine, frames, frame);
    let verdict = verdict_by(machine, thrown, frame, &entry);
    Lookup {
        pc: frame.pc,
        signal: frame.signal,
        entry,
        verdict,
    }
}

// Whether a frame stands at the place.
fn is_of(lookup: &Lookup, frame: &Frame) -> bool
    ensures pc { result ≡ true → lookup.now.pc ≡ frame.now.pc }
    ensures signal { result ≡ true → lookup.now.signal ≡ frame.now.signal }
{
    lookup.pc == frame.pc && lookup.signal == frame.signal
}

/// Asks the tables for the place of a frame, unless it is the place that was asked for last: in a
/// recursion it mostly is.
pub fn turn_to(
    lookup: &mut Lookup,
    machine: &Machine,
    frames: &Frames,
    thrown: &Thrown,
    frame: &Frame,
)
    requires { AreTables machine.now frames.now }
    ensures pc { lookup.new.pc ≡ frame.now.pc }
    ensures signal { lookup.new.signal ≡ frame.now.signal }
    ensures says { (t : AreTables machine.now frames.now) → IsLookup machine.now t.read.fdes (thrown_of thrown.now) lookup.old → IsLookup machine.now t.read.fdes (thrown_of thrown.now) lookup.new }
{
    if !is_of(lookup, frame) {
        *lookup = look_up(machine, frames, thrown, frame);
    }
}

/// What is outward of a frame, by the FDE that holds its look-up place and its row there.
pub fn outward_of(machine: &Machine, frame: &Frame, entry: &Option<Located>) -> Walk
    ensures { (fdes : List forms.Fde) → option_map located_seen entry.now ≡ row_for fdes frame.now → result ≡ next_frame machine.now fdes frame.now }
{
    match entry {
        None => Walk::EndOfStack,
        Some(located) => step_by(machine, frame, located),
    }
}
