// The first frame at which a phase stops.
ghost use Rattle.std.specs.Prelude.{◌≡◌, List, option_map};
ghost use Rattle.table_forms.specs.Fde as forms;
ghost use Rattle.frame_walk.specs.Located.{located_seen};
ghost use Rattle.frame_walk.specs.Outward.{row_for};
ghost use Rattle.personality.specs.Seen.{thrown_of};
ghost use Rattle.raise_core.specs.First.{has_pad, is_with_cfa, stops};
ghost use Rattle.raise_core.specs.Reads.{AreTables};
ghost use Rattle.raise_core.specs.Finds.{FindsFrame, KeepsFirstPad};
ghost use Rattle.raise_core.specs.Landings.{kept_or};

use crate::asked::{Target, target_by};
use crate::first::first_frame;
use crate::found::{Found, Landing, Stop};
use crate::goal::{Goal, has_pad, is_target, is_unpassable};
use crate::lookup::{Lookup, look_up, outward_of, turn_to};
use frame_read::Frames;
use frame_walk::{FaultKind, Frame, Walk};
use personality::Thrown;
use rv64_machine::Machine;
use table_forms::Verdict;

// More than there can be: canonical frame addresses rise inside the 16 MiB of the stack.
const MOST_FRAMES: u64 = 0x100_0004;

/// Whether a frame, as a target, is the one with this canonical frame address.
pub fn is_with_cfa(cfa: u64, target: Option<Target>) -> bool
    ensures { result ≡ is_with_cfa cfa target }
{
    match target {
        None => false,
        Some(target) => target.cfa == cfa,
    }
}

fn stops(goal: Goal, frame: &Frame, lookup: &Lookup) -> bool
    ensures { (fdes : List forms.Fde) → option_map located_seen lookup.now.entry ≡ row_for fdes frame.now → result ≡ stops fdes goal frame.now lookup.now.verdict }
{
    let verdict = lookup.verdict;
    match goal {
        Goal::Target => is_target(verdict),
        Goal::Pad => has_pad(verdict),
        Goal::Cleanup => is_unpassable(verdict),
        Goal::UpTo(cfa) => {
            is_with_cfa(cfa, target_by(frame, &lookup.entry)) || is_unpassable(verdict)
        }
    }
}

// Keeps a frame, if it has a landing pad and none before it had one.
fn keep_first(kept: &mut Option<Landing>, frame: &Frame, verdict: Verdict)
    ensures { kept.new ≡ kept_or kept.old (has_pad verdict) (record { frame = frame.now; verdict = verdict }) }
{
    if kept.is_none() && has_pad(verdict) {
        *kept = Some(Landing {
            frame: *frame,
            verdict,
        });
    }
}

/// The first frame, from the one that makes the runtime call outward, at which a phase stops, and
/// the first with a landing pad before it.
pub fn find_frame(machine: &Machine, frames: &Frames, thrown: &Thrown, goal: Goal) -> Found
    requires { AreTables machine.now frames.now }
    ensures frame { (t : AreTables machine.now frames.now) → FindsFrame machine.now t.read.fdes (thrown_of thrown.now) goal result }
    ensures pad { (t : AreTables machine.now frames.now) → KeepsFirstPad machine.now t.read.fdes (thrown_of thrown.now) result }
{
    let mut frame = first_frame(machine);
    let mut lookup = look_up(machine, frames, thrown, &frame);
    let mut before = None;
    'frames: for _ in 0..MOST_FRAMES {
        turn_to(&mut lookup, machine, frames, thrown, &frame);
        if stops(goal, &frame, &lookup) {
            return Found::At(Stop {
                frame,
                verdict: lookup.verdict,
                target: target_by(&frame, &lookup.entry),
                before,
            });
        }
        keep_first(&mut before, &frame, lookup.verdict);
        match outward_of(machine, &frame, &lookup.entry) {
            Walk::Next(outward) => frame = outward,
            Walk::EndOfStack => return Found::EndOfStack,
            Walk::Fault(kind) => return Found::Broken(kind),
        }
    }
    Found::Broken(FaultKind::Walk)
}
