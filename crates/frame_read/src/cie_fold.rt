// What the instructions of a CIE leave that move no location: the same for each of its FDEs.
ghost use Rattle.std.specs.Prelude.{◌≡◌, ◌<◌, ◌≤◌, ◌^◌, ℕ, List, true, false, length, vec_len, Ok, IfOk};
ghost use Rattle.arrayvec.specs.ArrayVec.{array_vec_len};
ghost use Rattle.eh_bytes.specs.Memory.{part_of};
ghost use Rattle.table_forms.specs.Cie.{Cie};
ghost use Rattle.table_forms.specs.Instruction.{Instruction as Meant};
ghost use Rattle.frame_read.specs.CieFold.{AllStay, IsFoldOf, StaysOver, fold_seen, stays};
ghost use Rattle.frame_read.specs.Heads.{cie_after};
ghost use Rattle.frame_read.specs.RowWalk.{IsLeft};
ghost use Rattle.frame_read.specs.Seen.{coding_seen, instruction_seen};
ghost use Rattle.frame_read.specs.SeenRow.{folding_seen};

use crate::cie_part::CiePart;
use crate::folding::{Folding, State};
use crate::instruction::{Coding, Instruction};
use crate::step::instruction_of;
use arrayvec::ArrayVec;
use eh_bytes::Segment;
use std::alloc::{AllocError, Global};

/// The row that they leave, and the rows that are remembered.
#[derive(Drop)]
pub struct CieFold {
    pub row: State,
    pub states: Vec<State>,
}

// Whether an instruction moves no location.
fn stays(instruction: Instruction) -> bool
    ensures { result ≡ stays (instruction_seen instruction) }
{
    match instruction {
        Instruction::GoTo(_) => false,
        Instruction::Advance(_) => false,
        _ => true,
    }
}

// Takes the instructions from a place up to a stop, of which none is refused, as far as the first that
// moves the location; whether there is none.
fn stays_over(
    folding: &mut Folding,
    coding: Coding,
    segment: &Segment,
    stop: usize,
    first: usize,
) -> bool
    requires stop { stop ≤ vec_len segment.now.bytes }
    requires first { first ≤ stop }
    requires goes { folding.old.stopped ≡ false }
    requires low { folding.old.location < 2 ^ 64 }
    requires whole { (left : List Meant) × (behind : ℕ) × IsLeft (coding_seen coding) (part_of segment.now) stop (array_vec_len folding.old.states) first left behind }
    ensures goes { folding.new.stopped ≡ false }
    ensures over { result ≡ true → (left : List Meant) (behind : ℕ) → IsLeft (coding_seen coding) (part_of segment.now) stop (array_vec_len folding.old.states) first left behind →
        StaysOver (folding_seen folding.old) left (folding_seen folding.new) × (array_vec_len folding.new.states ≡ behind) }
    ensures moves { result ≡ false → (left : List Meant) (behind : ℕ) → IsLeft (coding_seen coding) (part_of segment.now) stop (array_vec_len folding.old.states) first left behind → AllStay left → ⊥ }
{
    let mut place = first;
    'instructions: while place < stop {
        match instruction_of(coding, segment, stop, place) {
            Err(_) => return false,
            Ok((instruction, next)) => {
                if !stays(instruction) {
                    return false;
                }
                folding.takes(instruction);
                place = next;
            }
        }
    }
    true
}

/// What the instructions of a CIE leave, of which none is refused; none exactly where one of them
/// moves the location.
pub fn fold_of(
    alloc: Global,
    cie: &CiePart<'_>,
    segment: &Segment,
) -> Result<Option<CieFold>, AllocError>
    requires stop { cie.now.stop ≤ vec_len segment.now.bytes }
    requires first { cie.now.first ≤ cie.now.stop }
    requires whole { (c : Cie) × (cie_after (part_of segment.now) cie.now ≡ Ok c) }
    ensures { IfOk result (λ o. (c : Cie) → cie_after (part_of segment.now) cie.now ≡ Ok c → IsFoldOf o c) }
{
    let mut folding = Folding::begun(0);
    if !stays_over(&mut folding, cie.coding, segment, cie.stop, cie.first) {
        return Ok(None);
    }
    let states = folding.states.as_slice().to_vec(alloc)?;
    Ok(Some(CieFold {
        row: folding.row,
        states,
    }))
}

impl CieFold {
    /// Before the instructions of an FDE whose region begins here.
    pub fn begun(&self, start: u64) -> Folding
        requires { length self.now.states.items ≤ 16 }
        ensures seen { folding_seen result ≡ fold_seen self.now start }
        ensures states { array_vec_len result.states ≡ length self.now.states.items }
        ensures goes { result.stopped ≡ false }
        ensures location { result.location ≡ start }
    {
        let mut states = ArrayVec::new();
        let mut rest = self.states.as_slice();
        'states: while let Some((state, others)) = rest.split_first() {
            states.push(*state);
            rest = others;
        }
        Folding {
            location: start,
            row: self.row,
            states,
            initial: self.row.rules,
            stopped: false,
        }
    }
}
