// The fold of a row over the instructions in their bytes.
ghost use Rattle.std.specs.Prelude.{◌≡◌, ◌≤◌, ℕ, false, fold, vec_len, Ok, IsOk};
ghost use Rattle.arrayvec.specs.ArrayVec.{array_vec_len};
ghost use Rattle.eh_bytes.specs.Memory.{part_of};
ghost use Rattle.table_forms.specs.Instructions.{Instructions, instructions_at};
ghost use Rattle.table_forms.specs.Row.{stepped, row_of};
ghost use Rattle.frame_read.specs.Seen.{coding_seen};
ghost use Rattle.frame_read.specs.SeenRow.{folding_seen};
ghost use Rattle.frame_read.specs.States.{list_of, states_of};

use crate::cie_part::CiePart;
use crate::fde_part::FdePart;
use crate::folding::Folding;
use crate::instruction::Coding;
use crate::plain::plain_row_of;
use crate::step::instruction_of;
use eh_bytes::Segment;
use table_forms::Row;

// Goes on over the instructions from a place up to a stop, of which none is refused, as far as the
// first that moves above a pc.
fn goes_over(
    folding: &mut Folding,
    pc: u64,
    coding: Coding,
    segment: &Segment,
    stop: usize,
    first: usize,
)
    requires stop { stop ≤ vec_len segment.now.bytes }
    requires first { first ≤ stop }
    requires goes { folding.old.stopped ≡ false }
    requires below { folding.old.location ≤ pc }
    requires whole { IsOk (instructions_at (coding_seen coding) (part_of segment.now) stop first (array_vec_len folding.old.states)) }
    ensures seen { folding_seen folding.new ≡ fold (stepped pc) (folding_seen folding.old) (list_of (instructions_at (coding_seen coding) (part_of segment.now) stop first (array_vec_len folding.old.states))) }
    ensures below { folding.new.location ≤ pc }
    ensures kept { folding.new.stopped ≡ false → states_of (instructions_at (coding_seen coding) (part_of segment.now) stop first (array_vec_len folding.old.states)) ≡ Ok (array_vec_len folding.new.states) }
{
    let mut place = first;
    'instructions: while place < stop {
        match instruction_of(coding, segment, stop, place) {
            Err(_) => return,
            Ok((instruction, next)) => {
                if !folding.steps(pc, instruction) {
                    return;
                }
                place = next;
            }
        }
    }
}

// Goes on over the instructions from a place up to a stop, if it has not stopped.
#[tactic(auto, using(table_forms::proofs::RowFold::fold_off))]
fn goes_on_over(
    folding: &mut Folding,
    pc: u64,
    coding: Coding,
    segment: &Segment,
    stop: usize,
    first: usize,
)
    requires stop { stop ≤ vec_len segment.now.bytes }
    requires first { first ≤ stop }
    requires below { folding.old.location ≤ pc }
    requires whole { folding.old.stopped ≡ false → IsOk (instructions_at (coding_seen coding) (part_of segment.now) stop first (array_vec_len folding.old.states)) }
    ensures seen { folding_seen folding.new ≡ fold (stepped pc) (folding_seen folding.old) (list_of (instructions_at (coding_seen coding) (part_of segment.now) stop first (array_vec_len folding.old.states))) }
{
    if !folding.stopped {
        goes_over(folding, pc, coding, segment, stop, first);
    }
}

// The row of a pc, with the rows that are remembered on the way.
#[tactic(auto, unfolding(table_forms::specs::Row::row_of))]
fn full_row_of(cie: &CiePart<'_>, fde: &FdePart, segment: &Segment, pc: u64) -> Row
    requires stop { cie.now.stop ≤ vec_len segment.now.bytes }
    requires first { cie.now.first ≤ cie.now.stop }
    requires own_stop { fde.now.stop ≤ vec_len segment.now.bytes }
    requires own_first { fde.now.first ≤ fde.now.stop }
    requires region { fde.now.region.start ≤ pc }
    requires whole { IsOk (instructions_at (coding_seen cie.now.coding) (part_of segment.now) cie.now.stop cie.now.first 0) }
    requires own { (n : ℕ) → states_of (instructions_at (coding_seen cie.now.coding) (part_of segment.now) cie.now.stop cie.now.first 0) ≡ Ok n → IsOk (instructions_at (coding_seen cie.now.coding) (part_of segment.now) fde.now.stop fde.now.first n) }
    ensures { (is own : Instructions) → instructions_at (coding_seen cie.now.coding) (part_of segment.now) cie.now.stop cie.now.first 0 ≡ Ok is →
        instructions_at (coding_seen cie.now.coding) (part_of segment.now) fde.now.stop fde.now.first is.states ≡ Ok own → result ≡ row_of fde.now.region.start is.list own.list pc }
{
    let mut folding = Folding::begun(fde.region.start);
    goes_over(&mut folding, pc, cie.coding, segment, cie.stop, cie.first);
    folding.keeps_initial();
    goes_on_over(&mut folding, pc, cie.coding, segment, fde.stop, fde.first);
    folding.row.into_row()
}

/// The row of a pc in the region of an FDE, of whose instructions and those of its CIE none is
/// refused. The count of states in the CIE is not used.
pub fn row_of(cie: &CiePart<'_>, fde: &FdePart, segment: &Segment, pc: u64) -> Row
    requires stop { cie.now.stop ≤ vec_len segment.now.bytes }
    requires first { cie.now.first ≤ cie.now.stop }
    requires own_stop { fde.now.stop ≤ vec_len segment.now.bytes }
    requires own_first { fde.now.first ≤ fde.now.stop }
    requires region { fde.now.region.start ≤ pc }
    requires whole { IsOk (instructions_at (coding_seen cie.now.coding) (part_of segment.now) cie.now.stop cie.now.first 0) }
    requires own { (n : ℕ) → states_of (instructions_at (coding_seen cie.now.coding) (part_of segment.now) cie.now.stop cie.now.first 0) ≡ Ok n → IsOk (instructions_at (coding_seen cie.now.coding) (part_of segment.now) fde.now.stop fde.now.first n) }
    ensures { (is own : Instructions) → instructions_at (coding_seen cie.now.coding) (part_of segment.now) cie.now.stop cie.now.first 0 ≡ Ok is →
        instructions_at (coding_seen cie.now.coding) (part_of segment.now) fde.now.stop fde.now.first is.states ≡ Ok own → result ≡ row_of fde.now.region.start is.list own.list pc }
{
    match plain_row_of(cie, fde, segment, pc) {
        Some(row) => row,
        None => full_row_of(cie, fde, segment, pc),
    }
}
