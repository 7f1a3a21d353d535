// The rows of an FDE at rising places: a fold that goes on from where it stopped.
ghost use Rattle.std.specs.Prelude.{◌≡◌, ◌≤◌, ℕ, List, length, vec_len, false, Some, IsSomeAnd};
ghost use Rattle.arrayvec.specs.ArrayVec.{array_vec_len};
ghost use Rattle.eh_bytes.specs.Memory.{part_of, memory_of};
ghost use Rattle.table_forms.specs.Fde.{Fde};
ghost use Rattle.table_forms.specs.Instruction.{Instruction as Meant};
ghost use Rattle.frame_read.specs.Entry.{fde_here, fde_in};
ghost use Rattle.frame_read.specs.Known.{HasPlaces, IsKnown};
ghost use Rattle.frame_read.specs.Seen.{coding_seen};
ghost use Rattle.frame_read.specs.SeenRow.{folding_seen, state_seen};
ghost use Rattle.frame_read.specs.RowWalk.{Goes, HoldsUntil, IsAtEnd, IsLeft, IsWalk};

use crate::folding::Folding;
use crate::instruction::Coding;
use crate::lookup::{FdeHere, known_fde};
use crate::step::instruction_of;
use eh_bytes::{Segment, Segments};
use table_forms::Row;

/// Where instructions begin and end.
#[derive(Clone, Copy, Drop)]
pub struct Stretch {
    pub first: usize,
    pub stop: usize,
}

// Goes on over the instructions from a place up to a stop, of which none is refused, as far as the first
// that moves above a pc: where that one stands, or the stop, and the location to which it moves.
fn goes_over(
    folding: &mut Folding,
    pc: u64,
    coding: Coding,
    segment: &Segment,
    stop: usize,
    first: usize,
) -> (usize, Option<u128>)
    requires stop { stop ≤ vec_len segment.now.bytes }
    requires first { first ≤ stop }
    requires goes { folding.old.stopped ≡ false }
    requires below { folding.old.location ≤ pc }
    requires whole { (left : List Meant) × (after : ℕ) × IsLeft (coding_seen coding) (part_of segment.now) stop (array_vec_len folding.old.states) first left after }
    ensures place { result.0 ≤ stop }
    ensures goes { folding.new.stopped ≡ false }
    ensures below { folding.new.location ≤ pc }
    ensures left { (left : List Meant) (after : ℕ) → IsLeft (coding_seen coding) (part_of segment.now) stop (array_vec_len folding.old.states) first left after →
        Goes (coding_seen coding) (part_of segment.now) stop pc (folding_seen folding.old) left after (folding_seen folding.new) (array_vec_len folding.new.states) result.0 result.1 }
{
    let mut place = first;
    'instructions: while place < stop {
        match instruction_of(coding, segment, stop, place) {
            Err(_) => return (place, None),
            Ok((instruction, next)) => {
                let location = folding.location_after(instruction);
                if location > pc as u128 {
                    return (place, Some(location));
                }
                folding.takes(instruction);
                place = next;
            }
        }
    }
    (place, None)
}

/// The rows of an FDE at rising places: a fold over the instructions of its CIE and its own that has
/// gone some way. It has the row where it is, where the next instruction stands, where those of its
/// list end, and, as long as they are the CIE's, where those of the FDE lie.
#[derive(Drop)]
pub struct RowWalk<'a> {
    pub segment: &'a Segment,
    pub coding: Coding,
    pub folding: Folding,
    pub place: usize,
    pub stop: usize,
    pub own: Option<Stretch>,
}

impl<'a> RowWalk<'a> {
    /// Before the first instruction, at the first place of the region of an FDE that was read before.
    pub fn new(here: &FdeHere<'_>, segment: &'a Segment) -> RowWalk<'a>
        requires places { HasPlaces segment.now.bytes.items here.now }
        ensures { (f : Fde) → IsKnown (part_of segment.now) here.now f → IsWalk result f f.region.start }
    {
        RowWalk {
            segment,
            coding: here.cie.coding,
            folding: Folding::begun(here.fde.region.start),
            place: here.cie.first,
            stop: here.cie.stop,
            own: Some(Stretch {
                first: here.fde.first,
                stop: here.fde.stop,
            }),
        }
    }

    /// The row where it is.
    pub fn row(&self) -> Row
        ensures { result ≡ state_seen self.now.folding.row }
    {
        self.folding.row.into_row()
    }

    /// Goes on to a pc that is not before the place where it is, and gives the location up to which
    /// the row there holds on, or none where it does to the end. No memory is taken.
    pub fn goes_to(&mut self, pc: u64) -> Option<u128>
        requires { (f : Fde) × (from : ℕ) × IsWalk self.old f from × (from ≤ pc) }
        ensures { (f : Fde) (from : ℕ) → IsWalk self.old f from → from ≤ pc → IsWalk self.new f pc × HoldsUntil f pc (state_seen self.new.folding.row) result }
    {
        let (place, until) = goes_over(
            &mut self.folding,
            pc,
            self.coding,
            self.segment,
            self.stop,
            self.place,
        );
        self.place = place;
        match until {
            Some(location) => Some(location),
            None => self.goes_behind(pc),
        }
    }

    // Where nothing is left of its list, goes on over the instructions of the FDE, if that was the CIE's.
    fn goes_behind(&mut self, pc: u64) -> Option<u128>
        requires { (f : Fde) × IsAtEnd self.old f pc }
        ensures { (f : Fde) → IsAtEnd self.old f pc → IsWalk self.new f pc × HoldsUntil f pc (state_seen self.new.folding.row) result }
    {
        match self.own {
            None => None,
            Some(own) => {
                self.folding.keeps_initial();
                let (place, until) = goes_over(
                    &mut self.folding,
                    pc,
                    self.coding,
                    self.segment,
                    own.stop,
                    own.first,
                );
                self.place = place;
                self.stop = own.stop;
                self.own = None;
                until
            }
        }
    }
}

// The rows of the FDE there, which was read before.
fn walk_here(segment: &Segment, at: usize) -> Option<RowWalk<'_>>
    requires at { at ≤ length segment.now.bytes.items }
    requires known { (f : Fde) × (fde_here (part_of segment.now) at ≡ Some f) }
    ensures { (f : Fde) → fde_here (part_of segment.now) at ≡ Some f → IsSomeAnd result (λ w. IsWalk w f f.region.start) }
{
    match known_fde(segment, at) {
        None => None,
        Some(here) => Some(RowWalk::new(&here, segment)),
    }
}

/// The rows of the FDE whose length stands at an address, which was read before, from the first
/// place of its region on.
#[tactic(auto, unfolding(crate::specs::Entry::fde_in))]
pub fn walk_in(memory: &Segments, address: u64) -> Option<RowWalk<'_>>
    requires { (f : Fde) × (fde_in (memory_of memory.now) address ≡ Some f) }
    ensures { (f : Fde) → fde_in (memory_of memory.now) address ≡ Some f → IsSomeAnd result (λ w. IsWalk w f f.region.start) }
{
    let segment = memory.segment_with(address)?;
    walk_here(segment, (address - segment.address) as usize)
}
