// The search for the next location over the instructions in their bytes.
ghost use Rattle.std.specs.Prelude.{◌≡◌, ◌+◌, ◌<◌, ◌≤◌, ◌^◌, ℕ, fold, vec_len, Ok, IsOk};
ghost use Rattle.eh_bytes.specs.Memory.{part_of};
ghost use Rattle.table_forms.specs.Instructions.{instructions_at};
ghost use Rattle.table_forms.specs.Fde.{next_location};
ghost use Rattle.frame_read.specs.SeenCie.{cie_seen};
ghost use Rattle.frame_read.specs.SeenFde.{fde_seen};
ghost use Rattle.frame_read.specs.Seen.{coding_seen};
ghost use Rattle.frame_read.specs.Search.{searched};
ghost use Rattle.frame_read.specs.States.{list_of, states_of};

use crate::cie_part::CiePart;
use crate::fde_part::FdePart;
use crate::instruction::Coding;
use crate::search::Search;
use crate::step::instruction_of;
use eh_bytes::Segment;

impl Search {
    // Goes on over the instructions from a place up to a stop.
    fn goes_over(&mut self, coding: Coding, segment: &Segment, stop: usize, first: usize)
        requires stop { stop ≤ vec_len segment.now.bytes }
        requires first { first ≤ stop }
        requires ends { self.old.region.start + self.old.region.length ≤ 2 ^ 64 }
        requires low { self.old.location ≤ 2 ^ 64 }
        ensures seen { (states : ℕ) → IsOk (instructions_at (coding_seen coding) (part_of segment.now) stop first states) → self.new ≡ fold searched self.old (list_of (instructions_at (coding_seen coding) (part_of segment.now) stop first states)) }
        ensures region { self.new.region ≡ self.old.region }
        ensures low { self.new.location ≤ 2 ^ 64 }
    {
        let mut place = first;
        'instructions: while place < stop {
            match instruction_of(coding, segment, stop, place) {
                Err(_) => return,
                Ok((instruction, next)) => {
                    self.takes(instruction);
                    place = next;
                }
            }
        }
    }
}

/// The least location above a pc, inside the region of an FDE, to which its instructions or those
/// of its CIE move, of which none is refused.
pub fn next_of(cie: &CiePart<'_>, fde: &FdePart, segment: &Segment, pc: u64) -> Option<u64>
    requires stop { cie.now.stop ≤ vec_len segment.now.bytes }
    requires first { cie.now.first ≤ cie.now.stop }
    requires own_stop { fde.now.stop ≤ vec_len segment.now.bytes }
    requires own_first { fde.now.first ≤ fde.now.stop }
    requires ends { fde.now.region.start + fde.now.region.length < 2 ^ 64 }
    requires whole { states_of (instructions_at (coding_seen cie.now.coding) (part_of segment.now) cie.now.stop cie.now.first 0) ≡ Ok cie.now.states }
    requires own { IsOk (instructions_at (coding_seen cie.now.coding) (part_of segment.now) fde.now.stop fde.now.first cie.now.states) }
    ensures { result ≡ next_location (fde_seen (part_of segment.now) (cie_seen (part_of segment.now) cie.now) fde.now) pc }
{
    let mut search = Search {
        region: fde.region,
        pc,
        location: fde.region.start as u128,
        least: None,
    };
    search.goes_over(cie.coding, segment, cie.stop, cie.first);
    search.goes_over(cie.coding, segment, fde.stop, fde.first);
    search.least
}
