// Regions that overlap.
ghost use Rattle.std.specs.Prelude.{◌≡◌, ◌+◌, map, nat_lt, IfOk};
ghost use Rattle.std.specs.List.Sorted.{IsPermutation, IsNonDecreasingBy};
ghost use Rattle.frame_read.specs.Sweep.{lesser_place, left_out, swept, first_overlap};
ghost use Rattle.frame_read.specs.SeenParts.{placed_seen};
ghost use Rattle.frame_read.specs.SeenSweep.{sweep_seen};

use crate::gather::Placed;
use crate::sweep::Sweep;
use std::alloc::AllocError;

impl Placed {
    // Whether the region ends behind the start of another.
    fn reaches(&self, other: &Placed) -> bool
        ensures { result ≡ nat_lt other.now.region.start (self.now.region.start + self.now.region.length) }
    {
        (other.region.start as u128) < self.region.start as u128 + self.region.length as u128
    }
}

// The lesser of two places.
fn lesser(least: Option<usize>, place: usize) -> Option<usize>
    ensures { result ≡ lesser_place least place }
{
    match least {
        None => Some(place),
        Some(before) => { if before < place { least } else { Some(place) } }
    }
}

impl Sweep {
    // Of two that overlap, the later one is left out.
    fn leaves_out(&mut self, kept: Placed, placed: Placed)
        ensures { sweep_seen self.new ≡ left_out (placed_seen kept) self.old.least (placed_seen placed) }
    {
        if kept.at < placed.at {
            self.kept = Some(kept);
            self.least = lesser(self.least, placed.at);
        } else {
            self.kept = Some(placed);
            self.least = lesser(self.least, kept.at);
        }
    }

    fn takes(&mut self, placed: Placed)
        ensures { sweep_seen self.new ≡ swept (sweep_seen self.old) (placed_seen placed) }
    {
        if placed.region.length == 0 {
            return;
        }
        match self.kept {
            None => self.kept = Some(placed),
            Some(kept) => {
                if kept.reaches(&placed) {
                    self.leaves_out(kept, placed);
                } else {
                    self.kept = Some(placed);
                }
            }
        }
    }
}

// Of sorted regions that overlap an earlier one, the first place.
fn swept(regions: &[Placed]) -> Option<usize>
    ensures { result ≡ first_overlap (map placed_seen regions.now) }
{
    let mut sweep = Sweep {
        kept: None,
        least: None,
    };
    let mut rest = regions;
    'regions: loop {
        match rest.split_first() {
            None => return sweep.least,
            Some((placed, others)) => {
                sweep.takes(*placed);
                rest = others;
            }
        }
    }
}

/// Of regions that overlap an earlier one, the place of the first. They are sorted by address, and
/// of two that overlap the later one is left out, which hides no earlier overlap.
pub fn first_overlap(regions: &mut Vec<Placed>) -> Result<Option<usize>, AllocError>
    ensures permutation { IsPermutation regions.old.items regions.new.items }
    ensures order { IfOk result (λ _. IsNonDecreasingBy (λ p. p.region.start) regions.new.items) }
    ensures first { IfOk result (λ r. r ≡ first_overlap (map placed_seen regions.new.items)) }
{
    regions.sort_by_key(|placed| placed.region.start)?;
    Ok(swept(regions))
}
