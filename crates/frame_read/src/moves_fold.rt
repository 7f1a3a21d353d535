// The locations of an FDE's rows, of its instructions in their bytes and those of its CIE.
ghost use Rattle.std.specs.Prelude.{◌≡◌, ◌+◌, ◌<◌, ◌≤◌, ◌^◌, ℕ, List, min, vec_len, IfOk, OnOk};
ghost use Rattle.eh_bytes.specs.Memory.{part_of};
ghost use Rattle.table_forms.specs.Fde.{Fde};
ghost use Rattle.table_forms.specs.Instruction.{Instruction as Meant};
ghost use Rattle.frame_read.specs.CieFold.{AllStay};
ghost use Rattle.frame_read.specs.Known.{HasPlaces, IsKnown};
ghost use Rattle.frame_read.specs.Locations.{locations, reached_by};
ghost use Rattle.frame_read.specs.Moves.{MovesOver};
ghost use Rattle.frame_read.specs.RowWalk.{IsLeft};
ghost use Rattle.frame_read.specs.Seen.{coding_seen};

use crate::instruction::Coding;
use crate::lookup::FdeHere;
use crate::moves::Moves;
use crate::step::instruction_of;
use eh_bytes::Segment;
use std::alloc::{AllocError, Global};

impl Moves {
    // Goes on over the instructions from a place up to a stop, of which none is refused.
    fn goes_over(
        &mut self,
        coding: Coding,
        segment: &Segment,
        stop: usize,
        first: usize,
    ) -> Result<(), AllocError>
        requires stop { stop ≤ vec_len segment.now.bytes }
        requires first { first ≤ stop }
        requires ends { self.old.region.start + self.old.region.length ≤ 2 ^ 64 }
        requires low { self.old.location ≤ 2 ^ 64 }
        ensures region { self.new.region ≡ self.old.region }
        ensures low { OnOk result (self.new.location ≤ 2 ^ 64) }
        ensures moves { OnOk result ((location states after : ℕ) (left : List Meant) → self.old.location ≡ min location (2 ^ 64) →
            IsLeft (coding_seen coding) (part_of segment.now) stop states first left after → MovesOver self.old self.new location left) }
    {
        let mut place = first;
        'instructions: while place < stop {
            match instruction_of(coding, segment, stop, place) {
                Err(_) => return Ok(()),
                Ok((instruction, next)) => {
                    self.takes(instruction)?;
                    place = next;
                }
            }
        }
        Ok(())
    }
}

// The locations as they are reached.
fn reached_by(alloc: Global, here: &FdeHere<'_>, segment: &Segment) -> Result<Vec<u64>, AllocError>
    requires places { HasPlaces segment.now.bytes.items here.now }
    requires ends { here.now.fde.region.start + here.now.fde.region.length < 2 ^ 64 }
    ensures { IfOk result (λ ls. (f : Fde) → IsKnown (part_of segment.now) here.now f → ls.items ≡ reached_by f) }
{
    let cie = &here.cie;
    let fde = &here.fde;
    let mut moves = Moves::begun(alloc, fde.region)?;
    moves.goes_over(cie.coding, segment, cie.stop, cie.first)?;
    moves.goes_over(cie.coding, segment, fde.stop, fde.first)?;
    Ok(moves.reached)
}

// The same where the instructions of the CIE move no location.
fn reached_by_own(
    alloc: Global,
    here: &FdeHere<'_>,
    segment: &Segment,
) -> Result<Vec<u64>, AllocError>
    requires places { HasPlaces segment.now.bytes.items here.now }
    requires ends { here.now.fde.region.start + here.now.fde.region.length < 2 ^ 64 }
    ensures { IfOk result (λ ls. (f : Fde) → IsKnown (part_of segment.now) here.now f → AllStay f.cie.instructions → ls.items ≡ reached_by f) }
{
    let fde = &here.fde;
    let mut moves = Moves::begun(alloc, fde.region)?;
    moves.goes_over(here.cie.coding, segment, fde.stop, fde.first)?;
    Ok(moves.reached)
}

// Locations as they are reached, in rising order and each once.
fn in_order(reached: Vec<u64>) -> Vec<u64>
    ensures { (f : Fde) → reached.items ≡ reached_by f → result.items ≡ locations f }
{
    let mut rising = reached;
    rising.sort_unstable();
    rising.dedup();
    rising
}

/// The locations of the rows of an FDE that was read before, in rising order.
pub fn locations_of(
    alloc: Global,
    here: &FdeHere<'_>,
    segment: &Segment,
) -> Result<Vec<u64>, AllocError>
    requires places { HasPlaces segment.now.bytes.items here.now }
    requires ends { here.now.fde.region.start + here.now.fde.region.length < 2 ^ 64 }
    ensures { IfOk result (λ ls. (f : Fde) → IsKnown (part_of segment.now) here.now f → ls.items ≡ locations f) }
{
    let reached = reached_by(alloc, here, segment)?;
    Ok(in_order(reached))
}

/// The same where the instructions of the CIE move no location, which are not read.
pub fn own_locations_of(
    alloc: Global,
    here: &FdeHere<'_>,
    segment: &Segment,
) -> Result<Vec<u64>, AllocError>
    requires places { HasPlaces segment.now.bytes.items here.now }
    requires ends { here.now.fde.region.start + here.now.fde.region.length < 2 ^ 64 }
    ensures { IfOk result (λ ls. (f : Fde) → IsKnown (part_of segment.now) here.now f → AllStay f.cie.instructions → ls.items ≡ locations f) }
{
    let reached = reached_by_own(alloc, here, segment)?;
    Ok(in_order(reached))
}
