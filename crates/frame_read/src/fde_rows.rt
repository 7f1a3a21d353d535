// The rows of an FDE by the place of its length.
ghost use Rattle.std.specs.Prelude.{◌≡◌, ◌+◌, ◌<◌, ◌≤◌, ◌^◌, length, Some, IfOk, IfSome};
ghost use Rattle.eh_bytes.specs.Memory.{Memory, part_of, memory_of};
ghost use Rattle.table_forms.specs.Fde.{Fde};
ghost use Rattle.frame_read.specs.CieFold.{IsFold};
ghost use Rattle.frame_read.specs.CieFolds.{AreFolds};
ghost use Rattle.frame_read.specs.Entry.{fde_here, fde_in};
ghost use Rattle.frame_read.specs.FdeRows.{AreRows, HasCies};
ghost use Rattle.frame_read.specs.Known.{HasPlaces, IsKnown};

use crate::cie_fold::CieFold;
use crate::cie_folds::CieFolds;
use crate::lookup::{FdeHere, known_fde};
use crate::moves_fold::{locations_of, own_locations_of};
use crate::row_walk::RowWalk;
use eh_bytes::{Segment, Segments};
use std::alloc::{AllocError, Global};

/// The locations of the rows of an FDE, each once and in rising order, and a walk at the first.
#[derive(Drop)]
pub struct FdeRows<'a> {
    pub locations: Vec<u64>,
    pub walk: RowWalk<'a>,
}

// Those of an FDE that was read before, with what is kept of its CIE.
fn rows_of<'a>(
    alloc: Global,
    here: &FdeHere<'_>,
    segment: &'a Segment,
    kept: Option<&CieFold>,
) -> Result<FdeRows<'a>, AllocError>
    requires places { HasPlaces segment.now.bytes.items here.now }
    requires ends { here.now.fde.region.start + here.now.fde.region.length < 2 ^ 64 }
    requires kept { (f : Fde) × IsKnown (part_of segment.now) here.now f × IfSome kept (λ k. IsFold k.now f.cie) }
    ensures { IfOk result (λ r. (f : Fde) → IsKnown (part_of segment.now) here.now f → IfSome kept.entry (λ k. IsFold k.now f.cie) → AreRows r f) }
{
    match kept {
        None => {
            let locations = locations_of(alloc, here, segment)?;
            let walk = RowWalk::new(here, segment);
            Ok(FdeRows { locations, walk })
        }
        Some(kept) => {
            let locations = own_locations_of(alloc, here, segment)?;
            let walk = RowWalk::behind(kept, here, segment);
            Ok(FdeRows { locations, walk })
        }
    }
}

// Those of the FDE there, which was read before.
fn rows_here<'a>(
    alloc: Global,
    segment: &'a Segment,
    at: usize,
    folds: &mut CieFolds,
) -> Result<FdeRows<'a>, AllocError>
    requires at { at ≤ length segment.now.bytes.items }
    requires known { (f : Fde) × (fde_here (part_of segment.now) at ≡ Some f) }
    requires folds { (memory : Memory) × AreFolds memory folds.old × HasCies memory (part_of segment.now) }
    ensures folds { (memory : Memory) → AreFolds memory folds.old → HasCies memory (part_of segment.now) → AreFolds memory folds.new }
    ensures rows { IfOk result (λ r. (f : Fde) → fde_here (part_of segment.now) at ≡ Some f → AreRows r f) }
{
    match known_fde(segment, at) {
        None => unreachable!(),
        Some(here) => {
            let address = segment.address as u128 + here.cie.at as u128;
            folds.keeps(alloc, address, &here.cie, segment)?;
            rows_of(alloc, &here, segment, folds.kept(address))
        }
    }
}

/// Those of the FDE whose length stands at an address, which was read before (DWARF 5, 6.4.3). The
/// instructions of its CIE are gone over only where what they leave is not kept.
#[tactic(auto, unfolding(crate::specs::Entry::fde_in))]
pub fn rows_in<'m>(
    alloc: Global,
    memory: &'m Segments,
    address: u64,
    folds: &mut CieFolds,
) -> Result<FdeRows<'m>, AllocError>
    requires known { (f : Fde) × (fde_in (memory_of memory.now) address ≡ Some f) }
    requires folds { AreFolds (memory_of memory.now) folds.old }
    ensures folds { AreFolds (memory_of memory.now) folds.new }
    ensures rows { IfOk result (λ r. (f : Fde) → fde_in (memory_of memory.now) address ≡ Some f → AreRows r f) }
{
    match memory.segment_with(address) {
        None => unreachable!(),
        Some(segment) => rows_here(alloc, segment, (address - segment.address) as usize, folds),
    }
}
