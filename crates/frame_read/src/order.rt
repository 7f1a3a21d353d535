// The FDEs in the order of the header's table, and whether they are its rows.
ghost use Rattle.std.specs.Prelude.{◌≡◌, ◌<◌, ◌^◌, IfOk, length, filter, option_map};
ghost use Rattle.table_forms.specs.Frames.{differs};
ghost use Rattle.std.specs.List.Sorted.{IsPermutation, IsNonDecreasingBy, IsStableByKey};
ghost use Rattle.std.specs.Ordering.{nat_cmp};
ghost use Rattle.table_forms.specs.Seen.{fault_of};
ghost use Rattle.frame_read.specs.InOrder.{has_place};
ghost use Rattle.frame_read.specs.Order.{disagrees};

use crate::listed::Fde;
use eh_bytes::HdrRow;
use std::alloc::{AllocError, Global};
use table_forms::{Reason, Refusal};

/// The FDEs by location; those of one location stay as they are.
pub fn in_order(alloc: Global, fdes: &[Fde]) -> Result<Vec<Fde>, AllocError>
    ensures permutation { IfOk result (λ order. IsPermutation fdes.now order.items) }
    ensures order { IfOk result (λ order. IsNonDecreasingBy (λ f. f.region.start) order.items) }
    ensures stable { IfOk result (λ order. IsStableByKey (λ f. f.region.start) nat_cmp fdes.now order.items) }
{
    let mut order = fdes.to_vec(alloc)?;
    order.sort_by_key(|fde| fde.region.start)?;
    Ok(order)
}

// The refusal of a row and an FDE that differ, by their locations.
fn differs(place: u128, location: u64, other: u64) -> Refusal
    ensures { fault_of result ≡ differs place location other }
{
    Refusal {
        reason: Reason::HeaderDisagrees,
        place,
        location,
        other,
    }
}

/// The first row that is not that of its FDE, in a table that begins at a place.
pub fn disagreement(place: u128, rows: &[HdrRow], order: &[Fde]) -> Option<Refusal>
    requires near { place < 2 ^ 66 }
    requires few { length rows.now < 2 ^ 64 }
    ensures { option_map fault_of result ≡ disagrees place rows.now order.now }
{
    let mut at = place;
    let mut rows = rows;
    let mut order = order;
    'rows: loop {
        match rows.split_first() {
            None => match order.split_first() {
                None => return None,
                Some((fde, _)) => return Some(differs(at, 0, fde.region.start)),
            },
            Some((row, more_rows)) => match order.split_first() {
                None => return Some(differs(at, row.location, 0)),
                Some((fde, others)) => {
                    if row.location != fde.region.start || row.fde != fde.address {
                        return Some(differs(at, row.location, fde.region.start));
                    }
                    at += 8;
                    rows = more_rows;
                    order = others;
                }
            },
        }
    }
}

/// Of FDEs those whose regions have places.
pub fn with_places(fdes: Vec<Fde>) -> Vec<Fde>
    ensures { result.items ≡ filter has_place fdes.items }
{
    let mut kept = fdes;
    kept.retain(|fde| fde.region.length > 0);
    kept
}
