// The places of labels.
ghost use Rattle.std.specs.Prelude.{◌≡◌, ℕ, IfOk, length, map, nat_eq, unwrap_or};
ghost use Rattle.indexmap.specs.IndexMap.{get};
ghost use Rattle.linear_forms.specs.Tables.{label_place};
ghost use Rattle.landing_pads.specs.View.{linear_of};

use crate::NoMemory;
use crate::numbers::behind;
use indexmap::IndexMap;
use landing_pads::unit::LinearOp;
use std::alloc::Global;

/// The place of each label, by its number. One that stands twice counts where it stands first.
pub fn places_of_labels(alloc: Global, ops: &[LinearOp]) -> Result<IndexMap<u32, u32>, NoMemory>
    ensures { IfOk result (λ places. (l : ℕ) → unwrap_or (get nat_eq places l) (length ops.now) ≡ label_place (map linear_of ops.now) l 0) }
{
    let mut places = IndexMap::new(alloc);
    for place in (0..ops.len()).rev() {
        if let LinearOp::Label(label) = &ops[place] {
            places.insert(*label, behind(0, place)?)?;
        }
    }
    Ok(places)
}
