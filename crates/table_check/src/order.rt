// The FDEs in the order in which their tables are judged and printed.
ghost use Rattle.std.specs.Prelude.{◌≡◌, IfOk, List, map};
ghost use Rattle.table_forms.specs.Fde as forms;
ghost use Rattle.table_forms.specs.Frames.{sorted};
ghost use Rattle.frame_read.specs.Listed.{fde_listed};

use frame_read::Fde;
use std::alloc::{AllocError, Global};

/// The FDEs by location, those of one location by place.
pub fn in_order(alloc: Global, fdes: &[Fde]) -> Result<Vec<Fde>, AllocError>
    ensures { IfOk result (λ order. (fs : List forms.Fde) → fdes.now ≡ map fde_listed fs → order.items ≡ map fde_listed (sorted fs)) }
{
    let mut order = fdes.to_vec(alloc)?;
    order.sort_by_key(|fde| (fde.region.start, fde.place))?;
    Ok(order)
}
