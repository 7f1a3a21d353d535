// An FDE with its rows.
ghost use Rattle.std.specs.Prelude.{◌≡◌, ◌++◌, ◌≤◌, ◌<◌, OnOk};
ghost use Rattle.eh_bytes.specs.Memory.{memory_of};
ghost use Rattle.table_forms.specs.Fde as forms;
ghost use Rattle.frame_read.specs.CieFolds.{AreFolds};
ghost use Rattle.frame_read.specs.FdeRows.{AreRows};
ghost use Rattle.table_dump.specs.Rows.{rows_text};
ghost use Rattle.table_dump.specs.Entry.{IsEntry};

use crate::row::put_row;
use eh_bytes::Segments;
use frame_read::{CieFolds, Fde, FdeRows, Frames};
use std::alloc::{AllocError, Global};

// Rows at their locations, in one walk.
fn put_rows_at(alloc: Global, out: &mut Vec<u8>, rows: FdeRows<'_>) -> Result<(), AllocError>
    requires { (f : forms.Fde) × AreRows rows f }
    ensures { OnOk result ((f : forms.Fde) → AreRows rows.entry f → out.new.items ≡ out.old.items ++ rows_text f) }
{
    let mut walk = rows.walk;
    let mut rest = rows.locations.as_slice();
    'locations: while let Some((pc, others)) = rest.split_first() {
        walk.goes_to(*pc);
        put_row(alloc, out, *pc, walk.row())?;
        rest = others;
    }
    Ok(())
}

/// The rows of an FDE of the list that is read from a memory. What the instructions of CIEs leave is
/// kept for the FDEs to come.
pub fn put_rows(
    alloc: Global,
    out: &mut Vec<u8>,
    memory: &Segments,
    frames: &Frames,
    folds: &mut CieFolds,
    fde: &Fde,
) -> Result<(), AllocError>
    requires entry { (f : forms.Fde) × IsEntry (memory_of memory.now) frames.now fde.now f }
    requires folds { AreFolds (memory_of memory.now) folds.old }
    ensures folds { AreFolds (memory_of memory.now) folds.new }
    ensures rows { OnOk result ((f : forms.Fde) → IsEntry (memory_of memory.now) frames.now fde.now f → out.new.items ≡ out.old.items ++ rows_text f) }
{
    if fde.region.length == 0 {
        return Ok(());
    }
    let rows = frames.rows(alloc, memory, fde, folds)?;
    put_rows_at(alloc, out, rows)
}
