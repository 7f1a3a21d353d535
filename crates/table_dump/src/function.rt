// The functions of an image.
ghost use Rattle.std.specs.Prelude.{◌≡◌, ◌++◌, ◌+◌, ◌<◌, ◌^◌, List, Option, Some, Ok, OnOk, flat_map};
ghost use Rattle.eh_bytes.specs.Memory.{memory_of};
ghost use Rattle.table_forms.specs.Lsda.{Table};
ghost use Rattle.elf_image.specs.Clean.{Function, table_named};
ghost use Rattle.frame_read.specs.CieFolds.{AreFolds};
ghost use Rattle.table_dump.specs.Seen.{IsFunction, AreFunctions};
ghost use Rattle.lsda_read.specs.WholeTable.{IsWhole};
ghost use Rattle.table_dump.specs.Dump.{named_text, function_text};

use crate::frame::put_rows;
use crate::line::put_lsda;
use crate::row::put_frame;
use crate::table::put_table;
use eh_bytes::Segments;
use frame_read::{CieFolds, Fde, Frames};
use lsda_read::Lsda;
use std::alloc::{AllocError, Global};

// A table with its address.
fn put_named(
    alloc: Global,
    out: &mut Vec<u8>,
    address: u64,
    table: &Lsda<'_>,
) -> Result<(), AllocError>
    requires { IsWhole table.now }
    ensures { OnOk result (out.new.items ≡ out.old.items ++ named_text address (Some table.now)) }
{
    put_lsda(alloc, out, address)?;
    put_table(alloc, out, table)
}

// The table of an FDE, if it names one.
fn put_lsda_of(
    alloc: Global,
    out: &mut Vec<u8>,
    memory: &Segments,
    fde: &Fde,
) -> Result<(), AllocError>
    requires ends { fde.now.region.start + fde.now.region.length < 2 ^ 64 }
    requires read { (o : Option Table) × (table_named (memory_of memory.now) fde.now.lsda fde.now.region ≡ Ok o) }
    ensures { OnOk result ((o : Option Table) → table_named (memory_of memory.now) fde.now.lsda fde.now.region ≡ Ok o → out.new.items ≡ out.old.items ++ named_text fde.now.lsda o) }
{
    if fde.lsda == 0 {
        return Ok(());
    }
    let table = Lsda::known_at(memory, fde.lsda, fde.region);
    put_named(alloc, out, fde.lsda, &table)
}

fn put_function(
    alloc: Global,
    out: &mut Vec<u8>,
    memory: &Segments,
    frames: &Frames,
    folds: &mut CieFolds,
    fde: &Fde,
) -> Result<(), AllocError>
    requires function { (g : Function) × IsFunction (memory_of memory.now) frames.now fde.now g }
    requires folds { AreFolds (memory_of memory.now) folds.old }
    ensures folds { AreFolds (memory_of memory.now) folds.new }
    ensures function { OnOk result ((g : Function) → IsFunction (memory_of memory.now) frames.now fde.now g → out.new.items ≡ out.old.items ++ function_text g) }
{
    put_frame(alloc, out, fde.region.start, fde.region.length)?;
    put_rows(alloc, out, memory, frames, folds, fde)?;
    put_lsda_of(alloc, out, memory, fde)?;
    Ok(())
}

/// The functions of FDEs, each with its rows and its table.
pub fn put_functions(
    alloc: Global,
    out: &mut Vec<u8>,
    memory: &Segments,
    frames: &Frames,
    fdes: &[Fde],
) -> Result<(), AllocError>
    requires { (gs : List Function) × AreFunctions (memory_of memory.now) frames.now fdes.now gs }
    ensures { OnOk result ((gs : List Function) → AreFunctions (memory_of memory.now) frames.now fdes.now gs → out.new.items ≡ out.old.items ++ flat_map function_text gs) }
{
    let mut folds = CieFolds::new(alloc);
    let mut rest = fdes;
    'fdes: while let Some((fde, others)) = rest.split_first() {
        put_function(alloc, out, memory, frames, &mut folds, fde)?;
        rest = others;
    }
    Ok(())
}
