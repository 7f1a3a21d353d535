// The types of a table.
ghost use Rattle.std.specs.Prelude.{◌≡◌, ◌++◌, OnOk, Contains, flat_map};
ghost use Rattle.std.specs.List.{AllByRecursion};
ghost use Rattle.eh_bytes.specs.Memory.{memory_of};
ghost use Rattle.lsda_read.specs.Names.{types_named};
ghost use Rattle.lsda_read.specs.WholeTable.{IsWhole, value_of};
ghost use Rattle.image_doubts.specs.Doubts.{nowhere_line};

use crate::line::put_nowhere;
use eh_bytes::{Region64, Segments};
use lsda_read::Lsda;
use std::alloc::{AllocError, Global};

// What is doubted of types that a table names.
fn put_each(
    alloc: Global,
    out: &mut Vec<u8>,
    memory: &Segments,
    region: Region64,
    table: &Lsda<'_>,
    types: &[u64],
) -> Result<(), AllocError>
    requires { AllByRecursion (Contains (types_named table.now)) types.now }
    ensures { OnOk result (out.new.items ≡ out.old.items ++ flat_map (λ i. nowhere_line (memory_of memory.now) region (i, value_of table.now i)) types.now) }
{
    let mut rest = types;
    'types: while let Some((index, others)) = rest.split_first() {
        put_nowhere(alloc, out, memory, region, *index, table.type_entry(*index))?;
        rest = others;
    }
    Ok(())
}

/// What is doubted of the types of a table.
#[tactic(auto, using(lsda_read::proofs::Whole::keys_in))]
pub fn put_types(
    alloc: Global,
    out: &mut Vec<u8>,
    memory: &Segments,
    region: Region64,
    table: &Lsda<'_>,
) -> Result<(), AllocError>
    requires { IsWhole table.now }
    ensures { OnOk result (out.new.items ≡ out.old.items ++ flat_map (nowhere_line (memory_of memory.now) region) table.now.types) }
{
    let numbers = table.numbers(alloc)?;
    put_each(alloc, out, memory, region, table, numbers.types.as_slice())?;
    Ok(())
}
