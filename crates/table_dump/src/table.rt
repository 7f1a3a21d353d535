// A whole exception table.
ghost use Rattle.std.specs.Prelude.{◌≡◌, ◌++◌, OnOk};
ghost use Rattle.table_dump.specs.Tables.{table_text};
ghost use Rattle.lsda_read.specs.WholeTable.{IsWhole};

use crate::line::{put_actions, put_lists, put_sites, put_types};
use lsda_read::Lsda;
use std::alloc::{AllocError, Global};

/// The sites of a table, the actions that they name, and the types and lists that these reach.
#[tactic(auto, using(lsda_read::proofs::Whole::keys_in))]
pub fn put_table(alloc: Global, out: &mut Vec<u8>, table: &Lsda<'_>) -> Result<(), AllocError>
    requires { IsWhole table.now }
    ensures { OnOk result (out.new.items ≡ out.old.items ++ table_text table.now) }
{
    let numbers = table.numbers(alloc)?;
    put_sites(alloc, out, table)?;
    put_actions(alloc, out, table, numbers.actions.as_slice())?;
    put_types(alloc, out, table, numbers.types.as_slice())?;
    put_lists(alloc, out, table, numbers.lists.as_slice())?;
    Ok(())
}
