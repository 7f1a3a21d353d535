// The line of a filter.
ghost use Rattle.std.specs.Prelude.{◌≡◌, ◌++◌, OnOk, Contains, [], flat_map};
ghost use Rattle.lsda_read.specs.Names.{types_named, lists_named};
ghost use Rattle.table_forms.specs.Keys.{value_at};
ghost use Rattle.table_forms.specs.Verdict.{stops};
ghost use Rattle.personality.specs.Seen.{thrown_of};
ghost use Rattle.personality.specs.Named.{FilterIsNamed};
ghost use Rattle.place_verdicts.specs.Filters.{entry_text, types_text, filter_word, filter_line};

use lsda_read::Lsda;
use personality::{Thrown, allows};
use std::alloc::{AllocError, Global};
use table_dump::text::put_text;

// A type entry, as it is printed in a list.
fn put_entry(
    alloc: Global,
    out: &mut Vec<u8>,
    table: &Lsda<'_>,
    index: u64,
) -> Result<(), AllocError>
    requires { Contains (types_named table.now) index }
    ensures { OnOk result (out.new.items ≡ out.old.items ++ entry_text table.now index) }
{
    let value = table.type_entry(index);
    let text = format!(in alloc; " 0x{value:x}")?;
    put_text(out, text.as_str())
}

// The types of the list of a specification.
#[tactic(auto, using(personality::proofs::NamedBy::indices_named))]
fn put_list(alloc: Global, out: &mut Vec<u8>, table: &Lsda<'_>, list: u64) -> Result<(), AllocError>
    requires { Contains (lists_named table.now) list }
    ensures { OnOk result (out.new.items ≡ out.old.items ++ flat_map (entry_text table.now) (value_at [] table.now.lists list)) }
{
    let mut indices = table.spec_list(list);
    'indices: while let Some(index) = indices.next() {
        put_entry(alloc, out, table, index)?;
    }
    Ok(())
}

// The types that a filter names.
fn put_types(
    alloc: Global,
    out: &mut Vec<u8>,
    table: &Lsda<'_>,
    filter: i64,
) -> Result<(), AllocError>
    requires { FilterIsNamed table.now filter }
    ensures { OnOk result (out.new.items ≡ out.old.items ++ types_text table.now filter) }
{
    if filter == 0 {
        return Ok(());
    }
    if filter > 0 {
        put_text(out, " type")?;
        return put_entry(alloc, out, table, filter.unsigned_abs());
    }
    put_text(out, " types")?;
    put_list(alloc, out, table, filter.unsigned_abs())
}

// Whether a filter stops what is thrown.
fn stops(table: &Lsda<'_>, thrown: &Thrown, filter: i64) -> bool
    requires { FilterIsNamed table.now filter }
    ensures { result ≡ stops table.now (thrown_of thrown.now) filter }
{
    if filter == 0 {
        return false;
    }
    if filter > 0 {
        return thrown.matches(table.type_entry(filter.unsigned_abs()));
    }
    match thrown {
        Thrown::Forced => false,
        Thrown::Foreign => true,
        Thrown::Native(_) => !allows(table, thrown, filter.unsigned_abs()),
    }
}

// What a filter does.
fn put_word(
    out: &mut Vec<u8>,
    table: &Lsda<'_>,
    thrown: &Thrown,
    filter: i64,
) -> Result<(), AllocError>
    requires { FilterIsNamed table.now filter }
    ensures { OnOk result (out.new.items ≡ out.old.items ++ filter_word table.now (thrown_of thrown.now) filter) }
{
    if filter == 0 {
        return put_text(out, "cleanup");
    }
    if stops(table, thrown, filter) {
        put_text(out, "stops")
    } else {
        put_text(out, "passes")
    }
}

/// The number of a filter, the types that it names, and what it does.
pub fn put_filter(
    alloc: Global,
    out: &mut Vec<u8>,
    table: &Lsda<'_>,
    thrown: &Thrown,
    filter: i64,
) -> Result<(), AllocError>
    requires { FilterIsNamed table.now filter }
    ensures { OnOk result (out.new.items ≡ out.old.items ++ filter_line table.now (thrown_of thrown.now) filter) }
{
    let front = format!(in alloc; "  filter {filter}")?;
    put_text(out, front.as_str())?;
    put_types(alloc, out, table, filter)?;
    put_text(out, ": ")?;
    put_word(out, table, thrown, filter)?;
    put_text(out, "\n")
}
