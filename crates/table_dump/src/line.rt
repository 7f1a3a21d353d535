// The lines of an exception table.
ghost use Rattle.std.specs.Prelude.{◌≡◌, ◌++◌, OnOk, Contains, codes, flat_map, map};
ghost use Rattle.std.specs.List.{AllByRecursion};
ghost use Rattle.std.specs.Fmt.{decimal, signed_decimal};
ghost use Rattle.lsda_read.specs.Names.{actions_named, types_named, lists_named};
ghost use Rattle.table_dump.specs.Texts.{joined};
ghost use Rattle.table_dump.specs.Tables.{lsda_line, site_line, action_line, type_line, list_line};
ghost use Rattle.lsda_read.specs.WholeTable.{filters_at, value_of, indices_at};

use crate::text::put_text;
use lsda_read::{Chain, Lsda, SpecList};
use std::alloc::{AllocError, Global};
use table_forms::Site;

/// The line of a table's address.
pub fn put_lsda(alloc: Global, out: &mut Vec<u8>, address: u64) -> Result<(), AllocError>
    ensures { OnOk result (out.new.items ≡ out.old.items ++ lsda_line address) }
{
    let line = format!(in alloc; "  lsda 0x{address:x}\n")?;
    put_text(out, line.as_str())
}

fn put_site(alloc: Global, out: &mut Vec<u8>, site: Site) -> Result<(), AllocError>
    ensures { OnOk result (out.new.items ≡ out.old.items ++ site_line site) }
{
    let start = site.start;
    let end = site.end;
    let pad = site.pad;
    let action = site.action;
    let line = format!(in alloc; "  site 0x{start:x} 0x{end:x} pad 0x{pad:x} action {action}\n")?;
    put_text(out, line.as_str())
}

/// The lines of the sites.
pub fn put_sites(alloc: Global, out: &mut Vec<u8>, table: &Lsda<'_>) -> Result<(), AllocError>
    ensures { OnOk result (out.new.items ≡ out.old.items ++ flat_map site_line table.now.sites) }
{
    let mut sites = table.sites();
    'sites: while let Some(site) = sites.next() {
        put_site(alloc, out, site)?;
    }
    Ok(())
}

fn put_filter(alloc: Global, out: &mut Vec<u8>, filter: i64) -> Result<(), AllocError>
    ensures { OnOk result (out.new.items ≡ out.old.items ++ signed_decimal filter) }
{
    let text = format!(in alloc; "{filter}")?;
    put_text(out, text.as_str())
}

fn put_filters(alloc: Global, out: &mut Vec<u8>, mut chain: Chain<'_>) -> Result<(), AllocError>
    ensures { OnOk result (out.new.items ≡ out.old.items ++ joined (map signed_decimal chain.entry)) }
{
    let Some(first) = chain.next() else {
        return Ok(());
    };
    put_filter(alloc, out, first)?;
    'chain: while let Some(filter) = chain.next() {
        put_text(out, " ")?;
        put_filter(alloc, out, filter)?;
    }
    Ok(())
}

fn put_action(
    alloc: Global,
    out: &mut Vec<u8>,
    table: &Lsda<'_>,
    action: u64,
) -> Result<(), AllocError>
    requires { Contains (actions_named table.now) action }
    ensures { OnOk result (out.new.items ≡ out.old.items ++ action_line (action, filters_at table.now action)) }
{
    let front = format!(in alloc; "  action {action}: ")?;
    put_text(out, front.as_str())?;
    put_filters(alloc, out, table.chain(action))?;
    put_text(out, "\n")
}

/// The lines of actions that sites name.
pub fn put_actions(
    alloc: Global,
    out: &mut Vec<u8>,
    table: &Lsda<'_>,
    actions: &[u64],
) -> Result<(), AllocError>
    requires { AllByRecursion (Contains (actions_named table.now)) actions.now }
    ensures { OnOk result (out.new.items ≡ out.old.items ++ flat_map (λ a. action_line (a, filters_at table.now a)) actions.now) }
{
    let mut rest = actions;
    'actions: while let Some((action, others)) = rest.split_first() {
        put_action(alloc, out, table, *action)?;
        rest = others;
    }
    Ok(())
}

fn put_type(alloc: Global, out: &mut Vec<u8>, index: u64, value: u64) -> Result<(), AllocError>
    ensures { OnOk result (out.new.items ≡ out.old.items ++ type_line (index, value)) }
{
    let line = format!(in alloc; "  type {index}: 0x{value:x}\n")?;
    put_text(out, line.as_str())
}

/// The lines of type entries that chains and lists name.
pub fn put_types(
    alloc: Global,
    out: &mut Vec<u8>,
    table: &Lsda<'_>,
    types: &[u64],
) -> Result<(), AllocError>
    requires { AllByRecursion (Contains (types_named table.now)) types.now }
    ensures { OnOk result (out.new.items ≡ out.old.items ++ flat_map (λ i. type_line (i, value_of table.now i)) types.now) }
{
    let mut rest = types;
    'types: while let Some((index, others)) = rest.split_first() {
        put_type(alloc, out, *index, table.type_entry(*index))?;
        rest = others;
    }
    Ok(())
}

fn put_index(alloc: Global, out: &mut Vec<u8>, index: u64) -> Result<(), AllocError>
    ensures { OnOk result (out.new.items ≡ out.old.items ++ decimal index) }
{
    let text = format!(in alloc; "{index}")?;
    put_text(out, text.as_str())
}

fn put_indices(alloc: Global, out: &mut Vec<u8>, mut list: SpecList<'_>) -> Result<(), AllocError>
    ensures { OnOk result (out.new.items ≡ out.old.items ++ joined (map decimal list.entry)) }
{
    let Some(first) = list.next() else {
        return Ok(());
    };
    put_index(alloc, out, first)?;
    'list: while let Some(index) = list.next() {
        put_text(out, " ")?;
        put_index(alloc, out, index)?;
    }
    Ok(())
}

fn put_list(alloc: Global, out: &mut Vec<u8>, table: &Lsda<'_>, list: u64) -> Result<(), AllocError>
    requires { Contains (lists_named table.now) list }
    ensures { OnOk result (out.new.items ≡ out.old.items ++ list_line (list, indices_at table.now list)) }
{
    let front = format!(in alloc; "  list -{list}: ")?;
    put_text(out, front.as_str())?;
    put_indices(alloc, out, table.spec_list(list))?;
    put_text(out, "\n")
}

/// The lines of lists that chains name.
pub fn put_lists(
    alloc: Global,
    out: &mut Vec<u8>,
    table: &Lsda<'_>,
    lists: &[u64],
) -> Result<(), AllocError>
    requires { AllByRecursion (Contains (lists_named table.now)) lists.now }
    ensures { OnOk result (out.new.items ≡ out.old.items ++ flat_map (λ j. list_line (j, indices_at table.now j)) lists.now) }
{
    let mut rest = lists;
    'lists: while let Some((list, others)) = rest.split_first() {
        put_list(alloc, out, table, *list)?;
        rest = others;
    }
    Ok(())
}
