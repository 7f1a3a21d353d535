// The lists of exception specifications, as the exception tables have them.
ghost use Rattle.std.specs.Prelude.{◌≡◌, ◌≢◌, ◌+◌, true, [], Contains, IfSome, find};
ghost use Rattle.std.specs.List.{list_all, list_any};
ghost use Rattle.eh_bytes.specs.Memory.{memory_of};
ghost use Rattle.frame_walk.specs.Outward.{tables_of};
ghost use Rattle.lsda_read.specs.Names.{actions_named, lists_named};
ghost use Rattle.raise_core.specs.Asked.{table_named};
ghost use Rattle.raise_core.specs.Reads.{AreTables, is_readable};
ghost use Rattle.table_forms.specs.Keys.{value_at};
ghost use Rattle.table_forms.specs.Verdict.{filters_at};
ghost use Rattle.cxa_runtime.specs.Unexpected.{has_list, is_list, first_reading, lists_bad, reading_of, readings};

use eh_bytes::Segments;
use frame_read::{Fde, Frames};
use lsda_read::Lsda;
use rv64_machine::Machine;

// Whether a filter is that of a list, counted from 0.
fn is_list(list: u64, filter: i64) -> bool
    ensures { result ≡ is_list list filter }
{
    filter < 0 && filter.unsigned_abs() - 1 == list
}

// Whether the chain of an action has the filter of a list.
fn chain_has(table: &Lsda<'_>, list: u64, action: u64) -> bool
    requires { Contains (actions_named table.now) action }
    ensures { result ≡ list_any (is_list list) (value_at [] table.now.actions action) }
{
    let mut chain = table.chain(action);
    'filters: while let Some(filter) = chain.next() {
        if is_list(list, filter) {
            return true;
        }
    }
    false
}

// Whether the filters of a site have that of a list.
fn site_has(table: &Lsda<'_>, list: u64, action: u64) -> bool
    requires { action ≢ 0 → Contains (actions_named table.now) action }
    ensures { result ≡ list_any (is_list list) (filters_at table.now action) }
{
    if action == 0 {
        return false;
    }
    chain_has(table, list, action)
}

/// Whether the chain of one of the sites has the filter of a list, counted from 0.
#[tactic(auto, using(crate::proofs::Listed::sites_named))]
pub fn has_list(table: &Lsda<'_>, list: u64) -> bool
    ensures { result ≡ has_list list table.now }
{
    let mut sites = table.sites();
    'sites: while let Some(site) = sites.next() {
        if site_has(table, list, site.action) {
            return true;
        }
    }
    false
}

/// Whether a list, counted from 1, has the type record of `std::bad_exception`.
#[tactic(auto, using(personality::proofs::NamedBy::indices_named))]
pub fn lists_bad(table: &Lsda<'_>, list: u64, bad_exception: u64) -> bool
    requires { Contains (lists_named table.now) list }
    ensures { result ≡ lists_bad table.now list bad_exception }
{
    let mut indices = table.spec_list(list);
    'indices: while let Some(index) = indices.next() {
        if table.type_entry(index) == bad_exception {
            return true;
        }
    }
    false
}

// The exception table that an FDE names, if any.
fn table_of<'a>(memory: &'a Segments, fde: &Fde) -> Option<Lsda<'a>>
    requires { is_readable (memory_of memory.now) fde.now ≡ true }
    ensures { result ≡ table_named (memory_of memory.now) fde.now.lsda fde.now.region }
{
    if fde.lsda == 0 {
        return None;
    }
    match Lsda::read_at(memory, fde.lsda, fde.region) {
        Err(_) => unreachable!(),
        Ok(table) => Some(table),
    }
}

// The table of an FDE, where it stands at the address and has the filter of a list.
fn reading_of<'a>(memory: &'a Segments, fde: &Fde, address: u64, list: u64) -> Option<Lsda<'a>>
    requires { is_readable (memory_of memory.now) fde.now ≡ true }
    ensures { result ≡ reading_of (memory_of memory.now) address list fde.now }
{
    if fde.lsda != address {
        return None;
    }
    match table_of(memory, fde) {
        Some(table) if has_list(&table, list) => Some(table),
        _ => None,
    }
}

// The first table that one of the FDEs names, where it stands at the address and has the filter of a list.
fn first_reading<'a>(
    memory: &'a Segments,
    fdes: &[Fde],
    address: u64,
    list: u64,
) -> Option<Lsda<'a>>
    requires { list_all (is_readable (memory_of memory.now)) fdes.now ≡ true }
    ensures { result ≡ first_reading (memory_of memory.now) address list fdes.now }
{
    let mut rest = fdes;
    'fdes: while let Some((fde, more)) = rest.split_first() {
        if let Some(table) = reading_of(memory, fde, address, list) {
            return Some(table);
        }
        rest = more;
    }
    None
}

/// The first reading of the exception table at an address that has the filter of a list, counted from 0.
pub fn reading_with<'a>(
    machine: &'a Machine,
    frames: &Frames,
    address: u64,
    list: u64,
) -> Option<Lsda<'a>>
    requires { AreTables machine.now frames.now }
    ensures reading { (t : AreTables machine.now frames.now) → result ≡ find (has_list list) (readings (tables_of machine.now) t.read.fdes address) }
    ensures named { IfSome result (λ table. Contains (lists_named table) (list + 1)) }
{
    first_reading(machine.tables(), frames.fdes(), address, list)
}
