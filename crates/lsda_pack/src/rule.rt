// When a table is packed.
ghost use Rattle.std.specs.Prelude.{◌≡◌, ◌+◌, ◌-◌, ◌<◌, ◌^◌, ◌≤◌, ◌==◌, ◌||◌, ◌&&◌, nat_lt, nat_le, length, IfOk, IfSome, Contains, option_map, vec_len};
ghost use Rattle.std.specs.List.{AllByRecursion};
ghost use Rattle.lsda_read.specs.Names.{lists_named};
ghost use Rattle.lsda_read.specs.WholeTable.{indices_at};
ghost use Rattle.lsda_pack.specs.MayPack.{stand_from, names_stand};
ghost use Rattle.lsda_pack.specs.Rule.{is_plain, pads_count, are_near};

use crate::NoMemory;
use crate::ends::list_end;
use crate::listing::indices_in;
use crate::lists::list_size;
use lsda_read::{Lsda, Shape};
use std::alloc::Global;

// LPStart or the types are left out.
const OMITTED: u8 = 0xff;
// Relative to the field, four bytes with a sign.
const RELATIVE: u8 = 0x1b;

/// LPStart is omitted, and types are relative to themselves in four bytes, or omitted.
pub fn is_plain(shape: &Shape) -> bool
    ensures { result ≡ is_plain shape.now }
{
    shape.lp_start == OMITTED && (shape.ttype == RELATIVE || shape.ttype == OMITTED)
}

/// A pad is none, or lies above the start of its function.
pub fn pads_count(table: &Lsda<'_>, start: u64) -> bool
    ensures { result ≡ pads_count start table.now.sites }
{
    let mut sites = table.sites();
    'sites: while let Some(site) = sites.next() {
        if site.pad != 0 && site.pad <= start {
            return false;
        }
    }
    true
}

// A type can be told from an entry, and lies outside of the table.
fn is_near(first: u64, end: u128, entry: u128, value: u64) -> bool
    requires { entry < 2 ^ 70 }
    ensures { result ≡ (value == 0 || nat_lt value (entry + 2 ^ 31) && nat_lt entry (value + 2 ^ 31) && (nat_lt value first || nat_le end value)) }
{
    if value == 0 {
        return true;
    }
    let value = value as u128;
    value < entry + 0x8000_0000
        && entry < value + 0x8000_0000
        && (value < first as u128 || end <= value)
}

/// Types lie near their entries, and outside of the table.
pub fn are_near(first: u64, end: u128, base: u128, types: &[u64]) -> bool
    requires { base < 2 ^ 70 }
    ensures { result ≡ are_near first end base types.now }
{
    let mut entry = base;
    let mut rest = types;
    'types: while let Some((value, others)) = rest.split_first() {
        entry = entry.saturating_sub(4);
        if !is_near(first, end, entry, *value) {
            return false;
        }
        rest = others;
    }
    true
}

// The lists stand one after the other.
fn lists_stand(
    alloc: Global,
    bytes: &[u8],
    base: u128,
    table: &Lsda<'_>,
    lists: &[u64],
) -> Result<bool, NoMemory>
    requires small { length bytes.now < 2 ^ 63 }
    requires near { base < 2 ^ 65 }
    requires named { AllByRecursion (Contains (lists_named table.now)) lists.now }
    ensures { IfOk result (λ stand. stand ≡ stand_from bytes.now base (indices_at table.now) 0 lists.now) }
{
    let mut taken: u128 = 0;
    let mut rest = lists;
    'lists: while let Some((list, others)) = rest.split_first() {
        let indices = indices_in(alloc, table.spec_list(*list))?;
        let size = list_size(alloc, indices.as_slice())? as u128;
        if *list as u128 != taken + 1 {
            return Ok(false);
        }
        let end = list_end(bytes, (base + *list as u128).saturating_sub(1));
        if end != base + taken + size {
            return Ok(false);
        }
        taken += size;
        rest = others;
    }
    Ok(true)
}

/// Without types there is no list; with them the lists stand one after the other behind the base.
pub fn names_stand(
    alloc: Global,
    bytes: &[u8],
    base: Option<u128>,
    table: &Lsda<'_>,
    lists: &[u64],
) -> Result<bool, NoMemory>
    requires small { length bytes.now < 2 ^ 63 }
    requires near { IfSome base (λ b. b < 2 ^ 65) }
    requires named { AllByRecursion (Contains (lists_named table.now)) lists.now }
    ensures { IfOk result (λ stand. stand ≡ names_stand bytes.now base (indices_at table.now) lists.now) }
{
    match base {
        None => Ok(lists.len() == 0),
        Some(base) => lists_stand(alloc, bytes, base, table, lists),
    }
}
