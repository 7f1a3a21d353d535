// Whole tables.
ghost use Rattle.std.specs.Prelude.{◌≡◌, ◌++◌, IfOk, OnOk, OnErr};
ghost use Rattle.eh_bytes.specs.Listed.{listed_table};
ghost use Rattle.table_forms.specs.WrittenTable.{WritesTable};
ghost use Rattle.std.specs.List.{AllByRecursion};
ghost use Rattle.eh_write.specs.Fits.{HasWords, IsSignedWord, NumbersFit};
ghost use Rattle.eh_write.specs.CanWrite.{CanWrite};
ghost use Rattle.eh_write.specs.Written.{body_bytes, front_bytes, table_bytes};

use crate::NoMemory;
use crate::actions::action_table;
use crate::entries::put_entries;
use crate::layout::{base_offset, put_zeros};
use crate::lists::put_lists;
use crate::sites::site_table;
use eh_bytes::{LsdaList, put_uleb};
use std::alloc::{AllocError, Global};

// LPStart is left out.
const OMITTED: u8 = 0xff;
// Relative to the field, four bytes with a sign.
const RELATIVE: u8 = 0x1b;

const ULEB128: u8 = 0x01;

// The encoding of sites, the length of their table, the sites and the actions.
fn body_of(alloc: Global, table: &LsdaList) -> Result<Vec<u8>, NoMemory>
    ensures bytes { IfOk result (λ body. body.items ≡ body_bytes (listed_table table.now)) }
    ensures sites { OnOk result (AllByRecursion HasWords (listed_table table.now).sites) }
    ensures chains { OnOk result (AllByRecursion (AllByRecursion IsSignedWord) (listed_table table.now).chains) }
{
    let (bytes, actions) = action_table(alloc, table.chains.as_slice())?;
    let sites = site_table(alloc, table.sites.as_slice(), actions.as_slice())?;
    let mut body = Vec::new(alloc);
    body.push(ULEB128)?;
    put_uleb(&mut body, sites.len() as u64)?;
    body.extend_from_slice(sites.as_slice())?;
    body.extend_from_slice(bytes.as_slice())?;
    Ok(body)
}

// The table up to its entries.
fn front_of(alloc: Global, table: &LsdaList) -> Result<Vec<u8>, NoMemory>
    ensures bytes { IfOk result (λ front. front.items ≡ front_bytes (listed_table table.now)) }
    ensures sites { OnOk result (AllByRecursion HasWords (listed_table table.now).sites) }
    ensures chains { OnOk result (AllByRecursion (AllByRecursion IsSignedWord) (listed_table table.now).chains) }
{
    let body = body_of(alloc, table)?;
    let entries = (table.types.len() as u64).checked_mul(4).ok_or(AllocError)?;
    let least = (body.len() as u64).checked_add(entries).ok_or(AllocError)?;
    let offset = base_offset(alloc, least)?;
    let mut front = Vec::new(alloc);
    front.push(OMITTED)?;
    front.push(RELATIVE)?;
    put_uleb(&mut front, offset)?;
    front.extend_from_slice(body.as_slice())?;
    put_zeros(&mut front, offset - least)?;
    Ok(front)
}

// The whole table.
#[tactic(auto, unfolding(crate::specs::Written::table_bytes))]
fn table_of(alloc: Global, table: &LsdaList, address: u64) -> Result<Vec<u8>, NoMemory>
    ensures bytes { IfOk result (λ bytes. bytes.items ≡ table_bytes (listed_table table.now) address) }
    ensures words { OnOk result (NumbersFit (listed_table table.now)) }
{
    let mut bytes = front_of(alloc, table)?;
    let entries_at = address as u128 + bytes.len() as u128;
    put_entries(&mut bytes, table.types.as_slice(), entries_at)?;
    put_lists(&mut bytes, table.lists.as_slice())?;
    Ok(bytes)
}

/// Appends the table of a function for an address that is a multiple of 4.
///
/// The sites are in order, no chain is empty, and numbers name what is there; types other than 0
/// lie less than 2^31 from their entries and outside the table. Then the bytes stand for the
/// lists in each memory that has them at the address. `out` is unchanged where memory is wanted.
pub fn write_lsda(
    alloc: Global,
    table: &LsdaList,
    address: u64,
    out: &mut Vec<u8>,
) -> Result<(), NoMemory>
    ensures bytes { OnOk result (out.new.items ≡ out.old.items ++ table_bytes (listed_table table.now) address) }
    ensures refused { OnErr result (out.new.items ≡ out.old.items) }
    ensures stands { OnOk result (CanWrite (listed_table table.now) address → WritesTable (listed_table table.now) address (table_bytes (listed_table table.now) address)) }
{
    let bytes = table_of(alloc, table, address)?;
    out.extend_from_slice(bytes.as_slice())
}
