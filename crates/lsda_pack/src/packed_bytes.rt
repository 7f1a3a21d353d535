// The bytes of a packed table.
ghost use Rattle.std.specs.Prelude.{◌≡◌, ◌<◌, ◌^◌, ◌++◌, IfOk, OnOk, OnErr};
ghost use Rattle.eh_bytes.specs.Listed.{listed_table};
ghost use Rattle.eh_write.specs.Fits.{NumbersFit};
ghost use Rattle.lsda_pack.specs.Laws.{CanPack, RecordsOnce, StandsFor};
ghost use Rattle.lsda_pack.specs.PackedBytes.{base_for, body_bytes, front_bytes, no_names, packed_bytes};

use crate::NoMemory;
use crate::actions::{action_table, actions_of};
use crate::layout::offset_for;
use crate::numbers::numbered_chains;
use eh_bytes::{LsdaList, put_uleb};
use eh_write::{put_entries, put_lists, put_zeros, site_table};
use std::alloc::{AllocError, Global};

// LPStart or the types are left out.
const OMITTED: u8 = 0xff;
// Relative to the field, four bytes with a sign.
const RELATIVE: u8 = 0x1b;

const ULEB128: u8 = 0x01;

// The encoding of sites, the length of their table, the sites and the actions.
#[tactic(auto, unfolding(crate::specs::PackedBytes::body_bytes))]
fn body_of(alloc: Global, table: &LsdaList) -> Result<Vec<u8>, NoMemory>
    ensures { IfOk result (λ body. body.items ≡ body_bytes (listed_table table.now)) }
{
    let chains = numbered_chains(alloc, table.chains.as_slice())?;
    let records = action_table(alloc, chains.as_slice())?;
    let actions = actions_of(alloc, &records, chains.as_slice())?;
    let sites = site_table(alloc, table.sites.as_slice(), actions.as_slice())?;
    let mut body = Vec::new(alloc);
    body.push(ULEB128)?;
    put_uleb(&mut body, sites.len() as u64)?;
    body.extend_from_slice(sites.as_slice())?;
    body.extend_from_slice(records.bytes.as_slice())?;
    Ok(body)
}

// The table up to its entries.
fn front_of(alloc: Global, table: &LsdaList, address: u64) -> Result<Vec<u8>, NoMemory>
    ensures { IfOk result (λ front. front.items ≡ front_bytes (listed_table table.now) address) }
{
    let body = body_of(alloc, table)?;
    let entries = (table.types.len() as u64).checked_mul(4).ok_or(AllocError)?;
    let least = (body.len() as u64).checked_add(entries).ok_or(AllocError)?;
    let offset = offset_for(alloc, address, least)?;
    let mut front = Vec::new(alloc);
    front.push(OMITTED)?;
    front.push(RELATIVE)?;
    put_uleb(&mut front, offset)?;
    front.extend_from_slice(body.as_slice())?;
    put_zeros(&mut front, offset - least)?;
    Ok(front)
}

/// Where the base of the types of a packed table lies, if it has one.
#[tactic(auto, unfolding(crate::specs::PackedBytes::base_for))]
pub fn base_for(alloc: Global, table: &LsdaList, address: u64) -> Result<u128, NoMemory>
    ensures base { IfOk result (λ base. base ≡ base_for (listed_table table.now) address) }
    ensures near { IfOk result (λ base. base < 2 ^ 70) }
{
    let front = front_of(alloc, table, address)?;
    Ok(address as u128 + front.len() as u128 + 4 * table.types.len() as u128)
}

fn has_no_names(table: &LsdaList) -> bool
    ensures { result ≡ no_names (listed_table table.now) }
{
    table.types.len() == 0 && table.lists.len() == 0
}

// The whole table.
#[tactic(auto, unfolding(crate::specs::PackedBytes::packed_bytes))]
fn table_of(alloc: Global, table: &LsdaList, address: u64) -> Result<Vec<u8>, NoMemory>
    ensures { IfOk result (λ bytes. bytes.items ≡ packed_bytes (listed_table table.now) address) }
{
    if has_no_names(table) {
        let body = body_of(alloc, table)?;
        let mut bytes = Vec::new(alloc);
        bytes.push(OMITTED)?;
        bytes.push(OMITTED)?;
        bytes.extend_from_slice(body.as_slice())?;
        return Ok(bytes);
    }
    let mut bytes = front_of(alloc, table, address)?;
    let entries_at = address as u128 + bytes.len() as u128;
    put_entries(&mut bytes, table.types.as_slice(), entries_at)?;
    put_lists(&mut bytes, table.lists.as_slice())?;
    Ok(bytes)
}

/// Appends the packed table of a function for an address. Chains that end alike share their
/// records: each end of a chain that is not empty has one. The base of the types lies at a
/// multiple of 4. `out` is unchanged where memory is wanted.
///
/// The sites are in order, no chain is empty, and numbers name what is there; types other than 0
/// lie less than 2^31 from their entries and outside the table. Then the bytes stand for the
/// lists in each memory that has them at the address.
#[tactic(auto, using(crate::proofs::SuffixesOnce::records_once))]
pub fn write_packed(
    alloc: Global,
    table: &LsdaList,
    address: u64,
    out: &mut Vec<u8>,
) -> Result<(), NoMemory>
    ensures bytes { OnOk result (out.new.items ≡ out.old.items ++ packed_bytes (listed_table table.now) address) }
    ensures refused { OnErr result (out.new.items ≡ out.old.items) }
    ensures stands { OnOk result (NumbersFit (listed_table table.now) → CanPack (listed_table table.now) address → StandsFor (listed_table table.now) address) }
    ensures once { RecordsOnce (listed_table table.now).chains }
{
    let bytes = table_of(alloc, table, address)?;
    out.extend_from_slice(bytes.as_slice())
}
