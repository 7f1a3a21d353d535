// The lists of a function's tables, and its filters.
ghost use Rattle.std.specs.Prelude.{◌≡◌, pos, negsuc, map, IfOk, OnOk};
ghost use Rattle.region_forms.specs.Form.{regions_from};
ghost use Rattle.linear_forms.specs.Distinct.{added, added_all, among, same_list};
ghost use Rattle.linear_forms.specs.Filters as rules;
ghost use Rattle.linear_forms.specs.Tables.{clause as clause_meant, list_of, list_bytes as bytes_meant};
ghost use Rattle.region_ir.specs.View.{clauses_of, region_of};

use crate::NoMemory;
use crate::types::{index_of, table_type, types_in};
use eh_bytes::put_uleb;
use indexmap::IndexSet;
use region_ir::region::{Clause, Region};
use std::alloc::Global;

/// The filter of a cleanup.
pub const CLEANUP: i64 = 0;

/// The types and the lists of a function.
#[derive(Drop)]
pub struct Tables {
    pub types: IndexSet<u32>,
    pub lists: Vec<Vec<u64>>,
}

// A specification's types as indices.
fn indices_of(alloc: Global, types: &IndexSet<u32>, listed: &[u32]) -> Result<Vec<u64>, NoMemory>
    ensures { IfOk result (λ indices. indices.items ≡ rules.indices_of types.now.keys listed.now) }
{
    let mut indices = Vec::new(alloc);
    for ty in listed {
        indices.push(index_of(table_type(Some(*ty))?, types))?;
    }
    Ok(indices)
}

// Whether two lists hold the same indices in the same order.
fn same_list(list: &[u64], other: &[u64]) -> bool
    ensures { result ≡ same_list list.now other.now }
{
    match (list.split_first(), other.split_first()) {
        (None, None) => true,
        (Some((index, indices)), Some((first, others))) => {
            index == first && same_list(indices, others)
        }
        _ => false,
    }
}

// Whether a list is among others.
fn is_among(list: &[u64], lists: &[Vec<u64>]) -> bool
    ensures { result ≡ among same_list (map (λ l. l.items) lists.now) list.now }
{
    for other in lists {
        if same_list(list, other.as_slice()) {
            return true;
        }
    }
    false
}

// A list, behind others unless it is among them.
fn put_list(list: Vec<u64>, lists: &mut Vec<Vec<u64>>) -> Result<(), NoMemory>
    ensures { OnOk result (map (λ l. l.items) lists.new.items ≡ added same_list (map (λ l. l.items) lists.old.items) list.items) }
{
    if !is_among(list.as_slice(), lists.as_slice()) {
        lists.push(list)?;
    }
    Ok(())
}

// The lists of a region's specifications as indices, behind others.
#[cycle(list_uses)]
#[tactic(auto, using(region_ir::proofs::Rows::region_rows, crate::proofs::Distinct::both_added))]
fn put_lists(
    alloc: Global,
    region: &Region,
    types: &IndexSet<u32>,
    lists: &mut Vec<Vec<u64>>,
) -> Result<(), NoMemory>
    ensures { OnOk result (map (λ l. l.items) lists.new.items ≡ added_all same_list (map (λ l. l.items) lists.old.items) (map (rules.indices_of types.now.keys) (rules.list_uses (region_of region.now)))) }
{
    match region {
        Region::Seq(regions) => put_lists_of_all(alloc, regions.as_slice(), types, lists),
        Region::Branch(_, first, second) => {
            put_lists(alloc, first, types, lists)?;
            put_lists(alloc, second, types, lists)
        }
        Region::Loop(_, body) | Region::Protect(body, _) | Region::Barrier(body) => {
            put_lists(alloc, body, types, lists)
        }
        Region::Catch(body, clauses) => {
            put_lists_of_clauses(alloc, clauses.as_slice(), types, lists)?;
            put_lists(alloc, body, types, lists)
        }
        Region::Limit(body, listed) => {
            put_list(indices_of(alloc, types, listed.as_slice())?, lists)?;
            put_lists(alloc, body, types, lists)
        }
        Region::Op(_) | Region::Leave(_) => Ok(()),
    }
}

#[cycle(list_uses)]
#[tactic(auto, using(crate::proofs::Distinct::both_added))]
fn put_lists_of_all(
    alloc: Global,
    regions: &[Region],
    types: &IndexSet<u32>,
    lists: &mut Vec<Vec<u64>>,
) -> Result<(), NoMemory>
    ensures { OnOk result (map (λ l. l.items) lists.new.items ≡ added_all same_list (map (λ l. l.items) lists.old.items) (map (rules.indices_of types.now.keys) (rules.list_uses_all (regions_from (map region_of regions.now))))) }
{
    for region in regions {
        put_lists(alloc, region, types, lists)?;
    }
    Ok(())
}

#[cycle(list_uses)]
#[tactic(auto, using(crate::proofs::Distinct::both_added))]
fn put_lists_of_clauses(
    alloc: Global,
    clauses: &[Clause],
    types: &IndexSet<u32>,
    lists: &mut Vec<Vec<u64>>,
) -> Result<(), NoMemory>
    ensures { OnOk result (map (λ l. l.items) lists.new.items ≡ added_all same_list (map (λ l. l.items) lists.old.items) (map (rules.indices_of types.now.keys) (rules.list_uses_clauses (clauses_of clauses.now)))) }
{
    for clause in clauses {
        put_lists(alloc, &clause.body, types, lists)?;
    }
    Ok(())
}

// The bytes of a list: each index in its shortest LEB128, then a 0.
fn list_bytes(alloc: Global, list: &[u64]) -> Result<u64, NoMemory>
    ensures { IfOk result (λ n. n ≡ bytes_meant list.now) }
{
    let mut spelled = Vec::new(alloc);
    for index in list {
        put_uleb(&mut spelled, *index)?;
    }
    Ok(spelled.len() as u64 + 1)
}

// The byte at which a list begins; that of one that is not there is behind the last.
fn byte_of_list(alloc: Global, list: &[u64], lists: &[Vec<u64>]) -> Result<u64, NoMemory>
    ensures { IfOk result (λ n. n ≡ rules.byte_of_list list.now (map (λ l. l.items) lists.now)) }
{
    let mut byte: u64 = 0;
    for other in lists {
        if same_list(list, other.as_slice()) {
            return Ok(byte);
        }
        byte = byte
            .checked_add(list_bytes(alloc, other.as_slice())?)
            .ok_or(NoMemory)?;
    }
    Ok(byte)
}

// A filter above 0.
fn index_filter(index: u64) -> Result<i64, NoMemory>
    ensures { IfOk result (λ f. f ≡ pos index) }
{
    match i64::try_from(index) {
        Ok(filter) => Ok(filter),
        Err(_) => Err(NoMemory),
    }
}

// A filter below 0, for the list that begins at a byte.
fn byte_filter(byte: u64) -> Result<i64, NoMemory>
    ensures { IfOk result (λ f. f ≡ negsuc byte) }
{
    match i64::try_from(byte) {
        Ok(place) => Ok(-1 - place),
        Err(_) => Err(NoMemory),
    }
}

impl Tables {
    /// The tables of a region.
    pub fn new(alloc: Global, region: &Region) -> Result<Self, NoMemory>
        ensures types { IfOk result (λ t. t.types.keys ≡ rules.types_in (region_of region.now)) }
        ensures lists { IfOk result (λ t. map (λ l. l.items) t.lists.items ≡ rules.lists_in (region_of region.now)) }
    {
        let types = types_in(alloc, region)?;
        let mut lists = Vec::new(alloc);
        put_lists(alloc, region, &types, &mut lists)?;
        Ok(Tables { types, lists })
    }

    /// The filter of a clause with this type, none for `catch (...)`.
    pub fn clause_filter(&self, ty: Option<u32>) -> Result<i64, NoMemory>
        ensures { IfOk result (λ f. f ≡ rules.filter_for self.now.types.keys (map (λ l. l.items) self.now.lists.items) (clause_meant ty)) }
    {
        index_filter(index_of(table_type(ty)?, &self.types))
    }

    /// The filter of a specification with these types.
    pub fn list_filter(&self, alloc: Global, listed: &[u32]) -> Result<i64, NoMemory>
        ensures { IfOk result (λ f. f ≡ rules.filter_for self.now.types.keys (map (λ l. l.items) self.now.lists.items) (list_of listed.now)) }
    {
        let list = indices_of(alloc, &self.types, listed)?;
        let byte = byte_of_list(alloc, list.as_slice(), self.lists.as_slice())?;
        byte_filter(byte)
    }
}
