// The lists of a table that was read, as its writer takes them.
ghost use Rattle.std.specs.Prelude.{◌≡◌, ◌++◌, map, unwrap_or, IfOk, Contains};
ghost use Rattle.std.specs.List.{AllByRecursion};
ghost use Rattle.std.specs.BTreeMap.{get};
ghost use Rattle.std.specs.Ordering.{nat_cmp};
ghost use Rattle.eh_bytes.specs.Listed.{listed_table};
ghost use Rattle.lsda_read.specs.Names.{actions_named, types_named, lists_named};
ghost use Rattle.lsda_pack.specs.Listing.{ArePositions, AreValues, number_among, listed_with, named_values};
ghost use Rattle.lsda_pack.specs.KeptTypes.{greatest};
ghost use Rattle.lsda_pack.specs.ReadLists.{lists_read};
ghost use Rattle.lsda_read.specs.WholeTable.{IsWhole, filters_at, indices_at};

use crate::NoMemory;
use crate::kept_types::greatest;
use eh_bytes::{ListSite, LsdaList};
use lsda_read::{Chain, Lsda, SpecList};
use std::alloc::{AllocError, Global};
use std::collections::BTreeMap;
use table_forms::Site;

// The place of each action in the list.
fn positions_of(alloc: Global, actions: &[u64]) -> Result<BTreeMap<u64, u32>, NoMemory>
    ensures { IfOk result (λ positions. ArePositions (get nat_cmp positions) 0 actions.now) }
{
    let mut positions = BTreeMap::new(alloc);
    let mut rest = actions;
    'actions: while let Some((action, front)) = rest.split_last() {
        let position = u32::try_from(front.len()).map_err(|_| AllocError)?;
        positions.insert(*action, position)?;
        rest = front;
    }
    Ok(positions)
}

// The number of an action's chain; action 0 has none.
fn number_of(
    positions: &BTreeMap<u64, u32>,
    actions: &[u64],
    action: u64,
) -> Result<Option<u32>, NoMemory>
    requires { ArePositions (get nat_cmp positions.now) 0 actions.now }
    ensures { IfOk result (λ number. number ≡ number_among actions.now action) }
{
    if action == 0 {
        return Ok(None);
    }
    if let Some(position) = positions.get(&action) {
        return Ok(Some(*position));
    }
    let count = u32::try_from(actions.len()).map_err(|_| AllocError)?;
    Ok(Some(count))
}

// A site as it counts from the start of its function.
fn site_listed(
    start: u64,
    positions: &BTreeMap<u64, u32>,
    actions: &[u64],
    site: &Site,
) -> Result<ListSite, NoMemory>
    requires { ArePositions (get nat_cmp positions.now) 0 actions.now }
    ensures { IfOk result (λ listed. listed ≡ listed_with start actions.now site.now) }
{
    Ok(ListSite {
        start: site.start.saturating_sub(start),
        length: site.end.saturating_sub(site.start),
        pad: if site.pad == 0 {
            0
        } else {
            site.pad.saturating_sub(start)
        },
        chain: number_of(positions, actions, site.action)?,
    })
}

fn sites_listed(
    alloc: Global,
    table: &Lsda<'_>,
    start: u64,
    actions: &[u64],
) -> Result<Vec<ListSite>, NoMemory>
    ensures { IfOk result (λ listed. listed.items ≡ map (listed_with start actions.now) table.now.sites) }
{
    let positions = positions_of(alloc, actions)?;
    let mut listed = Vec::new(alloc);
    let mut sites = table.sites();
    'sites: while let Some(site) = sites.next() {
        listed.push(site_listed(start, &positions, actions, &site)?)?;
    }
    Ok(listed)
}

fn filters_in(alloc: Global, mut chain: Chain<'_>) -> Result<Vec<i64>, NoMemory>
    ensures { IfOk result (λ filters. filters.items ≡ chain.entry) }
{
    let mut filters = Vec::new(alloc);
    'chain: while let Some(filter) = chain.next() {
        filters.push(filter)?;
    }
    Ok(filters)
}

fn chains_listed(
    alloc: Global,
    table: &Lsda<'_>,
    actions: &[u64],
) -> Result<Vec<Vec<i64>>, NoMemory>
    requires { AllByRecursion (Contains (actions_named table.now)) actions.now }
    ensures { IfOk result (λ chains. map (λ c. c.items) chains.items ≡ map (filters_at table.now) actions.now) }
{
    let mut chains = Vec::new(alloc);
    let mut rest = actions;
    'actions: while let Some((action, others)) = rest.split_first() {
        chains.push(filters_in(alloc, table.chain(*action))?)?;
        rest = others;
    }
    Ok(chains)
}

/// The indices of a list.
pub fn indices_in(alloc: Global, mut list: SpecList<'_>) -> Result<Vec<u64>, NoMemory>
    ensures { IfOk result (λ indices. indices.items ≡ list.entry) }
{
    let mut indices = Vec::new(alloc);
    'list: while let Some(index) = list.next() {
        indices.push(index)?;
    }
    Ok(indices)
}

fn lists_listed(alloc: Global, table: &Lsda<'_>, lists: &[u64]) -> Result<Vec<Vec<u64>>, NoMemory>
    requires { AllByRecursion (Contains (lists_named table.now)) lists.now }
    ensures { IfOk result (λ listed. map (λ l. l.items) listed.items ≡ map (indices_at table.now) lists.now) }
{
    let mut listed = Vec::new(alloc);
    let mut rest = lists;
    'lists: while let Some((list, others)) = rest.split_first() {
        listed.push(indices_in(alloc, table.spec_list(*list))?)?;
        rest = others;
    }
    Ok(listed)
}

// The values of the types that are named.
fn values_of(alloc: Global, table: &Lsda<'_>, types: &[u64]) -> Result<BTreeMap<u64, u64>, NoMemory>
    requires { AllByRecursion (Contains (types_named table.now)) types.now }
    ensures { IfOk result (λ values. AreValues table.now types.now (get nat_cmp values)) }
{
    let mut values = BTreeMap::new(alloc);
    let mut rest = types;
    'types: while let Some((index, front)) = rest.split_last() {
        values.insert(*index, table.type_entry(*index))?;
        rest = front;
    }
    Ok(values)
}

// The value under an index, or else 0.
fn value_under(values: &BTreeMap<u64, u64>, index: u64) -> u64
    ensures { result ≡ unwrap_or (get nat_cmp values.now index) 0 }
{
    match values.get(&index) {
        None => 0,
        Some(value) => *value,
    }
}

// The values up to the greatest index.
fn types_listed(alloc: Global, table: &Lsda<'_>, types: &[u64]) -> Result<Vec<u64>, NoMemory>
    requires { AllByRecursion (Contains (types_named table.now)) types.now }
    ensures { IfOk result (λ values. values.items ≡ named_values (greatest types.now) 1 types.now table.now) }
{
    let named = values_of(alloc, table, types)?;
    let mut values = Vec::new(alloc);
    let mut left = greatest(types);
    let mut index = 0;
    'types: while left > 0 {
        index += 1;
        values.push(value_under(&named, index))?;
        left -= 1;
    }
    Ok(values)
}

/// The lists of a table that was read, of a function that begins at this address.
#[tactic(auto, using(lsda_read::proofs::Whole::keys_in, crate::proofs::ListingIs::listing_is))]
pub fn read_lists(alloc: Global, table: &Lsda<'_>, start: u64) -> Result<LsdaList, NoMemory>
    requires { IsWhole table.now }
    ensures { IfOk result (λ listed. listed_table listed ≡ lists_read start table.now) }
{
    let numbers = table.numbers(alloc)?;
    let sites = sites_listed(alloc, table, start, numbers.actions.as_slice())?;
    let chains = chains_listed(alloc, table, numbers.actions.as_slice())?;
    let types = types_listed(alloc, table, numbers.types.as_slice())?;
    let lists = lists_listed(alloc, table, numbers.lists.as_slice())?;
    Ok(LsdaList {
        sites,
        chains,
        types,
        lists,
    })
}
