// The numbers that a table names.
ghost use Rattle.std.specs.Prelude.{◌≡◌, ◌++◌, IfOk, OnOk, Contains, flat_map};
ghost use Rattle.std.specs.List.{AllByRecursion};
ghost use Rattle.table_forms.specs.Lsda.{entries_named};
ghost use Rattle.table_forms.specs.Lsda as forms;
ghost use Rattle.table_forms.specs.Keys.{keys};
ghost use Rattle.lsda_read.specs.Names.{actions_named, types_named, lists_named};
ghost use Rattle.lsda_read.specs.WholeTable.{IsWhole, filters_at, indices_at};

use crate::chain::Chain;
use crate::keys::keys_of;
use crate::list::SpecList;
use crate::lsda::Lsda;
use std::alloc::{AllocError, Global};

/// The actions that the sites of a table name, and the types and lists that these reach, each once
/// and in rising order.
#[derive(Drop)]
pub struct Numbers {
    pub actions: Vec<u64>,
    pub types: Vec<u64>,
    pub lists: Vec<u64>,
}

impl Lsda<'_> {
    /// What this table names.
    #[tactic(auto, using(crate::proofs::Whole::keys_in, crate::proofs::Whole::lists_reached, crate::proofs::Whole::types_reached))]
    pub fn numbers(&self, alloc: Global) -> Result<Numbers, AllocError>
        requires { IsWhole self.now }
        ensures actions { IfOk result (λ n. n.actions.items ≡ keys (actions_named self.now)) }
        ensures types { IfOk result (λ n. n.types.items ≡ keys (types_named self.now)) }
        ensures lists { IfOk result (λ n. n.lists.items ≡ keys (lists_named self.now)) }
    {
        let named = actions_of(alloc, self)?;
        let actions = keys_of(alloc, named.as_slice())?;
        let filters = filters_of(alloc, self, actions.as_slice())?;
        let reached = lists_of(alloc, filters.as_slice())?;
        let lists = keys_of(alloc, reached.as_slice())?;
        let mut entries = entries_of(alloc, filters.as_slice())?;
        push_indices(&mut entries, self, lists.as_slice())?;
        let types = keys_of(alloc, entries.as_slice())?;
        Ok(Numbers {
            actions,
            types,
            lists,
        })
    }
}

// The actions that sites name.
fn actions_of(alloc: Global, table: &Lsda<'_>) -> Result<Vec<u64>, AllocError>
    ensures { IfOk result (λ actions. actions.items ≡ actions_named table.now) }
{
    let mut actions = Vec::new(alloc);
    let mut sites = table.sites();
    'sites: while let Some(site) = sites.next() {
        if site.action != 0 {
            actions.push(site.action)?;
        }
    }
    Ok(actions)
}

fn push_filters(filters: &mut Vec<i64>, mut chain: Chain<'_>) -> Result<(), AllocError>
    ensures { OnOk result (filters.new.items ≡ filters.old.items ++ chain.entry) }
{
    'chain: while let Some(filter) = chain.next() {
        filters.push(filter)?;
    }
    Ok(())
}

// The filters of actions that sites name.
fn filters_of(alloc: Global, table: &Lsda<'_>, actions: &[u64]) -> Result<Vec<i64>, AllocError>
    requires { AllByRecursion (Contains (actions_named table.now)) actions.now }
    ensures { IfOk result (λ filters. filters.items ≡ flat_map (filters_at table.now) actions.now) }
{
    let mut filters = Vec::new(alloc);
    let mut rest = actions;
    'actions: while let Some((action, others)) = rest.split_first() {
        push_filters(&mut filters, table.chain(*action))?;
        rest = others;
    }
    Ok(filters)
}

// The type entries that filters name.
fn entries_of(alloc: Global, filters: &[i64]) -> Result<Vec<u64>, AllocError>
    ensures { IfOk result (λ entries. entries.items ≡ flat_map entries_named filters.now) }
{
    let mut entries = Vec::new(alloc);
    let mut rest = filters;
    'filters: while let Some((filter, others)) = rest.split_first() {
        if *filter > 0 {
            entries.push(*filter as u64)?;
        }
        rest = others;
    }
    Ok(entries)
}

// The lists that filters name.
fn lists_of(alloc: Global, filters: &[i64]) -> Result<Vec<u64>, AllocError>
    ensures { IfOk result (λ lists. lists.items ≡ flat_map forms.lists_named filters.now) }
{
    let mut lists = Vec::new(alloc);
    let mut rest = filters;
    'filters: while let Some((filter, others)) = rest.split_first() {
        if *filter < 0 {
            lists.push(filter.unsigned_abs())?;
        }
        rest = others;
    }
    Ok(lists)
}

fn push_list(indices: &mut Vec<u64>, mut list: SpecList<'_>) -> Result<(), AllocError>
    ensures { OnOk result (indices.new.items ≡ indices.old.items ++ list.entry) }
{
    'list: while let Some(index) = list.next() {
        indices.push(index)?;
    }
    Ok(())
}

// Appends the type indices of lists that chains name.
fn push_indices(indices: &mut Vec<u64>, table: &Lsda<'_>, lists: &[u64]) -> Result<(), AllocError>
    requires { AllByRecursion (Contains (lists_named table.now)) lists.now }
    ensures { OnOk result (indices.new.items ≡ indices.old.items ++ flat_map (indices_at table.now) lists.now) }
{
    let mut rest = lists;
    'lists: while let Some((list, others)) = rest.split_first() {
        push_list(indices, table.spec_list(*list))?;
        rest = others;
    }
    Ok(())
}
