// The exception table of a function: its sites in bytes, and the chains that they name.
ghost use Rattle.std.specs.Prelude.{◌≡◌, ℕ, IfOk, OnOk, Some, length, map};
ghost use Rattle.eh_bytes.specs.Listed.{listed_table};
ghost use Rattle.landing_pads.specs.View.{code_of, site_of};
ghost use Rattle.linear_forms.specs.Sites.{same_chain};
ghost use Rattle.machine_forms.specs.Emitted.{function_routine};
ghost use Rattle.machine_forms.specs.Routine as rules;
ghost use Rattle.rv64_emit.specs.Starts.{HasStarts};

use crate::NoMemory;
use crate::numbers::behind;
use crate::starts::Starts;
use eh_bytes::{ListSite, LsdaList};
use landing_pads::unit::{CodeSite, FuncCode};
use std::alloc::Global;

// Whether two chains have the same filters in the same order.
fn is_same_chain(chain: &[i64], other: &[i64]) -> bool
    ensures { result ≡ same_chain chain.now other.now }
{
    chain == other
}

// The number of a chain among others; behind the last one it is not there.
fn chain_number(chain: &[i64], chains: &[Vec<i64>]) -> usize
    ensures { result ≡ rules.chain_number chain.now (map (λ c. c.items) chains.now) }
{
    for (number, other) in chains.iter().enumerate() {
        if is_same_chain(chain, other.as_slice()) {
            return number;
        }
    }
    chains.len()
}

// Whether a chain is among others.
fn has_chain(chain: &[i64], chains: &[Vec<i64>]) -> bool
    ensures { result ≡ rules.has_chain chain.now (map (λ c. c.items) chains.now) }
{
    for other in chains {
        if is_same_chain(chain, other.as_slice()) {
            return true;
        }
    }
    false
}

// The chains of sites behind others, each that is neither empty nor there already.
fn chains_of(alloc: Global, sites: &[CodeSite]) -> Result<Vec<Vec<i64>>, NoMemory>
    ensures { IfOk result (λ chains. map (λ c. c.items) chains.items ≡ rules.chains_of (map site_of sites.now)) }
{
    let mut chains = Vec::new(alloc);
    for site in sites {
        let filters = site.filters.as_slice();
        if !(filters.is_empty() || has_chain(filters, chains.as_slice())) {
            chains.push(Vec::from_slice(alloc, filters)?)?;
        }
    }
    Ok(chains)
}

// The chain of a site; one without filters is a cleanup, or has no pad.
fn chain_for(filters: &[i64], chains: &[Vec<i64>]) -> Result<Option<u32>, NoMemory>
    ensures { IfOk result (λ chain. chain ≡ rules.chain_for (map (λ c. c.items) chains.now) filters.now) }
{
    if filters.is_empty() {
        Ok(None)
    } else {
        Ok(Some(behind(0, chain_number(filters, chains))?))
    }
}

// A site in bytes.
fn listed_site(starts: &Starts, site: &CodeSite, chains: &[Vec<i64>]) -> Result<ListSite, NoMemory>
    ensures { (r : rules.Routine) → HasStarts starts.now r → map (λ c. c.items) chains.now ≡ rules.chains_of r.sites → IfOk result (λ s. s ≡ rules.listed_site r (site_of site.now)) }
{
    let start = starts.byte(site.start);
    Ok(ListSite {
        start,
        length: starts.byte(site.end).saturating_sub(start),
        pad: site.pad.map_or(0, |place| starts.byte(place)),
        chain: chain_for(site.filters.as_slice(), chains)?,
    })
}

// Sites in bytes.
fn listed_sites(
    alloc: Global,
    starts: &Starts,
    sites: &[CodeSite],
    chains: &[Vec<i64>],
) -> Result<Vec<ListSite>, NoMemory>
    ensures { (r : rules.Routine) → HasStarts starts.now r → map (λ c. c.items) chains.now ≡ rules.chains_of r.sites → IfOk result (λ listed. listed.items ≡ map (rules.listed_site r) (map site_of sites.now)) }
{
    let mut listed = Vec::new(alloc);
    for site in sites {
        listed.push(listed_site(starts, site, chains)?)?;
    }
    Ok(listed)
}

// The types of a table, as its writer takes them.
fn types_of(alloc: Global, types: &[u32]) -> Result<Vec<u64>, NoMemory>
    ensures { IfOk result (λ copied. copied.items ≡ types.now) }
{
    let mut copied = Vec::new(alloc);
    for ty in types {
        copied.push(u64::from(*ty))?;
    }
    Ok(copied)
}

// The lists of a table.
fn lists_of(alloc: Global, lists: &[Vec<u64>]) -> Result<Vec<Vec<u64>>, NoMemory>
    ensures { IfOk result (λ copied. map (λ l. l.items) copied.items ≡ map (λ l. l.items) lists.now) }
{
    let mut copied = Vec::new(alloc);
    for list in lists {
        copied.push(Vec::from_slice(alloc, list.as_slice())?)?;
    }
    Ok(copied)
}

/// The exception table of a function.
pub fn table_of(alloc: Global, function: &FuncCode, starts: &Starts) -> Result<LsdaList, NoMemory>
    requires { HasStarts starts.now (function_routine (code_of function.now)) }
    ensures { IfOk result (λ t. listed_table t ≡ rules.routine_table (function_routine (code_of function.now))) }
{
    let sites = function.sites.as_slice();
    let chains = chains_of(alloc, sites)?;
    Ok(LsdaList {
        sites: listed_sites(alloc, starts, sites, chains.as_slice())?,
        chains,
        types: types_of(alloc, function.types.as_slice())?,
        lists: lists_of(alloc, function.lists.as_slice())?,
    })
}
