// Call sites: neighbours with the same pad and chain are one.
ghost use Rattle.std.specs.Prelude.{◌≡◌, ◌+◌, ◌++◌, ◌∷◌, List, map, IfOk, OnOk};
ghost use Rattle.meaning_forms.specs.Arithmetic.{int_equal};
ghost use Rattle.linear_forms.specs.Linear.{CodeSite as CodeSiteMeant};
ghost use Rattle.linear_forms.specs.Sites as rules;
ghost use Rattle.landing_pads.specs.Joined.{joined_behind};
ghost use Rattle.landing_pads.specs.View.{cover_of, placed_of, site_of};

use crate::NoMemory;
use crate::numbers::behind;
use crate::placed::{Cover, Placed};
use crate::unit::CodeSite;
use region_ir::held::{beside, put};
use std::alloc::Global;

// Whether two chains have the same filters in the same order.
fn same_chain(chain: &[i64], other: &[i64]) -> bool
    ensures { result ≡ rules.same_chain chain.now other.now }
{
    match (chain.split_first(), other.split_first()) {
        (None, None) => true,
        (Some((filter, filters)), Some((first, others))) => {
            filter == first && same_chain(filters, others)
        }
        _ => false,
    }
}

// Whether two sites have the same pad, or none.
fn same_pad(pad: Option<u32>, other: Option<u32>) -> bool
    ensures { result ≡ rules.same_pad pad other }
{
    match (pad, other) {
        (None, None) => true,
        (Some(place), Some(first)) => place == first,
        _ => false,
    }
}

// Whether a site ends where one operation begins, and says the same.
fn joins(site: &CodeSite, place: u32, pad: Option<u32>, chain: &[i64]) -> bool
    ensures { result ≡ rules.joins (site_of site.now) (record { start = place; end = place + 1; pad = pad; filters = chain.now }) }
{
    site.end == place && same_pad(site.pad, pad) && same_chain(site.filters.as_slice(), chain)
}

// The site of one operation, which the site before it becomes, if they say the same.
fn put_site(
    alloc: Global,
    place: u32,
    pad: Option<u32>,
    chain: &[i64],
    last: Option<CodeSite>,
    sites: &mut Vec<CodeSite>,
) -> Result<CodeSite, NoMemory>
    ensures { (others : List CodeSiteMeant) → IfOk result (λ s. map site_of sites.new.items ++ rules.joined_from (site_of s) others ≡ map site_of sites.old.items ++ joined_behind last (record { start = place; end = place + 1; pad = pad; filters = chain.now } ∷ others)) }
{
    let (last, end) = beside(last, behind(place, 1))?;
    if let Some(mut site) = last {
        if joins(&site, place, pad, chain) {
            site.end = end;
            return Ok(site);
        }
        put(site, sites)?;
    }
    let filters = Vec::from_slice(alloc, chain)?;
    Ok(CodeSite {
        start: place,
        end,
        pad,
        filters,
    })
}

// The site of one operation in a cover, which the site before it becomes, if they say the same; gives the last site.
fn put_covered(
    alloc: Global,
    place: u32,
    cover: &Cover,
    last: Option<CodeSite>,
    sites: &mut Vec<CodeSite>,
) -> Result<Option<CodeSite>, NoMemory>
    ensures { (others : List CodeSiteMeant) → IfOk result (λ s. map site_of sites.new.items ++ joined_behind s others ≡ map site_of sites.old.items ++ joined_behind last (rules.site_at place (cover_of cover.now) ++ others)) }
{
    match cover {
        Cover::Bare => Ok(last),
        Cover::Unpadded => {
            let site = put_site(alloc, place, None, &[], last, sites)?;
            Ok(Some(site))
        }
        Cover::Padded(pad, chain) => {
            let site = put_site(alloc, place, Some(*pad), chain.as_slice(), last, sites)?;
            Ok(Some(site))
        }
    }
}

// The sites of a function's code, behind others.
fn put_sites(alloc: Global, code: &[Placed], sites: &mut Vec<CodeSite>) -> Result<(), NoMemory>
    ensures { OnOk result (map site_of sites.new.items ≡ map site_of sites.old.items ++ rules.sites_of (map placed_of code.now)) }
{
    let mut last = None;
    for (place, placed) in code.iter().enumerate() {
        let (site, place) = beside(last, behind(0, place))?;
        last = put_covered(alloc, place, &placed.cover, site, sites)?;
    }
    if let Some(site) = last {
        put(site, sites)?;
    }
    Ok(())
}

/// The sites of a function's code.
pub fn sites_of(alloc: Global, code: &[Placed]) -> Result<Vec<CodeSite>, NoMemory>
    ensures { IfOk result (λ sites. map site_of sites.items ≡ rules.sites_of (map placed_of code.now)) }
{
    let mut sites = Vec::new(alloc);
    put_sites(alloc, code, &mut sites)?;
    Ok(sites)
}
