// The lines of a call site and of the filters of its action.
ghost use Rattle.std.specs.Prelude.{◌≡◌, ◌++◌, OnOk, Contains, [], Some, flat_map};
ghost use Rattle.lsda_read.specs.Names.{actions_named};
ghost use Rattle.table_forms.specs.Keys.{value_at};
ghost use Rattle.table_forms.specs.Verdict.{site_at};
ghost use Rattle.table_dump.specs.Tables.{site_line};
ghost use Rattle.personality.specs.Seen.{thrown_of};
ghost use Rattle.personality.specs.Named.{SiteIsNamed};
ghost use Rattle.place_verdicts.specs.Filters.{filter_line, filters_text, site_text, sites_text};

use crate::filter::put_filter;
use lsda_read::Lsda;
use personality::Thrown;
use std::alloc::{AllocError, Global};
use table_dump::text::put_text;
use table_forms::Site;

// The filters of an action that a site names.
#[tactic(auto, using(personality::proofs::NamedBy::filters_named))]
fn put_chain(
    alloc: Global,
    out: &mut Vec<u8>,
    table: &Lsda<'_>,
    thrown: &Thrown,
    action: u64,
) -> Result<(), AllocError>
    requires { Contains (actions_named table.now) action }
    ensures { OnOk result (out.new.items ≡ out.old.items ++ flat_map (filter_line table.now (thrown_of thrown.now)) (value_at [] table.now.actions action)) }
{
    let mut chain = table.chain(action);
    'filters: while let Some(filter) = chain.next() {
        put_filter(alloc, out, table, thrown, filter)?;
    }
    Ok(())
}

// The filters of a site.
fn put_filters(
    alloc: Global,
    out: &mut Vec<u8>,
    table: &Lsda<'_>,
    thrown: &Thrown,
    site: Site,
) -> Result<(), AllocError>
    requires { SiteIsNamed table.now (Some site) }
    ensures { OnOk result (out.new.items ≡ out.old.items ++ filters_text table.now (thrown_of thrown.now) site) }
{
    if site.pad == 0 {
        return Ok(());
    }
    if site.action == 0 {
        return put_filter(alloc, out, table, thrown, 0);
    }
    put_chain(alloc, out, table, thrown, site.action)
}

// The line of a site.
fn put_site_line(alloc: Global, out: &mut Vec<u8>, site: Site) -> Result<(), AllocError>
    ensures { OnOk result (out.new.items ≡ out.old.items ++ site_line site) }
{
    let start = site.start;
    let end = site.end;
    let pad = site.pad;
    let action = site.action;
    let line = format!(in alloc; "  site 0x{start:x} 0x{end:x} pad 0x{pad:x} action {action}\n")?;
    put_text(out, line.as_str())
}

// The lines of a site, if there is one.
fn put_site(
    alloc: Global,
    out: &mut Vec<u8>,
    table: &Lsda<'_>,
    thrown: &Thrown,
    site: Option<Site>,
) -> Result<(), AllocError>
    requires { SiteIsNamed table.now site }
    ensures { OnOk result (out.new.items ≡ out.old.items ++ site_text table.now (thrown_of thrown.now) site) }
{
    match site {
        None => put_text(out, "  no site\n"),
        Some(site) => {
            put_site_line(alloc, out, site)?;
            put_filters(alloc, out, table, thrown, site)
        }
    }
}

// The first site that holds a place.
fn site_at(table: &Lsda<'_>, place: u64) -> Option<Site>
    ensures { result ≡ site_at table.now place }
{
    let mut sites = table.sites();
    'sites: while let Some(site) = sites.next() {
        if site.start <= place && place < site.end {
            return Some(site);
        }
    }
    None
}

/// The site of a place in a table, if there is one, and the filters of its action.
#[tactic(auto, using(personality::proofs::NamedBy::site_named))]
pub fn put_sites(
    alloc: Global,
    out: &mut Vec<u8>,
    table: &Option<Lsda<'_>>,
    thrown: &Thrown,
    place: u64,
) -> Result<(), AllocError>
    ensures { OnOk result (out.new.items ≡ out.old.items ++ sites_text table.now (thrown_of thrown.now) place) }
{
    match table {
        None => put_text(out, "  no table\n"),
        Some(table) => put_site(alloc, out, table, thrown, site_at(table, place)),
    }
}
