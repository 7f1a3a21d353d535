// The call-site table.
ghost use Rattle.std.specs.Prelude.{◌≡◌, ◌++◌, flat_map, OnOk, IfOk};
ghost use Rattle.std.specs.List.{AllByRecursion};
ghost use Rattle.eh_write.specs.Fits.{HasWords};
ghost use Rattle.eh_write.specs.Written.{action_of, site_bytes};

use crate::NoMemory;
use eh_bytes::{ListSite, put_uleb};
use std::alloc::Global;

// The action of a site's chain, or 0.
fn action_of(actions: &[u64], chain: Option<u32>) -> u64
    ensures { result ≡ action_of actions.now chain }
{
    match chain {
        None => 0,
        Some(c) => match actions.get(c as usize) {
            None => 0,
            Some(action) => *action,
        },
    }
}

fn put_site(out: &mut Vec<u8>, site: &ListSite, actions: &[u64]) -> Result<(), NoMemory>
    ensures bytes { OnOk result (out.new.items ≡ out.old.items ++ site_bytes actions.now site.now) }
    ensures words { OnOk result (HasWords site.now) }
{
    put_uleb(out, site.start)?;
    put_uleb(out, site.length)?;
    put_uleb(out, site.pad)?;
    put_uleb(out, action_of(actions, site.chain))
}

/// The call-site table, where each chain has an action.
pub fn site_table(alloc: Global, sites: &[ListSite], actions: &[u64]) -> Result<Vec<u8>, NoMemory>
    ensures bytes { IfOk result (λ bytes. bytes.items ≡ flat_map (site_bytes actions.now) sites.now) }
    ensures words { OnOk result (AllByRecursion HasWords sites.now) }
{
    let mut bytes = Vec::new(alloc);
    let mut rest = sites;
    'sites: while let Some((site, others)) = rest.split_first() {
        put_site(&mut bytes, site, actions)?;
        rest = others;
    }
    Ok(bytes)
}
