// Tables that were read for one function, and may be named by others.
ghost use Rattle.std.specs.Prelude.{◌≡◌, IfSome, IfOk, OnOk, IsOkAnd, Ok, length};
ghost use Rattle.std.specs.Ordering.{nat_cmp};
ghost use Rattle.std.specs.BTreeMap.{get};
ghost use Rattle.eh_bytes.specs.Memory.{memory_of};
ghost use Rattle.table_forms.specs.Lsda.{Table, lsda};
ghost use Rattle.lsda_read.specs.Demands.{AreDemands};
ghost use Rattle.table_check.specs.Known.{AreKnown};

use eh_bytes::Segments;
use frame_read::Fde;
use lsda_read::Demands;
use std::alloc::{AllocError, Global};
use std::collections::BTreeMap;

/// How many sites a table has. What it asks of the region of a function is noted once a second
/// function names it: most tables are named by one.
#[derive(Drop)]
pub struct KnownTable {
    pub sites: usize,
    pub demands: Option<Demands>,
}

/// How many sites the table of a function has, where it is known and the function's region suits it.
pub fn known_sites(known: &BTreeMap<u64, KnownTable>, memory: &Segments, fde: &Fde) -> Option<usize>
    requires { AreKnown (memory_of memory.now) (get nat_cmp known.now) }
    ensures { IfSome result (λ n. IsOkAnd (lsda (memory_of memory.now) fde.now.lsda fde.now.region) (λ t. length t.sites ≡ n)) }
{
    let table = known.get(&fde.lsda)?;
    match &table.demands {
        None => None,
        Some(demands) => {
            if demands.suits(memory, fde.region) {
                Some(table.sites)
            } else {
                None
            }
        }
    }
}

// What the table of a function asks, where it was read before.
fn demands_again(
    alloc: Global,
    known: &BTreeMap<u64, KnownTable>,
    memory: &Segments,
    fde: &Fde,
) -> Result<Option<Demands>, AllocError>
    ensures { IfOk result (λ found. IfSome found (λ d. (t : Table) → lsda (memory_of memory.now) fde.now.lsda fde.now.region ≡ Ok t → AreDemands (memory_of memory.now) fde.now.lsda (length t.sites) d)) }
{
    if !known.contains_key(&fde.lsda) {
        return Ok(None);
    }
    Ok(Some(Demands::of(alloc, memory, fde.lsda, fde.region)?))
}

/// Keeps the table of a function, which has so many sites.
pub fn keep_table(
    alloc: Global,
    known: &mut BTreeMap<u64, KnownTable>,
    memory: &Segments,
    fde: &Fde,
    sites: usize,
) -> Result<(), AllocError>
    requires known { AreKnown (memory_of memory.now) (get nat_cmp known.now) }
    requires read { IsOkAnd (lsda (memory_of memory.now) fde.now.lsda fde.now.region) (λ t. length t.sites ≡ sites) }
    ensures { OnOk result (AreKnown (memory_of memory.now) (get nat_cmp known.new)) }
{
    let demands = demands_again(alloc, known, memory, fde)?;
    known.insert(fde.lsda, KnownTable { sites, demands })?;
    Ok(())
}
