// The exception tables of an image, one after the other.
ghost use Rattle.std.specs.Prelude.{◌≡◌, ◌+◌, ◌<◌, ◌≤◌, ◌^◌, IfOk, OnOk, IfSome, length};
ghost use Rattle.std.specs.Ordering.{nat_cmp};
ghost use Rattle.std.specs.BTreeMap.{get};
ghost use Rattle.std.specs.List.{AllByRecursion};
ghost use Rattle.eh_bytes.specs.Memory.{memory_of};
ghost use Rattle.elf_image.specs.Clean.{table_named};
ghost use Rattle.elf_image.specs.Loads.{IsSmall};
ghost use Rattle.table_check.specs.Known.{AreKnown};
ghost use Rattle.table_check.specs.Tally.{IsFit, ReadsCount, ReadsTally, tallied};

use crate::known::{KnownTable, keep_table, known_sites};
use crate::refusal::of_table;
use eh_bytes::Segments;
use elf_image::ImageError;
use frame_read::Fde;
use lsda_read::Lsda;
use std::alloc::Global;
use std::collections::BTreeMap;

// How many sites the table of a function has, if it names one. A table is read twice at most, however many
// functions name it.
fn sites_of(
    alloc: Global,
    known: &mut BTreeMap<u64, KnownTable>,
    memory: &Segments,
    fde: &Fde,
) -> Result<Option<usize>, ImageError>
    requires fits { IsFit fde.now }
    requires small { AllByRecursion IsSmall (memory_of memory.now) }
    requires known { AreKnown (memory_of memory.now) (get nat_cmp known.now) }
    ensures counts { ReadsCount result (table_named (memory_of memory.now) fde.now.lsda fde.now.region) }
    ensures few { IfOk result (λ n. IfSome n (λ count. count ≤ 2 ^ 30 + 1)) }
    ensures known { OnOk result (AreKnown (memory_of memory.now) (get nat_cmp known.new)) }
{
    if fde.lsda == 0 {
        return Ok(None);
    }
    if let Some(sites) = known_sites(known, memory, fde) {
        return Ok(Some(sites));
    }
    match Lsda::judged_at(alloc, memory, fde.lsda, fde.region)? {
        Err(e) => Err(of_table(e)),
        Ok(table) => {
            let sites = table.sites().count();
            keep_table(alloc, known, memory, fde, sites)?;
            Ok(Some(sites))
        }
    }
}

/// How many tables there are, and how many sites in all.
#[derive(Clone, Copy, Drop)]
pub struct Tally {
    pub tables: u64,
    pub sites: u64,
}

/// Counts the tables of functions and their sites, or gives the first table's refusal, or memory ran
/// out.
pub fn count_tables(alloc: Global, memory: &Segments, fdes: &[Fde]) -> Result<Tally, ImageError>
    requires fits { AllByRecursion IsFit fdes.now }
    requires few { length fdes.now ≤ 2 ^ 30 }
    requires small { AllByRecursion IsSmall (memory_of memory.now) }
    ensures { ReadsTally result (tallied (memory_of memory.now) 0 0 fdes.now) }
{
    let mut known = BTreeMap::new(alloc);
    let mut tables = 0u64;
    let mut sites = 0u64;
    let mut rest = fdes;
    'fdes: while let Some((fde, others)) = rest.split_first() {
        match sites_of(alloc, &mut known, memory, fde) {
            Err(e) => return Err(e),
            Ok(None) => {}
            Ok(Some(count)) => {
                tables += 1;
                sites += count as u64;
            }
        }
        rest = others;
    }
    Ok(Tally { tables, sites })
}
