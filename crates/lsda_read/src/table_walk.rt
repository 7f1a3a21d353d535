// What is refused behind the head, with what was judged kept.
ghost use Rattle.std.specs.Prelude.{◌≡◌, ◌+◌, ◌≤◌, IfOk, OnOk, length, option_map, vec_len};
ghost use Rattle.eh_bytes.specs.Memory.{part_of, memory_of};
ghost use Rattle.table_forms.specs.LsdaSites.{site_of, site_faults};
ghost use Rattle.table_forms.specs.Lsda.{action_faults, table_faults};
ghost use Rattle.table_forms.specs.Fault.{joined, least};
ghost use Rattle.table_forms.specs.Seen.{fault_of};
ghost use Rattle.lsda_read.specs.Holds.{ChainsHold, ListsHold};
ghost use Rattle.lsda_read.specs.Heads.{head_seen};
ghost use Rattle.lsda_read.specs.Sites.{record_of};
ghost use Rattle.lsda_read.specs.SiteRests.{site_rest};

use crate::chain_walk::judge_chain;
use crate::head::Head;
use crate::known::Known;
use crate::site::{SiteRecord, record_of};
use crate::sites::site_bytes;
use crate::table::site_refusal;
use eh_bytes::{Region64, Segment, Segments};
use std::alloc::{AllocError, Global};
use table_forms::{Refusal, joined};

// Judges the chain of a record.
#[tactic(auto, unfolding(table_forms::specs::Fault::least))]
fn judge_action(
    known: &mut Known,
    alloc: Global,
    memory: &Segments,
    segment: &Segment,
    head: &Head,
    row: &SiteRecord,
) -> Result<(), AllocError>
    requires chains { ChainsHold (memory_of memory.now) (part_of segment.now) (head_seen head.now) known.now }
    requires lists { ListsHold (memory_of memory.now) (part_of segment.now) (head_seen head.now) known.now }
    ensures stands { OnOk result (option_map fault_of known.new.least ≡ joined (option_map fault_of known.old.least) (least (action_faults (memory_of memory.now) (part_of segment.now) (head_seen head.now) (record_of row.now)))) }
    ensures chains { OnOk result (ChainsHold (memory_of memory.now) (part_of segment.now) (head_seen head.now) known.new) }
    ensures lists { OnOk result (ListsHold (memory_of memory.now) (part_of segment.now) (head_seen head.now) known.new) }
{
    if row.action == 0 {
        return Ok(());
    }
    judge_chain(known, alloc, memory, segment, head, row.at, row.action)
}

// Judges a record behind a site with this end, and its chain.
fn judge_site(
    known: &mut Known,
    alloc: Global,
    memory: &Segments,
    segment: &Segment,
    head: &Head,
    region: Region64,
    before: u128,
    row: &SiteRecord,
) -> Result<(), AllocError>
    requires chains { ChainsHold (memory_of memory.now) (part_of segment.now) (head_seen head.now) known.now }
    requires lists { ListsHold (memory_of memory.now) (part_of segment.now) (head_seen head.now) known.now }
    ensures stands { OnOk result (option_map fault_of known.new.least ≡ joined (option_map fault_of known.old.least) (joined (least (site_faults (memory_of memory.now) (segment.now.file_at + row.now.at) region before (site_of (head_seen head.now) region (record_of row.now)))) (least (action_faults (memory_of memory.now) (part_of segment.now) (head_seen head.now) (record_of row.now))))) }
    ensures chains { OnOk result (ChainsHold (memory_of memory.now) (part_of segment.now) (head_seen head.now) known.new) }
    ensures lists { OnOk result (ListsHold (memory_of memory.now) (part_of segment.now) (head_seen head.now) known.new) }
{
    let here = site_refusal(memory, segment.file_at, head, region, before, row);
    known.least = joined(known.least, here);
    judge_action(known, alloc, memory, segment, head, row)
}

// What is refused at the records of bytes that end with the call-site table, and in their chains.
fn records_judged(
    alloc: Global,
    memory: &Segments,
    segment: &Segment,
    head: &Head,
    region: Region64,
    bytes: &[u8],
) -> Result<Option<Refusal>, AllocError>
    requires start { head.now.sites_at ≤ length bytes.now }
    requires short { length bytes.now ≤ vec_len segment.now.bytes }
    ensures { IfOk result (λ found. option_map fault_of found ≡ site_rest (memory_of memory.now) (part_of segment.now) region (head_seen head.now) bytes.now 0 (1 + vec_len segment.now.bytes) head.now.sites_at) }
{
    let mut known = Known::new(alloc);
    let mut before: u128 = 0;
    let mut place = head.sites_at;
    'records: while (place as u128) < head.actions_at {
        match record_of(bytes, segment.file_at, head, place) {
            Err(e) => return Ok(joined(known.least, Some(e))),
            Ok((row, next)) => {
                judge_site(
                    &mut known, alloc, memory, segment, head, region, before, &row,
                )?;
                before = region.start as u128 + row.start as u128 + row.length as u128;
                place = next;
            }
        }
    }
    Ok(known.least)
}

/// What is refused behind the head.
#[tactic(auto, unfolding(table_forms::specs::Lsda::table_faults))]
pub fn table_judged(
    alloc: Global,
    memory: &Segments,
    segment: &Segment,
    head: &Head,
    region: Region64,
) -> Result<Option<Refusal>, AllocError>
    requires { head.now.sites_at ≤ vec_len segment.now.bytes }
    ensures { IfOk result (λ found. option_map fault_of found ≡ least (table_faults (memory_of memory.now) (part_of segment.now) region (head_seen head.now))) }
{
    records_judged(
        alloc,
        memory,
        segment,
        head,
        region,
        site_bytes(segment, head),
    )
}
