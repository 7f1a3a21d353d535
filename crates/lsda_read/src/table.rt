// What is refused behind the head.
ghost use Rattle.std.specs.Prelude.{◌≡◌, ◌+◌, ◌≤◌, ◌==◌, ◌||◌, if◌then◌else◌, length, option_map, vec_len, None};
ghost use Rattle.eh_bytes.specs.Memory.{part_of, memory_of, is_code};
ghost use Rattle.table_forms.specs.LsdaSites.{site_of, site_faults};
ghost use Rattle.table_forms.specs.Lsda.{action_faults, table_faults};
ghost use Rattle.table_forms.specs.Fault.{least};
ghost use Rattle.table_forms.specs.Seen.{fault_of};
ghost use Rattle.lsda_read.specs.Heads.{head_seen};
ghost use Rattle.lsda_read.specs.Sites.{record_of};
ghost use Rattle.lsda_read.specs.SiteRests.{site_rest};

use crate::chain::chain_refusal;
use crate::head::Head;
use crate::site::{SiteRecord, record_of};
use crate::sites::site_bytes;
use eh_bytes::{Region64, Segment, Segments};
use table_forms::{Reason, Refusal, joined, unless};

// The address of a pad, or 0.
fn pad_of(head: &Head, pad: u64) -> u128
    ensures { result ≡ (if pad == 0 then 0 else head.now.pads_from + pad) }
{
    if pad == 0 {
        0
    } else {
        head.pads_from as u128 + pad as u128
    }
}

// Whether a pad is none or code.
fn is_pad(memory: &Segments, pad: u128) -> bool
    ensures { result ≡ (pad == 0 || is_code (memory_of memory.now) pad) }
{
    pad == 0 || memory.is_code(pad)
}

/// What is refused of a record behind a site with this end.
pub fn site_refusal(
    memory: &Segments,
    file_at: u64,
    head: &Head,
    region: Region64,
    before: u128,
    row: &SiteRecord,
) -> Option<Refusal>
    ensures { option_map fault_of result ≡ least (site_faults (memory_of memory.now) (file_at + row.now.at) region before (site_of (head_seen head.now) region (record_of row.now))) }
{
    let place = file_at as u128 + row.at as u128;
    let start = region.start as u128 + row.start as u128;
    let end = start + row.length as u128;
    let order = unless(before <= start, Reason::SiteOrder, place);
    let inside = unless(
        end <= region.start as u128 + region.length as u128,
        Reason::SiteOutside,
        place,
    );
    let pad = unless(
        is_pad(memory, pad_of(head, row.pad)),
        Reason::PadOutside,
        place,
    );
    joined(joined(order, inside), pad)
}

// What is refused in the chain of a record, where its action is not the one that was judged last.
#[tactic(auto, unfolding(table_forms::specs::Fault::least))]
fn action_refusal(
    memory: &Segments,
    segment: &Segment,
    head: &Head,
    row: &SiteRecord,
    judged: u64,
) -> Option<Refusal>
    ensures { option_map fault_of result ≡ (if row.now.action == judged then None else least (action_faults (memory_of memory.now) (part_of segment.now) (head_seen head.now) (record_of row.now))) }
{
    if row.action == judged || row.action == 0 {
        return None;
    }
    chain_refusal(memory, segment, head, row.at, row.action)
}

// What is refused at the records of bytes that end with the call-site table, and in their chains.
fn records_refusal(
    memory: &Segments,
    segment: &Segment,
    head: &Head,
    region: Region64,
    bytes: &[u8],
) -> Option<Refusal>
    requires start { head.now.sites_at ≤ length bytes.now }
    requires short { length bytes.now ≤ vec_len segment.now.bytes }
    ensures { option_map fault_of result ≡ site_rest (memory_of memory.now) (part_of segment.now) region (head_seen head.now) bytes.now 0 (1 + vec_len segment.now.bytes) head.now.sites_at }
{
    let mut least = None;
    let mut before: u128 = 0;
    let mut place = head.sites_at;
    // Neighbours of one action are judged once.
    let mut judged = 0;
    'records: while (place as u128) < head.actions_at {
        match record_of(bytes, segment.file_at, head, place) {
            Err(e) => return joined(least, Some(e)),
            Ok((row, next)) => {
                let here = site_refusal(memory, segment.file_at, head, region, before, &row);
                let chain = action_refusal(memory, segment, head, &row, judged);
                least = joined(least, joined(here, chain));
                before = region.start as u128 + row.start as u128 + row.length as u128;
                judged = row.action;
                place = next;
            }
        }
    }
    least
}

/// What is refused behind the head.
#[tactic(auto, unfolding(table_forms::specs::Lsda::table_faults))]
pub fn table_refusal(
    memory: &Segments,
    segment: &Segment,
    head: &Head,
    region: Region64,
) -> Option<Refusal>
    requires { head.now.sites_at ≤ vec_len segment.now.bytes }
    ensures { option_map fault_of result ≡ least (table_faults (memory_of memory.now) (part_of segment.now) region (head_seen head.now)) }
{
    records_refusal(memory, segment, head, region, site_bytes(segment, head))
}
