// What a filter names.
ghost use Rattle.std.specs.Prelude.{◌≡◌, ◌+◌, ◌<◌, ◌^◌, option_map};
ghost use Rattle.eh_bytes.specs.Memory.{part_of, memory_of};
ghost use Rattle.table_forms.specs.LsdaTypes.{filter_faults, list_at, list_faults};
ghost use Rattle.table_forms.specs.Fault.{least};
ghost use Rattle.table_forms.specs.Seen.{fault_of};
ghost use Rattle.lsda_read.specs.Heads.{head_seen, types_of};
ghost use Rattle.lsda_read.specs.Filters.{filter_of, IsInRange};

use crate::entry::entry_refusal;
use crate::head::{Head, Types};
use crate::list::list_refusal;
use eh_bytes::{Segment, Segments};
use table_forms::{Reason, Refusal, refused};

/// Nothing, an entry of the types, or the list that begins so many bytes behind their base.
#[derive(Clone, Copy, Drop)]
pub enum Named {
    Cleanup,
    Entry(u64),
    List(u64),
}

/// What a filter names.
pub fn named_by(filter: i64) -> Named
    ensures same { filter_of result ≡ filter }
    ensures in_range { IsInRange result }
{
    if filter < 0 {
        return Named::List((-1 - filter) as u64);
    }
    let index = filter as u64;
    if index == 0 {
        Named::Cleanup
    } else {
        Named::Entry(index)
    }
}

// What is refused of the list that begins so many bytes behind the base.
fn list_named(
    memory: &Segments,
    segment: &Segment,
    head: &Head,
    types: &Types,
    named_at: u128,
    behind: u64,
) -> Option<Refusal>
    requires { named_at < 2 ^ 66 }
    ensures { option_map fault_of result ≡ least (list_faults (memory_of memory.now) (part_of segment.now) (head_seen head.now) (types_of types.now) named_at (list_at (part_of segment.now) (types_of types.now) behind)) }
{
    let first = types.base + behind as u128;
    if first > segment.bytes.len() as u128 {
        return Some(refused(Reason::SpecificationOpen, segment.file_at as u128 + first));
    }
    list_refusal(memory, segment, head, types, named_at, first as usize)
}

// What is refused of what a filter names.
#[tactic(auto, unfolding(table_forms::specs::Fault::least))]
fn named_refusal(
    memory: &Segments,
    segment: &Segment,
    head: &Head,
    named_at: u128,
    named: Named,
) -> Option<Refusal>
    requires near { named_at < 2 ^ 66 }
    requires in_range { IsInRange named }
    ensures { option_map fault_of result ≡ least (filter_faults (memory_of memory.now) (part_of segment.now) (head_seen head.now) (head_seen head.now).types named_at (filter_of named)) }
{
    match named {
        Named::Cleanup => None,
        Named::Entry(i) => match head.types {
            None => Some(refused(Reason::NoTypes, segment.file_at as u128 + named_at)),
            Some(types) => entry_refusal(memory, segment, head, &types, named_at, i),
        },
        Named::List(n) => match head.types {
            None => Some(refused(Reason::NoTypes, segment.file_at as u128 + named_at)),
            Some(types) => list_named(memory, segment, head, &types, named_at, n),
        },
    }
}

/// What is refused of a filter, which the record at this place has.
pub fn filter_refusal(
    memory: &Segments,
    segment: &Segment,
    head: &Head,
    named_at: u128,
    filter: i64,
) -> Option<Refusal>
    requires { named_at < 2 ^ 66 }
    ensures { option_map fault_of result ≡ least (filter_faults (memory_of memory.now) (part_of segment.now) (head_seen head.now) (head_seen head.now).types named_at filter) }
{
    named_refusal(memory, segment, head, named_at, named_by(filter))
}
