// Lists, each walked up to an index that was met before.
ghost use Rattle.std.specs.Prelude.{◌≡◌, ◌+◌, ◌≤◌, ◌<◌, ◌^◌, ℕ, [], Some, IfOk, OnOk, IfSome, false, length, option_map, vec_len};
ghost use Rattle.std.specs.Ordering.{nat_cmp};
ghost use Rattle.std.specs.BTreeMap.{get};
ghost use Rattle.eh_bytes.specs.Memory.{Memory, part_of, memory_of};
ghost use Rattle.table_forms.specs.Fault.{joined, least};
ghost use Rattle.table_forms.specs.LsdaTypes.{filter_faults};
ghost use Rattle.table_forms.specs.LsdaHead as forms;
ghost use Rattle.table_forms.specs.Seen.{fault_of};
ghost use Rattle.lsda_read.specs.Holds.{ListsHold};
ghost use Rattle.lsda_read.specs.Heads.{head_seen, types_of};
ghost use Rattle.lsda_read.specs.KnownLists.{IsEntryJudged, IsListTurn, IsListWalked, IsListOf, rest_of_list, list_end, and_outside, with_indices};

use crate::entry::entry_refusal;
use crate::filter::{Named, filter_refusal, named_by};
use crate::head::{Head, Types};
use crate::known::{Known, ListEnd};
use eh_bytes::{ByteError, RawCursor, Segment, Segments};
use std::alloc::{AllocError, Global};
use std::collections::BTreeMap;
use table_forms::{Reason, Refusal, joined, refused};

/// An index and the place of the next one, or how the list ends.
#[derive(Clone, Copy, Drop)]
pub enum ListTurn {
    On(u64, usize),
    Over(ListEnd),
}

/// An index on the way: where it stands, and whether its entry lies outside of the types.
#[derive(Clone, Copy, Drop)]
pub struct Met {
    pub place: usize,
    pub outside: bool,
}

// The end of a list without a further index.
fn ended(cut: bool) -> ListEnd
    ensures outside { result.outside ≡ false }
    ensures cut { result.cut ≡ cut }
{
    ListEnd {
        outside: false,
        cut,
    }
}

// Reads the index at a place, and judges where it can't be read.
fn judge_index(known: &mut Known, segment: &Segment, place: usize) -> ListTurn
    requires { place ≤ vec_len segment.now.bytes }
    ensures turn { (m : Memory) (h : forms.Head) (t : forms.Types) → IsListTurn m (part_of segment.now) h t (option_map fault_of known.old.least) (option_map fault_of known.new.least) place result }
    ensures chains { known.new.chains ≡ known.old.chains }
    ensures lists { known.new.lists ≡ known.old.lists }
{
    let mut cursor = RawCursor::new(segment.bytes.as_slice(), place);
    match cursor.take_uleb() {
        Ok(index) => {
            if index == 0 {
                ListTurn::Over(ended(false))
            } else {
                ListTurn::On(index, cursor.position())
            }
        }
        Err(ByteError::LebRange) => {
            let ranged = refused(Reason::LebRange, segment.file_at as u128 + place as u128);
            known.least = joined(known.least, Some(ranged));
            ListTurn::Over(ended(false))
        }
        Err(ByteError::Truncated) => ListTurn::Over(ended(true)),
        Err(ByteError::Encoding) => ListTurn::Over(ended(true)),
    }
}

// Judges entry i, which the record at this place names, and says whether it lies outside of the types.
fn judge_entry(
    known: &mut Known,
    memory: &Segments,
    segment: &Segment,
    head: &Head,
    types: &Types,
    named_at: u128,
    i: u64,
) -> bool
    requires { named_at < 2 ^ 66 }
    ensures entry { IsEntryJudged (memory_of memory.now) (part_of segment.now) (head_seen head.now) (types_of types.now) (option_map fault_of known.old.least) (option_map fault_of known.new.least) named_at i result }
    ensures chains { known.new.chains ≡ known.old.chains }
    ensures lists { known.new.lists ≡ known.old.lists }
{
    let refusal = entry_refusal(memory, segment, head, types, named_at, i);
    known.least = joined(known.least, refusal);
    head.actions_at + i as u128 * types.size as u128 > types.base
}

// Walks the list that goes on at a place to its end, or up to an index that is known.
fn walk_list(
    known: &mut Known,
    path: &mut Vec<Met>,
    memory: &Segments,
    segment: &Segment,
    head: &Head,
    types: &Types,
    named_at: u128,
    first: usize,
) -> Result<ListEnd, AllocError>
    requires near { named_at < 2 ^ 66 }
    requires inside { first ≤ vec_len segment.now.bytes }
    requires path { path.now.items ≡ [] }
    requires typed { (head_seen head.now).types ≡ Some (types_of types.now) }
    requires lists { ListsHold (memory_of memory.now) (part_of segment.now) (head_seen head.now) known.now }
    ensures walked { IfOk result (λ end. IsListWalked (memory_of memory.now) (part_of segment.now) (head_seen head.now) (types_of types.now) named_at first (joined (option_map fault_of known.old.least) (rest_of_list (memory_of memory.now) (part_of segment.now) (head_seen head.now) (types_of types.now) named_at first (1 + length segment.now.bytes.items) first)) (option_map fault_of known.new.least) (get nat_cmp known.new.lists) path.new.items end) }
    ensures chains { known.new.chains ≡ known.old.chains }
{
    let mut place = first;
    'indices: loop {
        if let Some(end) = known.lists.get(&place) {
            return Ok(*end);
        }
        match judge_index(known, segment, place) {
            ListTurn::Over(end) => return Ok(end),
            ListTurn::On(index, next) => {
                let outside = judge_entry(known, memory, segment, head, types, named_at, index);
                path.push(Met { place, outside })?;
                place = next;
            }
        }
    }
}

// The end of a list that has one more index in front, whose entry may lie outside of the types.
fn with_outside(outside: bool, end: ListEnd) -> ListEnd
    ensures { result ≡ and_outside outside end }
{
    ListEnd {
        outside: outside || end.outside,
        cut: end.cut,
    }
}

// Notes how the lists from the indices of a path on end.
fn keep_list(
    lists: &mut BTreeMap<usize, ListEnd>,
    path: &[Met],
    end: ListEnd,
) -> Result<(), AllocError>
    ensures { OnOk result ((p : ℕ) → get nat_cmp lists.new p ≡ with_indices path.now end (get nat_cmp lists.old) p) }
{
    let mut end = end;
    let mut rest = path;
    'path: while let Some((met, others)) = rest.split_last() {
        end = with_outside(met.outside, end);
        lists.insert(met.place, end)?;
        rest = others;
    }
    Ok(())
}

// What is refused of a list for its end alone.
fn list_end_refusal(
    segment: &Segment,
    named_at: u128,
    first: usize,
    end: ListEnd,
) -> Option<Refusal>
    requires { named_at < 2 ^ 66 }
    ensures { option_map fault_of result ≡ list_end (part_of segment.now) named_at first end }
{
    let file_at = segment.file_at as u128;
    let outside = if end.outside {
        Some(refused(Reason::FilterOutside, file_at + named_at))
    } else {
        None
    };
    let cut = if end.cut {
        Some(refused(Reason::SpecificationOpen, file_at + first as u128))
    } else {
        None
    };
    joined(outside, cut)
}

// Judges what a filter names where that is no list, or one behind the end of the bytes.
fn judge_other(
    known: &mut Known,
    memory: &Segments,
    segment: &Segment,
    head: &Head,
    named_at: u128,
    filter: i64,
)
    requires near { named_at < 2 ^ 66 }
    requires lists { ListsHold (memory_of memory.now) (part_of segment.now) (head_seen head.now) known.now }
    ensures stands { option_map fault_of known.new.least ≡ joined (option_map fault_of known.old.least) (least (filter_faults (memory_of memory.now) (part_of segment.now) (head_seen head.now) (head_seen head.now).types named_at filter)) }
    ensures lists { ListsHold (memory_of memory.now) (part_of segment.now) (head_seen head.now) known.new }
    ensures chains { known.new.chains ≡ known.old.chains }
{
    known.least = joined(
        known.least,
        filter_refusal(memory, segment, head, named_at, filter),
    );
}

// The list that a filter names, where it begins in the bytes, and the types behind whose base it stands.
fn list_of(segment: &Segment, head: &Head, filter: i64) -> Option<(Types, usize)>
    ensures { IfSome result (λ x. IsListOf (part_of segment.now) (head_seen head.now) filter (types_of x.0) x.1) }
{
    let Named::List(behind) = named_by(filter) else {
        return None;
    };
    let types = head.types?;
    let first = types.base + behind as u128;
    if first > segment.bytes.len() as u128 {
        return None;
    }
    Some((types, first as usize))
}

// Judges the list that begins at a place, where the record at another one names it.
fn judge_list(
    known: &mut Known,
    alloc: Global,
    memory: &Segments,
    segment: &Segment,
    head: &Head,
    types: &Types,
    named_at: u128,
    first: usize,
) -> Result<(), AllocError>
    requires near { named_at < 2 ^ 66 }
    requires inside { first ≤ vec_len segment.now.bytes }
    requires typed { (head_seen head.now).types ≡ Some (types_of types.now) }
    requires lists { ListsHold (memory_of memory.now) (part_of segment.now) (head_seen head.now) known.now }
    ensures stands { OnOk result (option_map fault_of known.new.least ≡ joined (option_map fault_of known.old.least) (rest_of_list (memory_of memory.now) (part_of segment.now) (head_seen head.now) (types_of types.now) named_at first (1 + length segment.now.bytes.items) first)) }
    ensures lists { OnOk result (ListsHold (memory_of memory.now) (part_of segment.now) (head_seen head.now) known.new) }
    ensures chains { known.new.chains ≡ known.old.chains }
{
    let mut path = Vec::new(alloc);
    let end = walk_list(
        known, &mut path, memory, segment, head, types, named_at, first,
    )?;
    keep_list(&mut known.lists, path.as_slice(), end)?;
    known.least = joined(known.least, list_end_refusal(segment, named_at, first, end));
    Ok(())
}

/// Judges what a filter names, which the record at this place has.
pub fn judge_filter(
    known: &mut Known,
    alloc: Global,
    memory: &Segments,
    segment: &Segment,
    head: &Head,
    named_at: u128,
    filter: i64,
) -> Result<(), AllocError>
    requires near { named_at < 2 ^ 66 }
    requires lists { ListsHold (memory_of memory.now) (part_of segment.now) (head_seen head.now) known.now }
    ensures stands { OnOk result (option_map fault_of known.new.least ≡ joined (option_map fault_of known.old.least) (least (filter_faults (memory_of memory.now) (part_of segment.now) (head_seen head.now) (head_seen head.now).types named_at filter))) }
    ensures lists { OnOk result (ListsHold (memory_of memory.now) (part_of segment.now) (head_seen head.now) known.new) }
    ensures chains { known.new.chains ≡ known.old.chains }
{
    match list_of(segment, head, filter) {
        Some((types, first)) => judge_list(
            known, alloc, memory, segment, head, &types, named_at, first,
        ),
        None => {
            judge_other(known, memory, segment, head, named_at, filter);
            Ok(())
        }
    }
}
