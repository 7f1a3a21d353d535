// Lists of a specification.
ghost use Rattle.std.specs.Prelude.{◌≡◌, ◌+◌, ◌<◌, ◌≤◌, ◌^◌, ℕ, suc, [], Some, IfOk, IfSome, option_map, vec_len};
ghost use Rattle.eh_bytes.specs.Memory.{part_of, memory_of};
ghost use Rattle.table_forms.specs.LsdaTypes.{index_at, indices_within, list_faults};
ghost use Rattle.table_forms.specs.Lsda.{list_value};
ghost use Rattle.table_forms.specs.Fault.{least};
ghost use Rattle.table_forms.specs.Seen.{fault_of};
ghost use Rattle.lsda_read.specs.Reads.{Reads};
ghost use Rattle.lsda_read.specs.Heads.{head_seen, types_of};
ghost use Rattle.lsda_read.specs.Left.{indices_left, and_indices};

use crate::entry::entry_refusal;
use crate::head::{Head, Types};
use eh_bytes::{ByteError, RawCursor, Segment, Segments};
use std::marker::Model;
use table_forms::{Reason, Refusal, joined, refused};

/// An index of the list that begins at `first`.
pub fn index_of(segment: &Segment, first: usize, place: usize) -> Result<(u64, usize), Refusal>
    requires { place ≤ vec_len segment.now.bytes }
    ensures reads { Reads (λ x. x) result (index_at (part_of segment.now) first place) }
    ensures inside { IfOk result (λ x. x.1 ≤ vec_len segment.now.bytes) }
    ensures on { IfOk result (λ x. place < x.1) }
{
    let mut cursor = RawCursor::new(segment.bytes.as_slice(), place);
    match cursor.take_uleb() {
        Ok(value) => Ok((value, cursor.position())),
        Err(ByteError::LebRange) => Err(refused(
            Reason::LebRange,
            segment.file_at as u128 + place as u128,
        )),
        Err(_) => Err(refused(
            Reason::SpecificationOpen,
            segment.file_at as u128 + first as u128,
        )),
    }
}

/// What is refused in the list that begins at `first`.
pub fn list_refusal(
    memory: &Segments,
    segment: &Segment,
    head: &Head,
    types: &Types,
    named_at: u128,
    first: usize,
) -> Option<Refusal>
    requires near { named_at < 2 ^ 66 }
    requires inside { first ≤ vec_len segment.now.bytes }
    ensures { option_map fault_of result ≡ least (list_faults (memory_of memory.now) (part_of segment.now) (head_seen head.now) (types_of types.now) named_at (indices_within (1 + vec_len segment.now.bytes) (part_of segment.now) first first)) }
{
    let mut least = None;
    let mut place = first;
    'indices: loop {
        match index_of(segment, first, place) {
            Err(e) => return joined(least, Some(e)),
            Ok((index, next)) => {
                if index == 0 {
                    return least;
                }
                least = joined(
                    least,
                    entry_refusal(memory, segment, head, types, named_at, index),
                );
                place = next;
            }
        }
    }
}

// The index at a place of the list, and the place behind it; none where the list ends.
fn index_here(segment: &Segment, first: usize, place: usize) -> Option<(u64, usize)>
    requires { place ≤ vec_len segment.now.bytes }
    ensures gives { (n : ℕ) → indices_left (part_of segment.now) first (suc n) (Some place) ≡ and_indices result (indices_left (part_of segment.now) first n) }
    ensures inside { IfSome result (λ x. x.1 ≤ vec_len segment.now.bytes) }
{
    match index_of(segment, first, place) {
        Err(_) => None,
        Ok((index, next)) => {
            if index == 0 {
                None
            } else {
                Some((index, next))
            }
        }
    }
}

/// The type indices of a specification's list.
#[derive(Drop)]
pub struct SpecList<'a> {
    segment: &'a Segment,
    first: usize,
    // The next index, if any.
    place: Option<usize>,
    // How many indices come at most.
    left: usize,
}

impl<'a> Model for SpecList<'a> {
    ghost use Rattle.std.specs.Prelude.{ℕ, List, ◌≤◌, vec_len};
    ghost use Rattle.std.specs.Option.{ForSome};
    ghost use Rattle.eh_bytes.specs.Memory.{part_of};
    ghost use Rattle.lsda_read.specs.Left.{indices_left};

    ghost Value = { List ℕ };

    ghost view = { λ l. indices_left (part_of l.segment.now) l.first l.left l.place };

    ghost invariant = { λ l. ForSome l.place (λ p. p ≤ vec_len l.segment.now.bytes) };
}

impl<'a> SpecList<'a> {
    // The list that begins at a place.
    fn from(segment: &'a Segment, first: usize) -> SpecList<'a>
        requires { first ≤ vec_len segment.now.bytes }
        ensures { result ≡ indices_left (part_of segment.now) first (1 + vec_len segment.now.bytes) (Some first) }
    {
        SpecList {
            segment,
            first,
            place: Some(first),
            left: 1 + segment.bytes.len(),
        }
    }

    // A list without an index.
    fn empty(segment: &'a Segment) -> SpecList<'a>
        ensures { result ≡ [] }
    {
        SpecList {
            segment,
            first: 0,
            place: None,
            left: 0,
        }
    }

    /// The list that the filter -j names, where j is not 0.
    pub(crate) fn named(segment: &'a Segment, head: &Head, j: u64) -> SpecList<'a>
        ensures { 0 < j → result ≡ list_value (part_of segment.now) (head_seen head.now).types j }
    {
        let Some(types) = head.types else {
            return SpecList::empty(segment);
        };
        let first = types.base + j.saturating_sub(1) as u128;
        if first > segment.bytes.len() as u128 {
            return SpecList::empty(segment);
        }
        SpecList::from(segment, first as usize)
    }
}

impl<'a> Iterator for SpecList<'a> {
    ghost use Rattle.std.specs.Iterator.{YieldsFirst, item_count};

    type Item = u64;

    ghost next_gives = { YieldsFirst (λ rest. rest) };

    ghost remaining = { item_count (λ rest. rest) };

    fn next(&mut self) -> Option<u64> {
        let place = self.place.take()?;
        if self.left == 0 {
            return None;
        }
        self.left -= 1;
        let (index, next) = index_here(self.segment, self.first, place)?;
        self.place = Some(next);
        Some(index)
    }
}
