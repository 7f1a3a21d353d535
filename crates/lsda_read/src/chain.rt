// Chains of action records.
ghost use Rattle.std.specs.Prelude.{◌≡◌, ◌+◌, ◌<◌, ℕ, suc, Some, option_map, vec_len};
ghost use Rattle.eh_bytes.specs.Memory.{part_of, memory_of};
ghost use Rattle.table_forms.specs.LsdaChain.{first_record};
ghost use Rattle.table_forms.specs.Fault.{least};
ghost use Rattle.table_forms.specs.Lsda.{filters_of};
ghost use Rattle.lsda_read.specs.Rests.{chain_rest};
ghost use Rattle.table_forms.specs.Seen.{fault_of};
ghost use Rattle.lsda_read.specs.Heads.{head_seen};
ghost use Rattle.lsda_read.specs.Left.{filters_left, next_place, and_filters};

use crate::action::action_here;
use crate::filter::filter_refusal;
use crate::head::Head;
use eh_bytes::{Segment, Segments};
use std::marker::Model;
use table_forms::{Action, Next, Reason, Refusal, joined, refused};

/// What is refused in the chain of an action that a site at this place names.
pub fn chain_refusal(
    memory: &Segments,
    segment: &Segment,
    head: &Head,
    site: usize,
    action: u64,
) -> Option<Refusal>
    requires { 0 < action }
    ensures { option_map fault_of result ≡ chain_rest (memory_of memory.now) (part_of segment.now) (head_seen head.now) site action (1 + vec_len segment.now.bytes) (first_record (head_seen head.now) action) }
{
    let file_at = segment.file_at as u128;
    let first = head.actions_at + action as u128 - 1;
    let mut least = None;
    let mut place = first;
    for _ in 0..segment.bytes.len() as u128 + 1 {
        match action_here(segment, head, place) {
            Action::Outside => return joined(
                least,
                Some(refused(Reason::ActionOutside, file_at + site as u128)),
            ),
            Action::Ranged(at) => return joined(
                least,
                Some(refused(Reason::LebRange, file_at + at)),
            ),
            Action::Record(filter, next) => {
                least = joined(least, filter_refusal(memory, segment, head, place, filter));
                match next {
                    Next::Ends => return least,
                    Next::Leaves => {
                        return joined(
                            least,
                            Some(refused(Reason::ActionOutside, file_at + site as u128)),
                        );
                    }
                    Next::Goes(next) => place = next,
                }
            }
        }
    }
    joined(least, Some(refused(Reason::ActionLoop, file_at + first)))
}

// Where a chain goes on, if it does.
fn next_place(next: Next) -> Option<u128>
    ensures { result ≡ next_place next }
{
    match next {
        Next::Ends => None,
        Next::Leaves => None,
        Next::Goes(place) => Some(place),
    }
}

// The filter of the record at a place, and the place of the next one.
fn link_at(segment: &Segment, head: &Head, place: u128) -> Option<(i64, Option<u128>)>
    ensures { (n : ℕ) → filters_left (part_of segment.now) (head_seen head.now) (suc n) (Some place) ≡ and_filters result (filters_left (part_of segment.now) (head_seen head.now) n) }
{
    match action_here(segment, head, place) {
        Action::Record(filter, next) => Some((filter, next_place(next))),
        Action::Outside => None,
        Action::Ranged(_) => None,
    }
}

/// The filters of a chain, in the order in which they are tried.
#[derive(Drop)]
pub struct Chain<'a> {
    segment: &'a Segment,
    head: Head,
    // The next record, if any.
    place: Option<u128>,
    // How many records come at most.
    left: usize,
}

impl<'a> Model for Chain<'a> {
    ghost use Rattle.std.specs.Prelude.{ℤ, List};
    ghost use Rattle.eh_bytes.specs.Memory.{part_of};
    ghost use Rattle.lsda_read.specs.Heads.{head_seen};
    ghost use Rattle.lsda_read.specs.Left.{filters_left};

    ghost Value = { List ℤ };

    ghost view = { λ c. filters_left (part_of c.segment.now) (head_seen c.head) c.left c.place };
}

impl<'a> Chain<'a> {
    /// The chain of an action that is not 0.
    pub(crate) fn of(segment: &'a Segment, head: Head, action: u64) -> Chain<'a>
        ensures { 0 < action → result ≡ filters_of (part_of segment.now) (head_seen head) action }
    {
        Chain {
            segment,
            head,
            place: (head.actions_at + action as u128).checked_sub(1),
            left: 1 + segment.bytes.len(),
        }
    }
}

impl<'a> Iterator for Chain<'a> {
    ghost use Rattle.std.specs.Iterator.{YieldsFirst, item_count};

    type Item = i64;

    ghost next_gives = { YieldsFirst (λ rest. rest) };

    ghost remaining = { item_count (λ rest. rest) };

    fn next(&mut self) -> Option<i64> {
        let place = self.place.take()?;
        if self.left == 0 {
            return None;
        }
        self.left -= 1;
        let (filter, next) = link_at(self.segment, &self.head, place)?;
        self.place = next;
        Some(filter)
    }
}
