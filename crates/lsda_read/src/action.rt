// Action records.
ghost use Rattle.std.specs.Prelude.{◌≡◌, ◌+◌, ◌<◌, ◌^◌};
ghost use Rattle.eh_bytes.specs.Memory.{part_of};
ghost use Rattle.table_forms.specs.LsdaChain.{action_in, action_at, fails_at, next_of};
ghost use Rattle.lsda_read.specs.Heads.{head_seen};
ghost use Rattle.lsda_read.specs.Filters.{filter_of, IsNear, IsNearAction};

use crate::filter::{Named, named_by};
use crate::head::Head;
use eh_bytes::{ByteError, RawCursor, Segment};
use table_forms::{Action, Next};

// A record whose number is refused.
fn failed(place: u128, cause: ByteError) -> Action
    requires { place < 2 ^ 66 }
    ensures fails { result ≡ fails_at place cause }
    ensures near { IsNearAction result }
{
    match cause {
        ByteError::LebRange => Action::Ranged(place),
        _ => Action::Outside,
    }
}

// Where a chain goes on, by what a displacement is.
fn next_by(place: u128, displacement: Named) -> Next
    requires { place < 2 ^ 64 }
    ensures next { result ≡ next_of place (filter_of displacement) }
    ensures near { IsNear result }
{
    match displacement {
        Named::Cleanup => Next::Ends,
        Named::Entry(n) => {
            if n == 0 {
                Next::Ends
            } else {
                Next::Goes(place + n as u128)
            }
        }
        Named::List(n) => {
            if (n as u128) < place {
                Next::Goes(place - 1 - n as u128)
            } else {
                Next::Leaves
            }
        }
    }
}

// The record at a place of bytes that end with the action table.
#[tactic(auto, using(table_forms::proofs::Beyond::action_behind), unfolding(table_forms::specs::LsdaChain::action_in))]
fn action_of(bytes: &[u8], actions_at: u128, place: u128) -> Action
    ensures action { result ≡ action_in bytes.now actions_at place }
    ensures near { IsNearAction result }
{
    if place < actions_at {
        return Action::Outside;
    }
    if place > bytes.len() as u128 {
        return Action::Outside;
    }
    let mut cursor = RawCursor::new(bytes, place as usize);
    match cursor.take_sleb() {
        Err(cause) => failed(place, cause),
        Ok(filter) => {
            let from = cursor.position() as u128;
            match cursor.take_sleb() {
                Err(cause) => failed(from, cause),
                Ok(displacement) => Action::Record(filter, next_by(from, named_by(displacement))),
            }
        }
    }
}

/// The record at a place of a segment.
pub fn action_here(segment: &Segment, head: &Head, place: u128) -> Action
    ensures action { result ≡ action_at (part_of segment.now) (head_seen head.now) place }
    ensures near { IsNearAction result }
{
    let bytes = segment.bytes.as_slice();
    match head.types {
        None => action_of(bytes, head.actions_at, place),
        Some(types) => {
            if types.base < bytes.len() as u128 {
                action_of(&bytes[..types.base as usize], head.actions_at, place)
            } else {
                action_of(bytes, head.actions_at, place)
            }
        }
    }
}
