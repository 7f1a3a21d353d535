// Where a table ends.
ghost use Rattle.std.specs.Prelude.{◌≡◌, ◌+◌, ◌-◌, ◌<◌, ◌≤◌, ◌^◌, ◌++◌, fold, length, max, IfSome, option_map, vec_len};
ghost use Rattle.table_forms.specs.LsdaChain.{next_of};
ghost use Rattle.lsda_read.specs.Left.{next_place};
ghost use Rattle.lsda_pack.specs.Filters.{filter_of};
ghost use Rattle.lsda_pack.specs.Ends.{record_step, steps_within, site_steps, indices_end, list_stops, base_stops, name_stops, before_base, stop_of};

use crate::filter::{Named, named_by};
use eh_bytes::RawCursor;
use lsda_read::{Lsda, Numbers};

// Where a chain goes on, by what a displacement is.
fn next_by(place: u128, displacement: Named) -> Option<u128>
    requires { place < 2 ^ 64 }
    ensures next { result ≡ next_place (next_of place (filter_of displacement)) }
    ensures near { IfSome result (λ p. p < 2 ^ 65) }
{
    match displacement {
        Named::Cleanup => None,
        Named::Entry(n) => {
            if n == 0 {
                None
            } else {
                Some(place + n as u128)
            }
        }
        Named::List(n) => {
            if (n as u128) < place {
                Some(place - 1 - n as u128)
            } else {
                None
            }
        }
    }
}

// The place behind the record at a place, and where its chain goes on.
#[tactic(auto, using(crate::proofs::StopsAre::step_behind), unfolding(crate::specs::Ends::record_step))]
fn record_step(bytes: &[u8], actions_at: u128, place: u128) -> Option<(usize, Option<u128>)>
    ensures step { result ≡ record_step bytes.now actions_at place }
{
    if place < actions_at {
        return None;
    }
    if place > bytes.len() as u128 {
        return None;
    }
    let mut cursor = RawCursor::new(bytes, place as usize);
    match cursor.take_sleb() {
        Err(_) => None,
        Ok(_) => {
            let from = cursor.position() as u128;
            match cursor.take_sleb() {
                Err(_) => None,
                Ok(displacement) => Some((
                    cursor.position(),
                    next_by(from, named_by(displacement)),
                )),
            }
        }
    }
}

// The greatest of a place and those behind the records from a place on.
fn chain_end(bytes: &[u8], actions_at: u128, most: usize, first: u128, before: u128) -> u128
    requires { before < 2 ^ 67 }
    ensures end { result ≡ fold max before (steps_within most bytes.now actions_at first) }
    ensures near { result < 2 ^ 67 }
{
    let mut end = before;
    let mut place = first;
    let mut left = most;
    'records: while left > 0 {
        match record_step(bytes, actions_at, place) {
            None => return end,
            Some((stop, next)) => {
                if end < stop as u128 {
                    end = stop as u128;
                }
                match next {
                    None => return end,
                    Some(next) => place = next,
                }
            }
        }
        left -= 1;
    }
    end
}

// The greatest of the place of the action table and those behind its records.
#[tactic(auto, using(crate::proofs::StopsAre::fold_both))]
fn sites_end(bytes: &[u8], actions_at: u128, most: usize, table: &Lsda<'_>) -> u128
    requires { actions_at < 2 ^ 65 }
    ensures end { result ≡ fold max actions_at (site_steps most bytes.now actions_at table.now.sites) }
    ensures near { result < 2 ^ 67 }
{
    let mut end = actions_at;
    let mut sites = table.sites();
    'sites: while let Some(site) = sites.next() {
        if site.action != 0 {
            let first = actions_at + site.action as u128 - 1;
            end = chain_end(bytes, actions_at, most, first, end);
        }
    }
    end
}

// The place behind the 0 of the list at a place.
fn indices_end(bytes: &[u8], most: usize, first: usize) -> usize
    requires { first ≤ length bytes.now }
    ensures { result ≡ indices_end most bytes.now first }
{
    let mut place = first;
    let mut left = most;
    'indices: while left > 0 {
        let mut cursor = RawCursor::new(bytes, place);
        match cursor.take_uleb() {
            Err(_) => return place,
            Ok(index) => {
                place = cursor.position();
                if index == 0 {
                    return place;
                }
            }
        }
        left -= 1;
    }
    place
}

/// The place behind the list at a place, which may lie behind the bytes.
#[tactic(auto, using(crate::proofs::StopsAre::end_behind))]
pub fn list_end(bytes: &[u8], first: u128) -> u128
    requires small { length bytes.now < 2 ^ 63 }
    requires near { first < 2 ^ 66 }
    ensures end { result ≡ indices_end (1 + length bytes.now) bytes.now first }
    ensures near { result < 2 ^ 67 }
{
    if first > bytes.len() as u128 {
        return first;
    }
    indices_end(bytes, 1 + bytes.len(), first as usize) as u128
}

// The greatest of a place and those behind the lists.
fn lists_end(bytes: &[u8], base: u128, lists: &[u64], before: u128) -> u128
    requires small { length bytes.now < 2 ^ 63 }
    requires near { base < 2 ^ 65 }
    requires low { before < 2 ^ 67 }
    ensures end { result ≡ fold max before (list_stops bytes.now base lists.now) }
    ensures near { result < 2 ^ 67 }
{
    let mut end = before;
    let mut rest = lists;
    'lists: while let Some((list, others)) = rest.split_first() {
        let stop = list_end(bytes, (base + *list as u128).saturating_sub(1));
        if end < stop {
            end = stop;
        }
        rest = others;
    }
    end
}

// The greatest of a place, the base where a type is named, and the places behind the lists.
#[tactic(auto, using(crate::proofs::StopsAre::fold_both))]
fn names_end(bytes: &[u8], base: Option<u128>, numbers: &Numbers, before: u128) -> u128
    requires small { length bytes.now < 2 ^ 63 }
    requires near { IfSome base (λ b. b < 2 ^ 65) }
    requires low { before < 2 ^ 67 }
    ensures end { result ≡ fold max before (name_stops bytes.now base numbers.now.types.items numbers.now.lists.items) }
    ensures near { result < 2 ^ 67 }
{
    let Some(base) = base else {
        return before;
    };
    let mut end = before;
    if numbers.types.len() != 0 && end < base {
        end = base;
    }
    lists_end(bytes, base, numbers.lists.as_slice(), end)
}

// The bytes before the base.
fn before_base(base: Option<u128>, bytes: &[u8]) -> &[u8]
    ensures { result.now ≡ before_base base bytes.now }
{
    match base {
        None => bytes,
        Some(base) => if base < bytes.len() as u128 {
            &bytes[..base as usize]
        } else {
            bytes
        },
    }
}

/// Where a table ends: behind its sites, its records, the base where a type is named, and its
/// lists, whichever is last. The action table and the base are places of the bytes.
#[tactic(auto, using(crate::proofs::StopsAre::fold_both), unfolding(crate::specs::Ends::stop_of))]
pub fn table_end(
    bytes: &[u8],
    actions_at: u128,
    base: Option<u128>,
    table: &Lsda<'_>,
    numbers: &Numbers,
) -> u128
    requires small { length bytes.now < 2 ^ 63 }
    requires reach { actions_at < 2 ^ 65 }
    requires near { IfSome base (λ b. b < 2 ^ 65) }
    ensures end { result ≡ stop_of bytes.now actions_at base table.now.sites numbers.now.types.items numbers.now.lists.items }
    ensures near { result < 2 ^ 67 }
{
    let records = before_base(base, bytes);
    let end = sites_end(records, actions_at, 1 + bytes.len(), table);
    names_end(bytes, base, numbers, end)
}
