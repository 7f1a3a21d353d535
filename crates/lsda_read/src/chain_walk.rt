// Chains, each walked up to a record that was met before.
ghost use Rattle.std.specs.Prelude.{◌≡◌, ◌+◌, ◌<◌, ◌^◌, ℕ, [], IfOk, OnOk, Some, option_map, length};
ghost use Rattle.std.specs.Ordering.{nat_cmp};
ghost use Rattle.std.specs.BTreeMap.{get};
ghost use Rattle.eh_bytes.specs.Memory.{part_of, memory_of};
ghost use Rattle.table_forms.specs.LsdaChain.{first_record};
ghost use Rattle.table_forms.specs.Fault.{joined};
ghost use Rattle.table_forms.specs.Seen.{fault_of};
ghost use Rattle.lsda_read.specs.Holds.{ChainsHold, ListsHold};
ghost use Rattle.lsda_read.specs.Heads.{head_seen};
ghost use Rattle.lsda_read.specs.Rests.{chain_rest};
ghost use Rattle.lsda_read.specs.Known.{Walked, end_fault, with_path};
ghost use Rattle.lsda_read.specs.Turns.{IsTurn};

use crate::action::action_here;
use crate::head::Head;
use crate::known::{ChainEnd, Known};
use crate::list_walk::judge_filter;
use eh_bytes::{Segment, Segments};
use std::alloc::{AllocError, Global};
use std::collections::BTreeMap;
use table_forms::{Action, Next, Reason, Refusal, joined, refused};

/// Where a chain goes on, or how it ends.
#[derive(Clone, Copy, Drop)]
pub enum Turn {
    On(u128),
    Over(ChainEnd),
}

// Judges the record at a place.
fn judge_record(
    known: &mut Known,
    alloc: Global,
    memory: &Segments,
    segment: &Segment,
    head: &Head,
    place: u128,
) -> Result<Turn, AllocError>
    requires near { place < 2 ^ 66 }
    requires lists { ListsHold (memory_of memory.now) (part_of segment.now) (head_seen head.now) known.now }
    ensures turn { IfOk result (λ turn. IsTurn (memory_of memory.now) (part_of segment.now) (head_seen head.now) (option_map fault_of known.old.least) (option_map fault_of known.new.least) place turn) }
    ensures lists { OnOk result (ListsHold (memory_of memory.now) (part_of segment.now) (head_seen head.now) known.new) }
    ensures chains { known.new.chains ≡ known.old.chains }
{
    match action_here(segment, head, place) {
        Action::Outside => Ok(Turn::Over(ChainEnd::Outside)),
        Action::Ranged(at) => {
            let ranged = refused(Reason::LebRange, segment.file_at as u128 + at);
            known.least = joined(known.least, Some(ranged));
            Ok(Turn::Over(ChainEnd::Ended))
        }
        Action::Record(filter, next) => {
            judge_filter(known, alloc, memory, segment, head, place, filter)?;
            Ok(match next {
                Next::Ends => Turn::Over(ChainEnd::Ended),
                Next::Leaves => Turn::Over(ChainEnd::Outside),
                Next::Goes(next) => Turn::On(next),
            })
        }
    }
}

// Walks the chain that goes on at a place to its end, or up to a record that is known. The records
// on the way are noted as those of a loop.
fn walk(
    known: &mut Known,
    path: &mut Vec<u128>,
    alloc: Global,
    memory: &Segments,
    segment: &Segment,
    head: &Head,
    first: u128,
) -> Result<ChainEnd, AllocError>
    requires near { first < 2 ^ 66 }
    requires path { path.now.items ≡ [] }
    requires chains { ChainsHold (memory_of memory.now) (part_of segment.now) (head_seen head.now) known.now }
    requires lists { ListsHold (memory_of memory.now) (part_of segment.now) (head_seen head.now) known.now }
    ensures walked { IfOk result (λ end. Walked (memory_of memory.now) (part_of segment.now) (head_seen head.now) (λ site a. joined (option_map fault_of known.old.least) (chain_rest (memory_of memory.now) (part_of segment.now) (head_seen head.now) site a (1 + length segment.now.bytes.items) first)) (option_map fault_of known.new.least) (get nat_cmp known.new.chains) path.new.items end) }
    ensures lists { OnOk result (ListsHold (memory_of memory.now) (part_of segment.now) (head_seen head.now) known.new) }
{
    let mut place = first;
    'walk: loop {
        if let Some(end) = known.chains.get(&place) {
            return Ok(*end);
        }
        match judge_record(known, alloc, memory, segment, head, place)? {
            Turn::Over(end) => return Ok(end),
            Turn::On(next) => {
                known.chains.insert(place, ChainEnd::Repeated)?;
                path.push(place)?;
                place = next;
            }
        }
    }
}

// Notes the end of the records of a path.
fn keep(
    chains: &mut BTreeMap<u128, ChainEnd>,
    path: &[u128],
    end: ChainEnd,
) -> Result<(), AllocError>
    ensures { OnOk result ((p : ℕ) → get nat_cmp chains.new p ≡ with_path path.now end (get nat_cmp chains.old) p) }
{
    let mut rest = path;
    'path: while let Some((place, others)) = rest.split_first() {
        chains.insert(*place, end)?;
        rest = others;
    }
    Ok(())
}

// What is refused for its end of a chain that a site at this place names.
fn end_refusal(
    segment: &Segment,
    head: &Head,
    site: usize,
    action: u64,
    end: ChainEnd,
) -> Option<Refusal>
    requires { 0 < action }
    ensures { option_map fault_of result ≡ end_fault (part_of segment.now) (head_seen head.now) site action end }
{
    let file_at = segment.file_at as u128;
    match end {
        ChainEnd::Ended => None,
        ChainEnd::Outside => Some(refused(Reason::ActionOutside, file_at + site as u128)),
        ChainEnd::Repeated => {
            let first = head.actions_at + action as u128 - 1;
            Some(refused(Reason::ActionLoop, file_at + first))
        }
    }
}

/// Judges the chain of an action that a site at this place names.
pub fn judge_chain(
    known: &mut Known,
    alloc: Global,
    memory: &Segments,
    segment: &Segment,
    head: &Head,
    site: usize,
    action: u64,
) -> Result<(), AllocError>
    requires some { 0 < action }
    requires chains { ChainsHold (memory_of memory.now) (part_of segment.now) (head_seen head.now) known.now }
    requires lists { ListsHold (memory_of memory.now) (part_of segment.now) (head_seen head.now) known.now }
    ensures stands { OnOk result (option_map fault_of known.new.least ≡ joined (option_map fault_of known.old.least) (chain_rest (memory_of memory.now) (part_of segment.now) (head_seen head.now) site action (1 + length segment.now.bytes.items) (first_record (head_seen head.now) action))) }
    ensures chains { OnOk result (ChainsHold (memory_of memory.now) (part_of segment.now) (head_seen head.now) known.new) }
    ensures lists { OnOk result (ListsHold (memory_of memory.now) (part_of segment.now) (head_seen head.now) known.new) }
{
    let first = head.actions_at + action as u128 - 1;
    let mut path = Vec::new(alloc);
    let end = walk(known, &mut path, alloc, memory, segment, head, first)?;
    keep(&mut known.chains, path.as_slice(), end)?;
    known.least = joined(known.least, end_refusal(segment, head, site, action, end));
    Ok(())
}
