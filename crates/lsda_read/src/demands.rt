// What a table asks of the region of a function that names it.
ghost use Rattle.std.specs.Prelude.{◌≡◌, ◌≤◌, ◌<◌, ◌+◌, ◌-◌, ℕ, true, Ok, Bool, IfOk, OnOk, IsOkAnd, length, slice_index, take, vec_len};
ghost use Rattle.std.specs.List.{AllByRecursion};
ghost use Rattle.eh_bytes.specs.Memory.{Memory, part_of, memory_of};
ghost use Rattle.table_forms.specs.LsdaSites.{records_within};
ghost use Rattle.table_forms.specs.Lsda.{Table, lsda, lsda_in};
ghost use Rattle.lsda_read.specs.Heads.{head_seen};
ghost use Rattle.lsda_read.specs.Demands.{IsRising, AreCode, Suits, Covers, AreDemands, asks_pad};

use crate::field::byte_at;
use crate::head::Head;
use crate::head_fields::head_of;
use crate::keys::keys_of;
use crate::site::record_of;
use crate::sites::site_bytes;
use eh_bytes::{Region64, Segment, Segments};
use std::alloc::{AllocError, Global};

/// What an exception table of which nothing is refused asks of the region of a function that names
/// it: that it holds all sites, and that the pads that count from its start are code.
#[derive(Drop)]
pub struct Demands {
    // The end of the last site, from the region's start on.
    reach: u128,
    // The pads that count from the region's start, in rising order.
    pads: Vec<u64>,
}

// How many pads from the first on end below this address, where they count from this start and rise.
fn count_below(pads: &[u64], start: u64, end: u128) -> usize
    ensures inside { result ≤ length pads.now }
    ensures below { 0 < result → start + slice_index pads.now (result - 1) < end }
{
    let mut low = 0;
    let mut high = pads.len();
    'halves: while low < high {
        let middle = low + (high - low) / 2;
        if (start as u128 + pads[middle] as u128) < end {
            low = middle + 1;
        } else {
            high = middle;
        }
    }
    low
}

// How many pads from the first on lie in the executable segment that the first one lies in.
fn count_code(memory: &Segments, pads: &[u64], start: u64) -> usize
    ensures inside { result ≤ length pads.now }
    ensures code { IsRising pads.now → AreCode (memory_of memory.now) start (take result pads.now) }
{
    let Some((first, _)) = pads.split_first() else {
        return 0;
    };
    let Some(address) = start.checked_add(*first) else {
        return 0;
    };
    let Some(segment) = memory.segment_with(address) else {
        return 0;
    };
    if !segment.exec {
        return 0;
    }
    let end = segment.address as u128 + segment.bytes.len() as u128;
    count_below(pads, start, end)
}

// Whether pads that rise are all code, where they count from this start.
fn are_code(memory: &Segments, pads: &[u64], start: u64) -> bool
    ensures { IsRising pads.now → result ≡ true → AreCode (memory_of memory.now) start pads.now }
{
    let mut rest = pads;
    'pads: while !rest.is_empty() {
        let count = count_code(memory, rest, start);
        if count == 0 {
            return false;
        }
        let (_, others) = rest.split_at(count);
        rest = others;
    }
    true
}

// The further of two ends.
fn further(reach: u128, end: u128) -> u128
    ensures first { reach ≤ result }
    ensures second { end ≤ result }
{
    if reach < end { end } else { reach }
}

// Notes a pad that counts from the region's start.
fn note_pad(pads: &mut Vec<u64>, moves: bool, pad: u64) -> Result<(), AllocError>
    ensures { OnOk result ((passes : ℕ → Bool) → AllByRecursion (λ p. passes p ≡ true) pads.new.items → AllByRecursion (λ p. passes p ≡ true) pads.old.items × (asks_pad moves passes pad ≡ true)) }
{
    if moves && pad != 0 {
        pads.push(pad)?;
    }
    Ok(())
}

// What the records of a table ask, where pads count from the region's start or do not.
fn records_ask(
    alloc: Global,
    segment: &Segment,
    head: &Head,
    moves: bool,
    bytes: &[u8],
) -> Result<(u128, Vec<u64>), AllocError>
    requires start { head.now.sites_at ≤ length bytes.now }
    requires short { length bytes.now ≤ vec_len segment.now.bytes }
    ensures { IfOk result (λ x. Covers moves x.0 x.1.items (records_within (1 + vec_len segment.now.bytes) bytes.now segment.now.file_at (head_seen head.now) head.now.sites_at).records) }
{
    let mut reach: u128 = 0;
    let mut pads = Vec::new(alloc);
    let mut place = head.sites_at;
    'records: while (place as u128) < head.actions_at {
        match record_of(bytes, segment.file_at, head, place) {
            Err(_) => return Ok((reach, pads)),
            Ok((row, next)) => {
                reach = further(reach, row.start as u128 + row.length as u128);
                note_pad(&mut pads, moves, row.pad)?;
                place = next;
            }
        }
    }
    Ok((reach, pads))
}

// What the table at a place of a segment asks.
fn demands_in(
    alloc: Global,
    segment: &Segment,
    region: Region64,
    place: usize,
) -> Result<Demands, AllocError>
    requires { place ≤ vec_len segment.now.bytes }
    ensures rising { IfOk result (λ d. IsRising d.pads.items) }
    ensures serve { IfOk result (λ d. (m : Memory) (t : Table) (other : Region64) → lsda_in m region place (part_of segment.now) ≡ Ok t → Suits m d other → IsOkAnd (lsda_in m other place (part_of segment.now)) (λ u. length u.sites ≡ length t.sites)) }
{
    let nothing = Demands {
        reach: 0,
        pads: Vec::new(alloc),
    };
    let Ok((lp_start, _)) = byte_at(segment.bytes.as_slice(), segment.file_at, place) else {
        return Ok(nothing);
    };
    let Ok(head) = head_of(segment, region, place) else {
        return Ok(nothing);
    };
    let (reach, pads) = records_ask(
        alloc,
        segment,
        &head,
        lp_start == 255,
        site_bytes(segment, &head),
    )?;
    Ok(Demands {
        reach,
        pads: keys_of(alloc, pads.as_slice())?,
    })
}

impl Demands {
    /// What the table at an address asks, of which nothing is refused for the function of a region.
    /// Of other tables nothing is said.
    pub fn of(
        alloc: Global,
        memory: &Segments,
        address: u64,
        region: Region64,
    ) -> Result<Demands, AllocError>
        ensures { IfOk result (λ d. (t : Table) → lsda (memory_of memory.now) address region ≡ Ok t → AreDemands (memory_of memory.now) address (length t.sites) d) }
    {
        match memory.segment_with(address) {
            None => Ok(Demands {
                reach: 0,
                pads: Vec::new(alloc),
            }),
            Some(segment) => demands_in(
                alloc,
                segment,
                region,
                (address - segment.address) as usize,
            ),
        }
    }

    /// Whether a region meets them, in time proportional to the number of segments, but for a
    /// logarithm.
    pub fn suits(&self, memory: &Segments, region: Region64) -> bool
        ensures { IsRising self.now.pads.items → result ≡ true → Suits (memory_of memory.now) self.now region }
    {
        self.reach <= region.length as u128 && are_code(memory, self.pads.as_slice(), region.start)
    }
}
