// An FDE by the place of its length.
ghost use Rattle.std.specs.Prelude.{◌≡◌, ◌+◌, ◌<◌, ◌≤◌, ◌^◌, length, Ok, Some, IfSome, IsSomeAnd, IsOk, option_map};
ghost use Rattle.eh_bytes.specs.Memory.{part_of, memory_of};
ghost use Rattle.table_forms.specs.Instructions.{instructions_at};
ghost use Rattle.table_forms.specs.Cie.{Cie};
ghost use Rattle.table_forms.specs.Fde.{Fde, row_at};
ghost use Rattle.frame_read.specs.Seen.{coding_seen};
ghost use Rattle.frame_read.specs.SeenCie.{cie_seen};
ghost use Rattle.frame_read.specs.SeenFde.{fde_seen};
ghost use Rattle.frame_read.specs.SeenSpan.{span_seen};
ghost use Rattle.frame_read.specs.States.{states_of};
ghost use Rattle.frame_read.specs.Entry.{span_at, cie_here, fde_behind, fde_here, fde_in, next_from};
ghost use Rattle.frame_read.specs.Heads.{cie_after, cie_at_place, fde_at_place};
ghost use Rattle.frame_read.specs.Known.{HasPlaces, IsKnown};
ghost use Rattle.frame_read.specs.Ready.{here_seen, IsReady};

use crate::cie::{cie_head_of, cie_of};
use crate::cie_part::CiePart;
use crate::fde::{fde_head_of, fde_of};
use crate::fde_part::FdePart;
use crate::field::u32_at;
use crate::row_fold::row_of;
use crate::search_fold::next_of;
use crate::span::Span;
use eh_bytes::{Segment, Segments};
use table_forms::Row;

// The part whose length stands at a place.
#[tactic(auto, unfolding(crate::specs::Entry::span_at))]
fn span_at(segment: &Segment, at: usize) -> Option<Span>
    requires { at ≤ length segment.now.bytes.items }
    ensures span { option_map span_seen result ≡ span_at (part_of segment.now) at }
    ensures at { IfSome result (λ s. s.at ≡ at) }
    ensures start { IfSome result (λ s. at + 4 ≤ s.stop) }
    ensures inside { IfSome result (λ s. s.stop ≤ length segment.now.bytes.items) }
{
    let end = segment.bytes.len();
    match u32_at(segment, end, at) {
        Err(_) => None,
        Ok((length, next)) => {
            if length as usize > end - next {
                return None;
            }
            Some(Span {
                at,
                stop: next + length as usize,
            })
        }
    }
}

// The place behind the 0 of a CIE, with its part.
#[tactic(auto, unfolding(crate::specs::Entry::cie_here))]
fn cie_place(segment: &Segment, at: usize) -> Option<(Span, usize)>
    requires { at ≤ length segment.now.bytes.items }
    ensures cie { cie_here (part_of segment.now) at ≡ cie_at_place (part_of segment.now) (option_map (λ x. (span_seen x.0, x.1)) result) }
    ensures at { IfSome result (λ x. x.0.at ≡ at) }
    ensures stop { IfSome result (λ x. x.0.stop ≤ length segment.now.bytes.items) }
    ensures start { IfSome result (λ x. x.0.at < x.0.stop) }
    ensures next { IfSome result (λ x. x.1 ≤ x.0.stop) }
{
    match span_at(segment, at) {
        None => None,
        Some(span) => match u32_at(segment, span.stop, at + 4) {
            Err(_) => None,
            Ok((distance, next)) => {
                if distance != 0 {
                    return None;
                }
                Some((span, next))
            }
        },
    }
}

// The CIE there.
fn cie_here(segment: &Segment, at: usize) -> Option<CiePart<'_>>
    requires { at ≤ length segment.now.bytes.items }
    ensures cie { option_map (cie_seen (part_of segment.now)) result ≡ cie_here (part_of segment.now) at }
    ensures stop { IfSome result (λ c. c.stop ≤ length segment.now.bytes.items) }
    ensures first { IfSome result (λ c. c.first ≤ c.stop) }
    ensures whole { IfSome result (λ c. states_of (instructions_at (coding_seen c.coding) (part_of segment.now) c.stop c.first 0) ≡ Ok c.states) }
{
    match cie_place(segment, at) {
        None => None,
        Some((span, next)) => match cie_of(segment, span.at, span.stop, next) {
            Err(_) => None,
            Ok(cie) => Some(cie),
        },
    }
}

// The CIE there, if it was read before, without its instructions.
fn known_cie(segment: &Segment, at: usize) -> Option<CiePart<'_>>
    requires { at ≤ length segment.now.bytes.items }
    ensures cie { (cie : Cie) → cie_here (part_of segment.now) at ≡ Some cie → IsSomeAnd result (λ c. cie_after (part_of segment.now) c ≡ Ok cie) }
    ensures at { IfSome result (λ c. c.at ≡ at) }
    ensures start { IfSome result (λ c. c.at < c.stop) }
    ensures stop { IfSome result (λ c. c.stop ≤ length segment.now.bytes.items) }
    ensures first { IfSome result (λ c. c.first ≤ c.stop) }
{
    match cie_place(segment, at) {
        None => None,
        Some((span, next)) => match cie_head_of(segment, span.at, span.stop, next) {
            Err(_) => None,
            Ok(cie) => Some(cie),
        },
    }
}

/// An FDE with its CIE.
#[derive(Clone, Copy, Drop)]
pub struct FdeHere<'a> {
    pub cie: CiePart<'a>,
    pub fde: FdePart,
}

// The place behind the distance that leads to the CIE of an FDE, with its part and the CIE's place.
#[tactic(auto, unfolding(crate::specs::Entry::fde_here))]
fn fde_place(segment: &Segment, at: usize) -> Option<((Span, usize), usize)>
    requires { at ≤ length segment.now.bytes.items }
    ensures fde { fde_here (part_of segment.now) at ≡ fde_at_place (part_of segment.now) (option_map (λ x. ((span_seen x.0.0, x.0.1), x.1)) result) }
    ensures at { IfSome result (λ x. x.0.0.at ≡ at) }
    ensures stop { IfSome result (λ x. x.0.0.stop ≤ length segment.now.bytes.items) }
    ensures next { IfSome result (λ x. x.0.1 ≤ x.0.0.stop) }
    ensures cie { IfSome result (λ x. x.1 ≤ length segment.now.bytes.items) }
{
    match span_at(segment, at) {
        None => None,
        Some(span) => match u32_at(segment, span.stop, at + 4) {
            Err(_) => None,
            Ok((distance, next)) => {
                if distance == 0 || distance as usize > at + 4 {
                    return None;
                }
                Some(((span, next), at + 4 - distance as usize))
            }
        },
    }
}

// The FDE behind the distance that leads to its CIE.
fn fde_behind<'a>(
    segment: &'a Segment,
    span: Span,
    cie_at: usize,
    next: usize,
) -> Option<FdeHere<'a>>
    requires stop { span.stop ≤ length segment.now.bytes.items }
    requires next { next ≤ span.stop }
    requires cie_at { cie_at ≤ length segment.now.bytes.items }
    ensures fde { option_map (here_seen (part_of segment.now)) result ≡ fde_behind (part_of segment.now) (span_seen span) next (cie_here (part_of segment.now) cie_at) }
    ensures ready { IfSome result (λ h. IsReady segment.now.bytes.items (part_of segment.now) h) }
{
    match cie_here(segment, cie_at) {
        None => None,
        Some(cie) => match fde_of(&cie, segment, span.at, span.stop, next) {
            Err(_) => None,
            Ok(fde) => Some(FdeHere { cie, fde }),
        },
    }
}

// The FDE whose length stands at a place.
fn fde_here(segment: &Segment, at: usize) -> Option<FdeHere<'_>>
    requires { at ≤ length segment.now.bytes.items }
    ensures fde { option_map (here_seen (part_of segment.now)) result ≡ fde_here (part_of segment.now) at }
    ensures ready { IfSome result (λ h. IsReady segment.now.bytes.items (part_of segment.now) h) }
{
    match fde_place(segment, at) {
        None => None,
        Some(((span, next), cie_at)) => fde_behind(segment, span, cie_at, next),
    }
}

// The FDE whose length stands at a place, if it was read before, without its instructions.
pub(crate) fn known_fde(segment: &Segment, at: usize) -> Option<FdeHere<'_>>
    requires { at ≤ length segment.now.bytes.items }
    ensures fde { (f : Fde) → fde_here (part_of segment.now) at ≡ Some f → IsSomeAnd result (λ h. IsKnown (part_of segment.now) h f) }
    ensures cie { (f : Fde) → fde_here (part_of segment.now) at ≡ Some f → IfSome result (λ h. cie_here (part_of segment.now) h.cie.at ≡ Some f.cie) }
    ensures places { IfSome result (λ h. HasPlaces segment.now.bytes.items h) }
    ensures start { IfSome result (λ h. h.cie.at < h.cie.stop) }
    ensures ends { IfSome result (λ h. h.fde.region.start + h.fde.region.length < 2 ^ 64) }
{
    match fde_place(segment, at) {
        None => None,
        Some(((span, next), cie_at)) => match known_cie(segment, cie_at) {
            None => None,
            Some(cie) => match fde_head_of(&cie, segment, span.at, span.stop, next) {
                Err(_) => None,
                Ok(fde) => Some(FdeHere { cie, fde }),
            },
        },
    }
}

// The row that the FDE there, which was read before, gives a place that is not before its region.
fn row_here(segment: &Segment, at: usize, pc: u64) -> Option<Row>
    requires at { at ≤ length segment.now.bytes.items }
    requires known { (f : Fde) × (fde_here (part_of segment.now) at ≡ Some f) }
    ensures { (f : Fde) → fde_here (part_of segment.now) at ≡ Some f → f.region.start ≤ pc → result ≡ Some (row_at f pc) }
{
    match known_fde(segment, at) {
        None => None,
        Some(here) => {
            if here.fde.region.start > pc {
                return None;
            }
            Some(row_of(&here.cie, &here.fde, segment, pc))
        }
    }
}

// The next location of the FDE there.
fn next_here(segment: &Segment, at: usize, pc: u64) -> Option<u64>
    requires { at ≤ length segment.now.bytes.items }
    ensures { result ≡ next_from (fde_here (part_of segment.now) at) pc }
{
    match fde_here(segment, at) {
        None => None,
        Some(here) => next_of(&here.cie, &here.fde, segment, pc),
    }
}

/// The row of a place by the FDE whose length stands at an address, which was read before, so that
/// its instructions need not be tested again; the place is not before its region (DWARF 5, 6.4.3).
#[tactic(auto, unfolding(crate::specs::Entry::fde_in))]
pub fn row_in(memory: &Segments, address: u64, pc: u64) -> Option<Row>
    requires { (f : Fde) × (fde_in (memory_of memory.now) address ≡ Some f) }
    ensures { (f : Fde) → fde_in (memory_of memory.now) address ≡ Some f → f.region.start ≤ pc → result ≡ Some (row_at f pc) }
{
    let segment = memory.segment_with(address)?;
    row_here(segment, (address - segment.address) as usize, pc)
}

/// The next location behind a place by the FDE whose length stands at an address: none where no FDE
/// that can be read stands there, or where it has none.
#[tactic(auto, unfolding(crate::specs::Entry::fde_in))]
pub fn next_in(memory: &Segments, address: u64, pc: u64) -> Option<u64>
    ensures { result ≡ next_from (fde_in (memory_of memory.now) address) pc }
{
    let segment = memory.segment_with(address)?;
    next_here(segment, (address - segment.address) as usize, pc)
}
