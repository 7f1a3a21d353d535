// One part of .eh_frame (LSB Core, "The .eh_frame section").
ghost use Rattle.std.specs.Prelude.{ℕ, ◌≡◌, ◌+◌, ◌==◌, ◌<◌, ◌≤◌, ◌^◌, IfSome, length, find, map, option_map};
ghost use Rattle.std.specs.Option.{option_copied};
ghost use Rattle.eh_bytes.specs.Memory.{Part, part_of};
ghost use Rattle.table_forms.specs.Spans.{distance_at};
ghost use Rattle.table_forms.specs.Cie.{cie_at};
ghost use Rattle.table_forms.specs.Parts.{cie_of, cie_said, cie_behind, said_behind, region_behind, region_of, says};
ghost use Rattle.frame_read.specs.Reads.{result_seen};
ghost use Rattle.frame_read.specs.SeenCie.{cie_seen};
ghost use Rattle.frame_read.specs.SeenSpan.{span_seen, IsInside};
ghost use Rattle.frame_read.specs.SeenParts.{IsAt};
ghost use Rattle.frame_read.specs.Rises.{RisesBy};
ghost use Rattle.frame_read.specs.SeenPart.{entry_seen, entries_seen, said_seen};

use crate::cie;
use crate::cie_part::CiePart;
use crate::cie_search::first_behind;
use crate::entry::{CieEntry, Said};
use crate::fde::{fde_of, region_of};
use crate::field::u32_at;
use crate::span::Span;
use eh_bytes::{Region64, Segment};
use table_forms::{Reason, Refusal, refused};

/// The CIE of a part, if it is one.
pub fn cie_entry(segment: &Segment, span: Span) -> Option<CieEntry<'_>>
    requires { IsInside (length segment.now.bytes.items) span }
    ensures { option_map (entry_seen (part_of segment.now)) result ≡ cie_of (part_of segment.now) (span_seen span) (distance_at (part_of segment.now) (span_seen span)) }
{
    match u32_at(segment, span.stop, span.at + 4) {
        Err(_) => None,
        Ok((distance, next)) => {
            if distance != 0 {
                return None;
            }
            Some(CieEntry {
                at: span.at,
                read: cie::cie_of(segment, span.at, span.stop, next),
            })
        }
    }
}

// What was read of the CIE from which a distance leads to the field behind the length at `at`.
#[tactic(auto, using(crate::proofs::Found::find_behind))]
fn cie_behind<'a>(
    entries: &[CieEntry<'a>],
    at: usize,
    distance: u32,
) -> Option<Result<CiePart<'a>, Refusal>>
    requires { (n : ℕ) × RisesBy (λ e. e.at) n entries.now }
    ensures { (part : Part) → option_map (result_seen (cie_seen part)) result ≡ cie_behind (entries_seen part entries.now) at distance }
{
    let entry = first_behind(entries, at, distance)?;
    Some(entry.read)
}

// What the CIE of a part says.
fn cie_said<'a>(segment: &'a Segment, span: Span, next: usize) -> Said<'a>
    requires stop { span.stop ≤ length segment.now.bytes.items }
    requires next { next ≤ span.stop }
    ensures at { IsAt span.at result }
    ensures said { said_seen (part_of segment.now) result ≡ cie_said (cie_at (part_of segment.now) span.at span.stop next) }
{
    match cie::cie_of(segment, span.at, span.stop, next) {
        Ok(cie) => Said::Cie(cie),
        Err(e) => Said::Refused(e),
    }
}

// What an FDE says, whose distance is read.
fn fde_said<'a>(
    segment: &Segment,
    entries: &[CieEntry<'a>],
    span: Span,
    distance: u32,
    next: usize,
) -> Said<'a>
    requires stop { span.stop ≤ length segment.now.bytes.items }
    requires next { next ≤ span.stop }
    requires rises { (n : ℕ) × RisesBy (λ e. e.at) n entries.now }
    ensures at { IsAt span.at result }
    ensures said { said_seen (part_of segment.now) result ≡ said_behind (part_of segment.now) (span_seen span) next (cie_behind (entries_seen (part_of segment.now) entries.now) span.at distance) }
{
    match cie_behind(entries, span.at, distance) {
        None => Said::Refused(refused(
            Reason::CieLink,
            segment.file_at as u128 + span.at as u128 + 4,
        )),
        Some(Err(_)) => Said::Unread,
        Some(Ok(cie)) => match fde_of(&cie, segment, span.at, span.stop, next) {
            Ok(fde) => Said::Fde(fde, cie),
            Err(e) => Said::Refused(e),
        },
    }
}

/// What a part says, where these are all CIEs.
#[tactic(auto, unfolding(table_forms::specs::Parts::says))]
pub fn said_by<'a>(segment: &'a Segment, entries: &[CieEntry<'a>], span: Span) -> Said<'a>
    requires inside { IsInside (length segment.now.bytes.items) span }
    requires rises { (n : ℕ) × RisesBy (λ e. e.at) n entries.now }
    ensures at { IsAt span.at result }
    ensures said { said_seen (part_of segment.now) result ≡ says (part_of segment.now) (entries_seen (part_of segment.now) entries.now) (span_seen span) }
{
    match u32_at(segment, span.stop, span.at + 4) {
        Err(e) => Said::Refused(e),
        Ok((distance, next)) => {
            if distance == 0 {
                cie_said(segment, span, next)
            } else {
                fde_said(segment, entries, span, distance, next)
            }
        }
    }
}

// The region of an FDE, whose distance is read.
fn region_behind(
    segment: &Segment,
    entries: &[CieEntry<'_>],
    span: Span,
    distance: u32,
    next: usize,
) -> Option<Region64>
    requires stop { span.stop ≤ length segment.now.bytes.items }
    requires next { next ≤ span.stop }
    requires rises { (n : ℕ) × RisesBy (λ e. e.at) n entries.now }
    ensures region { result ≡ region_behind (part_of segment.now) (span_seen span) next (cie_behind (entries_seen (part_of segment.now) entries.now) span.at distance) }
    ensures fits { IfSome result (λ r. r.start + r.length < 2 ^ 64) }
{
    match cie_behind(entries, span.at, distance) {
        None => None,
        Some(Err(_)) => None,
        Some(Ok(cie)) => match region_of(&cie, segment, span.stop, next) {
            Ok((region, _)) => Some(region),
            Err(_) => None,
        },
    }
}

/// The region of a part, as soon as it can be read.
pub fn region_in(segment: &Segment, entries: &[CieEntry<'_>], span: Span) -> Option<Region64>
    requires inside { IsInside (length segment.now.bytes.items) span }
    requires rises { (n : ℕ) × RisesBy (λ e. e.at) n entries.now }
    ensures region { option_map (λ r. (span.at, r)) result ≡ region_of (part_of segment.now) (entries_seen (part_of segment.now) entries.now) (span_seen span) (distance_at (part_of segment.now) (span_seen span)) }
    ensures fits { IfSome result (λ r. r.start + r.length < 2 ^ 64) }
{
    match u32_at(segment, span.stop, span.at + 4) {
        Err(_) => None,
        Ok((distance, next)) => {
            if distance == 0 {
                return None;
            }
            region_behind(segment, entries, span, distance, next)
        }
    }
}
