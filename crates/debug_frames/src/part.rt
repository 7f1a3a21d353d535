// One part of .debug_frame (DWARF 5, 6.4.1).
ghost use Rattle.std.specs.Prelude.{ℕ, List, ◌≡◌, ◌+◌, ◌<◌, ◌≤◌, ◌^◌, IfSome, length, option_map};
ghost use Rattle.eh_bytes.specs.Memory.{Part, part_of};
ghost use Rattle.frame_read.specs.Reads.{result_seen};
ghost use Rattle.frame_read.specs.SeenCie.{cie_seen};
ghost use Rattle.frame_read.specs.SeenSpan.{span_seen, IsInside};
ghost use Rattle.frame_read.specs.SeenParts.{IsAt};
ghost use Rattle.frame_read.specs.SeenPart.{entry_seen, entries_seen, said_seen};
ghost use Rattle.frame_read.specs.Rises.{RisesBy};
ghost use Rattle.table_forms.specs.Parts.{cie_said};
ghost use Rattle.debug_frames.specs.DebugSpans.{link_at};
ghost use Rattle.debug_frames.specs.DebugCie.{debug_cie_at};
ghost use Rattle.debug_frames.specs.DebugFde.{orphan_at};
ghost use Rattle.debug_frames.specs.DebugParts.{cie_of, cie_at_link, orphan_said, fde_linked, debug_says, region_linked, region_of};
ghost use Rattle.debug_frames.specs.ReadySaid.{IsReadySaid, IsReadyRead, AreReadyEntries};

use crate::cie;
use crate::fde::{fde_of, orphan_of, region_of};
use eh_bytes::{Region64, Segment};
use frame_read::cie_part::CiePart;
use frame_read::cie_search::entry_at;
use frame_read::entry::{CieEntry, Said};
use frame_read::field::u32_at;
use frame_read::span::Span;
use table_forms::{Reason, Refusal, refused};

// What stands behind the length of a CIE.
const CIE_ID: u32 = 0xffff_ffff;

/// The CIE of a part, if it is one.
pub fn cie_entry(section: &Segment, span: Span) -> Option<CieEntry<'static>>
    requires { IsInside (length section.now.bytes.items) span }
    ensures ready { IfSome result (λ e. IsReadyRead section.now.bytes.items (part_of section.now) e.read) }
    ensures entry { option_map (entry_seen (part_of section.now)) result ≡ cie_of (part_of section.now) (span_seen span) (link_at (part_of section.now) (span_seen span)) }
{
    match u32_at(section, span.stop, span.at + 4) {
        Err(_) => None,
        Ok((link, next)) => {
            if link != CIE_ID {
                return None;
            }
            Some(CieEntry {
                at: span.at,
                read: cie::cie_of(section, span.at, span.stop, next),
            })
        }
    }
}

// What was read of the CIE that begins at a place of the section.
#[tactic(auto, using(crate::proofs::Linked::find_link))]
fn cie_at_link(
    entries: &[CieEntry<'static>],
    link: u32,
) -> Option<Result<CiePart<'static>, Refusal>>
    requires { (n : ℕ) × RisesBy (λ e. e.at) n entries.now }
    ensures ready { (bytes : List ℕ) (part : Part) → AreReadyEntries bytes part entries.now → IfSome result (IsReadyRead bytes part) }
    ensures read { (part : Part) → option_map (result_seen (cie_seen part)) result ≡ cie_at_link (entries_seen part entries.now) link }
{
    let entry = entry_at(entries, link as u128)?;
    Some(entry.read)
}

// What the CIE of a part says.
fn cie_said(section: &Segment, span: Span, next: usize) -> Said<'static>
    requires stop { span.stop ≤ length section.now.bytes.items }
    requires next { next ≤ span.stop }
    ensures ready { IsReadySaid section.now.bytes.items (part_of section.now) result }
    ensures said { said_seen (part_of section.now) result ≡ cie_said (debug_cie_at (part_of section.now) span.at span.stop next) }
{
    match cie::cie_of(section, span.at, span.stop, next) {
        Ok(cie) => Said::Cie(cie),
        Err(e) => Said::Refused(e),
    }
}

// What an FDE says whose CIE is refused.
fn orphan_said(section: &Segment, span: Span, next: usize) -> Said<'static>
    requires stop { span.stop ≤ length section.now.bytes.items }
    requires next { next ≤ span.stop }
    ensures ready { IsReadySaid section.now.bytes.items (part_of section.now) result }
    ensures said { said_seen (part_of section.now) result ≡ orphan_said (orphan_at (part_of section.now) span.stop next) }
{
    match orphan_of(section, span.stop, next) {
        Ok(_) => Said::Unread,
        Err(e) => Said::Refused(e),
    }
}

// What an FDE says whose link is read.
fn fde_said(
    section: &Segment,
    entries: &[CieEntry<'static>],
    span: Span,
    link: u32,
    next: usize,
) -> Said<'static>
    requires stop { span.stop ≤ length section.now.bytes.items }
    requires next { next ≤ span.stop }
    requires ready { AreReadyEntries section.now.bytes.items (part_of section.now) entries.now }
    requires rises { (n : ℕ) × RisesBy (λ e. e.at) n entries.now }
    ensures ready { IsReadySaid section.now.bytes.items (part_of section.now) result }
    ensures said { said_seen (part_of section.now) result ≡ fde_linked (part_of section.now) (span_seen span) next (cie_at_link (entries_seen (part_of section.now) entries.now) link) }
{
    match cie_at_link(entries, link) {
        None => Said::Refused(refused(
            Reason::CieLink,
            section.file_at as u128 + span.at as u128 + 4,
        )),
        Some(Err(_)) => orphan_said(section, span, next),
        Some(Ok(cie)) => match fde_of(&cie, section, span.at, span.stop, next) {
            Ok(fde) => Said::Fde(fde, cie),
            Err(e) => Said::Refused(e),
        },
    }
}

/// What a part says, where these are all CIEs.
#[tactic(auto, unfolding(crate::specs::DebugParts::debug_says))]
pub fn said_by(section: &Segment, entries: &[CieEntry<'static>], span: Span) -> Said<'static>
    requires inside { IsInside (length section.now.bytes.items) span }
    requires ready { AreReadyEntries section.now.bytes.items (part_of section.now) entries.now }
    requires rises { (n : ℕ) × RisesBy (λ e. e.at) n entries.now }
    ensures ready { IsReadySaid section.now.bytes.items (part_of section.now) result }
    ensures said { said_seen (part_of section.now) result ≡ debug_says (part_of section.now) (entries_seen (part_of section.now) entries.now) (span_seen span) }
{
    match u32_at(section, span.stop, span.at + 4) {
        Err(e) => Said::Refused(e),
        Ok((link, next)) => {
            if link == CIE_ID {
                cie_said(section, span, next)
            } else {
                fde_said(section, entries, span, link, next)
            }
        }
    }
}

// The region of an FDE, whose link is read.
fn region_linked(
    section: &Segment,
    entries: &[CieEntry<'static>],
    span: Span,
    link: u32,
    next: usize,
) -> Option<Region64>
    requires stop { span.stop ≤ length section.now.bytes.items }
    requires next { next ≤ span.stop }
    requires rises { (n : ℕ) × RisesBy (λ e. e.at) n entries.now }
    ensures region { option_map (λ r. (span.at, r)) result ≡ region_linked (part_of section.now) (span_seen span) next (cie_at_link (entries_seen (part_of section.now) entries.now) link) }
{
    match cie_at_link(entries, link) {
        None => None,
        Some(_) => match region_of(section, span.stop, next) {
            Ok((region, _)) => Some(region),
            Err(_) => None,
        },
    }
}

/// The region of a part, as soon as it can be read.
pub fn region_in(section: &Segment, entries: &[CieEntry<'static>], span: Span) -> Option<Region64>
    requires inside { IsInside (length section.now.bytes.items) span }
    requires rises { (n : ℕ) × RisesBy (λ e. e.at) n entries.now }
    ensures region { option_map (λ r. (span.at, r)) result ≡ region_of (part_of section.now) (entries_seen (part_of section.now) entries.now) (span_seen span) (link_at (part_of section.now) (span_seen span)) }
{
    match u32_at(section, span.stop, span.at + 4) {
        Err(_) => None,
        Ok((link, next)) => {
            if link == CIE_ID {
                return None;
            }
            region_linked(section, entries, span, link, next)
        }
    }
}
