// The parts of .debug_frame, one after the other.
ghost use Rattle.std.specs.Prelude.{ℕ, List, ◌≡◌, ◌+◌, ◌*◌, ◌<◌, ◌≤◌, ◌^◌, [], ◌∷◌, All, IfOk, OnOk, length, option_map};
ghost use Rattle.eh_bytes.specs.Memory.{Part, part_of};
ghost use Rattle.frame_read.specs.Ready.{IsReady};
ghost use Rattle.frame_read.specs.Rises.{RisesBy};
ghost use Rattle.frame_read.specs.SeenPart.{entries_seen, said_seen};
ghost use Rattle.frame_read.specs.SeenSpan.{spans_seen, IsInside};
ghost use Rattle.frame_read.specs.Sweep.{meets_at};
ghost use Rattle.table_forms.specs.Seen.{fault_of};
ghost use Rattle.debug_frames.specs.DebugParts.{debug_cies, debug_frames_in};
ghost use Rattle.debug_frames.specs.Gathered.{nothing, and_said, and_region, gathered, parts_seen, answered};
ghost use Rattle.debug_frames.specs.ReadySaid.{IsReadySaid, AreReadyEntries};

use crate::gather::PartsRead;
use crate::part::{cie_entry, region_in, said_by};
use crate::spans::spans_of;
use eh_bytes::{Region64, Segment};
use frame_read::entry::{CieEntry, Said};
use frame_read::gather::Placed;
use frame_read::lookup::FdeHere;
use frame_read::overlap::first_overlap;
use frame_read::span::Span;
use std::alloc::{AllocError, Global};
use table_forms::{Reason, Refusal, joined, refused};

impl PartsRead {
    // Nothing, of which nothing is refused.
    fn nothing(alloc: Global) -> PartsRead
        ensures parts { (part : Part) → parts_seen part result ≡ nothing }
        ensures none { result.fdes.items ≡ [] }
    {
        PartsRead {
            cies: Vec::new(alloc),
            fdes: Vec::new(alloc),
            regions: Vec::new(alloc),
            least: None,
        }
    }

    // And what one more part says.
    fn adds(&mut self, said: Said<'static>) -> Result<(), AllocError>
        ensures seen { (part : Part) → OnOk result (parts_seen part self.new ≡ and_said (parts_seen part self.old) (said_seen part said.entry)) }
        ensures ready { (bytes : List ℕ) (part : Part) → All (IsReady bytes part) self.old.fdes.items → IsReadySaid bytes part said.entry → OnOk result (All (IsReady bytes part) self.new.fdes.items) }
        ensures few { OnOk result (length self.new.fdes.items ≤ length self.old.fdes.items + 1) }
    {
        match said {
            Said::Refused(e) => self.least = joined(self.least, Some(e)),
            Said::Cie(cie) => self.cies.push(cie)?,
            Said::Fde(fde, cie) => self.fdes.push(FdeHere { cie, fde })?,
            Said::Unread => {}
        }
        Ok(())
    }

    // And its region.
    fn adds_region(&mut self, at: usize, region: Option<Region64>) -> Result<(), AllocError>
        ensures seen { (part : Part) → OnOk result (parts_seen part self.new ≡ and_region (parts_seen part self.old) (option_map (λ r. (at, r)) region)) }
        ensures fdes { self.new.fdes.items ≡ self.old.fdes.items }
    {
        if let Some(region) = region {
            self.regions.push(Placed { at, region })?;
        }
        Ok(())
    }
}

// The CIEs among the parts.
fn cies_of(
    alloc: Global,
    section: &Segment,
    spans: &[Span],
) -> Result<Vec<CieEntry<'static>>, AllocError>
    requires { All (IsInside (length section.now.bytes.items)) spans.now }
    ensures read { IfOk result (λ entries. entries_seen (part_of section.now) entries.items ≡ debug_cies (part_of section.now) (spans_seen spans.now)) }
    ensures ready { IfOk result (λ entries. AreReadyEntries section.now.bytes.items (part_of section.now) entries.items) }
{
    let mut entries = Vec::new(alloc);
    let mut rest = spans;
    'spans: loop {
        match rest.split_first() {
            None => return Ok(entries),
            Some((span, others)) => {
                if let Some(entry) = cie_entry(section, *span) {
                    entries.push(entry)?;
                }
                rest = others;
            }
        }
    }
}

// What the parts say, where these are all CIEs.
fn parts_of(
    alloc: Global,
    section: &Segment,
    entries: &[CieEntry<'static>],
    spans: &[Span],
) -> Result<PartsRead, AllocError>
    requires inside { All (IsInside (length section.now.bytes.items)) spans.now }
    requires ready { AreReadyEntries section.now.bytes.items (part_of section.now) entries.now }
    requires rises { (n : ℕ) × RisesBy (λ e. e.at) n entries.now }
    ensures seen { IfOk result (λ parts. parts_seen (part_of section.now) parts ≡ gathered (part_of section.now) (entries_seen (part_of section.now) entries.now) nothing (spans_seen spans.now)) }
    ensures ready { IfOk result (λ parts. All (IsReady section.now.bytes.items (part_of section.now)) parts.fdes.items) }
    ensures few { IfOk result (λ parts. length parts.fdes.items ≤ length spans.now) }
{
    let mut parts = PartsRead::nothing(alloc);
    let mut rest = spans;
    'spans: while let Some((span, others)) = rest.split_first() {
        parts.adds(said_by(section, entries, *span))?;
        parts.adds_region(span.at, region_in(section, entries, *span))?;
        rest = others;
    }
    Ok(parts)
}

// The refusal of the first overlap, in a section whose bytes lie here in the file.
fn overlap_refusal(file_at: u64, place: Option<usize>) -> Option<Refusal>
    ensures { (part : Part) → part.file_at ≡ file_at → option_map fault_of result ≡ option_map (meets_at part) place }
{
    let at = place?;
    Some(refused(Reason::Overlap, file_at as u128 + at as u128))
}

/// What all parts of a section say.
pub fn parts_from(alloc: Global, section: &Segment) -> Result<PartsRead, AllocError>
    ensures read { IfOk result (λ parts. debug_frames_in (part_of section.now) ≡ answered (parts_seen (part_of section.now) parts)) }
    ensures ready { IfOk result (λ parts. All (IsReady section.now.bytes.items (part_of section.now)) parts.fdes.items) }
    ensures few { IfOk result (λ parts. 4 * length parts.fdes.items ≤ length section.now.bytes.items) }
{
    let (spans, cut) = spans_of(alloc, section)?;
    let entries = cies_of(alloc, section, &spans)?;
    let mut parts = parts_of(alloc, section, &entries, &spans)?;
    let overlap = first_overlap(&mut parts.regions)?;
    let refusal = joined(cut, parts.least);
    parts.least = joined(refusal, overlap_refusal(section.file_at, overlap));
    Ok(parts)
}
