// The parts of .eh_frame, one after the other.
ghost use Rattle.std.specs.Prelude.{ℕ, ◌≡◌, ◌+◌, ◌<◌, ◌≤◌, ◌^◌, [], ◌∷◌, All, IfOk, OnOk, length, option_map};
ghost use Rattle.eh_bytes.specs.Memory.{Part, part_of};
ghost use Rattle.table_forms.specs.Parts.{cies_of, parts_at};
ghost use Rattle.table_forms.specs.Seen.{fault_of};
ghost use Rattle.frame_read.specs.Sweep.{meets_at};
ghost use Rattle.frame_read.specs.Whole.{whole, whole_seen};
ghost use Rattle.frame_read.specs.SeenCie.{cie_seen};
ghost use Rattle.frame_read.specs.SeenFde.{fde_seen};
ghost use Rattle.frame_read.specs.SeenSpan.{spans_seen, IsInside};
ghost use Rattle.frame_read.specs.SeenPart.{entries_seen, said_seen};
ghost use Rattle.frame_read.specs.SeenParts.{parts_seen, placed_seen, IsAt};
ghost use Rattle.frame_read.specs.Rises.{RisesBy};
ghost use Rattle.frame_read.specs.Listed.{cie_listed, fde_listed};
ghost use Rattle.frame_read.specs.Gathered.{nothing, and_said, and_region, gathered};

use crate::cie_part::CiePart;
use crate::entry::{CieEntry, Said};
use crate::fde_part::FdePart;
use crate::gather::{PartsRead, Placed};
use crate::listed::{Augmentation, Cie, Fde};
use crate::overlap::first_overlap;
use crate::part::{cie_entry, region_in, said_by};
use crate::span::Span;
use crate::spans::spans_of;
use eh_bytes::{Region64, Segment};
use std::alloc::{AllocError, Global};
use table_forms::{Reason, Refusal, joined, refused};

// A CIE as it is listed.
fn listed_cie(alloc: Global, segment: &Segment, cie: &CiePart<'_>) -> Result<Cie, AllocError>
    requires range { segment.now.file_at + length segment.now.bytes.items < 2 ^ 64 }
    requires inside { cie.now.at ≤ length segment.now.bytes.items }
    ensures { IfOk result (λ c. c ≡ cie_listed (cie_seen (part_of segment.now) cie.now)) }
{
    Ok(Cie {
        version: cie.version,
        augmentation: Augmentation::new(cie.augmentation.to_vec(alloc)?),
        code_factor: cie.coding.code_factor,
        data_factor: cie.coding.data_factor,
        return_register: cie.return_register,
        place: segment.file_at + cie.at as u64,
    })
}

// An FDE as it is listed.
fn listed_fde(segment: &Segment, cie: &CiePart<'_>, fde: &FdePart) -> Fde
    requires range { segment.now.file_at + length segment.now.bytes.items < 2 ^ 64 }
    requires extent { segment.now.address + length segment.now.bytes.items ≤ 2 ^ 64 }
    requires inside { fde.now.at < length segment.now.bytes.items }
    ensures { result ≡ fde_listed (fde_seen (part_of segment.now) (cie_seen (part_of segment.now) cie.now) fde.now) }
{
    Fde {
        region: fde.region,
        lsda: fde.lsda,
        signal: cie.signal,
        return_register: cie.return_register,
        place: segment.file_at + fde.at as u64,
        address: segment.address + fde.at as u64,
    }
}

impl PartsRead {
    /// Nothing, of which nothing is refused.
    #[tactic(auto, unfolding(table_forms::specs::Fault::least))]
    pub(crate) fn nothing(alloc: Global) -> PartsRead
        ensures parts { parts_seen result ≡ nothing }
        ensures whole { whole_seen result ≡ whole (record { cies = []; fdes = []; faults = [] }) }
    {
        PartsRead {
            cies: Vec::new(alloc),
            fdes: Vec::new(alloc),
            regions: Vec::new(alloc),
            least: None,
        }
    }

    /// Nothing but a refusal.
    #[tactic(auto, unfolding(table_forms::specs::Fault::least))]
    pub(crate) fn refused(alloc: Global, refusal: Refusal) -> PartsRead
        ensures { whole_seen result ≡ whole (record { cies = []; fdes = []; faults = fault_of refusal ∷ [] }) }
    {
        PartsRead {
            cies: Vec::new(alloc),
            fdes: Vec::new(alloc),
            regions: Vec::new(alloc),
            least: Some(refusal),
        }
    }

    // And what one more part says.
    fn adds(
        &mut self,
        alloc: Global,
        segment: &Segment,
        at: usize,
        said: Said<'_>,
    ) -> Result<(), AllocError>
        requires range { segment.now.file_at + length segment.now.bytes.items < 2 ^ 64 }
        requires extent { segment.now.address + length segment.now.bytes.items ≤ 2 ^ 64 }
        requires inside { at < length segment.now.bytes.items }
        requires at { IsAt at said }
        ensures { OnOk result (parts_seen self.new ≡ and_said (parts_seen self.old) (said_seen (part_of segment.now) said.entry)) }
    {
        match said {
            Said::Refused(e) => self.least = joined(self.least, Some(e)),
            Said::Cie(cie) => self.cies.push(listed_cie(alloc, segment, &cie)?)?,
            Said::Fde(fde, cie) => self.fdes.push(listed_fde(segment, &cie, &fde))?,
            Said::Unread => {}
        }
        Ok(())
    }

    // And its region.
    fn adds_region(&mut self, at: usize, region: Option<Region64>) -> Result<(), AllocError>
        ensures { OnOk result (parts_seen self.new ≡ and_region (parts_seen self.old) (option_map (λ r. (at, r)) region)) }
    {
        if let Some(region) = region {
            self.regions.push(Placed { at, region })?;
        }
        Ok(())
    }
}

/// The CIEs among the parts.
pub fn cies_of<'a>(
    alloc: Global,
    segment: &'a Segment,
    spans: &[Span],
) -> Result<Vec<CieEntry<'a>>, AllocError>
    requires { All (IsInside (length segment.now.bytes.items)) spans.now }
    ensures { IfOk result (λ entries. entries_seen (part_of segment.now) entries.items ≡ cies_of (part_of segment.now) (spans_seen spans.now)) }
{
    let mut entries = Vec::new(alloc);
    let mut rest = spans;
    'spans: loop {
        match rest.split_first() {
            None => return Ok(entries),
            Some((span, others)) => {
                if let Some(entry) = cie_entry(segment, *span) {
                    entries.push(entry)?;
                }
                rest = others;
            }
        }
    }
}

/// What the parts say, where these are all CIEs.
pub fn parts_of<'a>(
    alloc: Global,
    segment: &'a Segment,
    entries: &[CieEntry<'a>],
    spans: &[Span],
) -> Result<PartsRead, AllocError>
    requires range { segment.now.file_at + length segment.now.bytes.items < 2 ^ 64 }
    requires extent { segment.now.address + length segment.now.bytes.items ≤ 2 ^ 64 }
    requires inside { All (IsInside (length segment.now.bytes.items)) spans.now }
    requires rises { (n : ℕ) × RisesBy (λ e. e.at) n entries.now }
    ensures { IfOk result (λ parts. parts_seen parts ≡ gathered (part_of segment.now) (entries_seen (part_of segment.now) entries.now) nothing (spans_seen spans.now)) }
{
    let mut parts = PartsRead::nothing(alloc);
    let mut rest = spans;
    'spans: while let Some((span, others)) = rest.split_first() {
        let said = said_by(segment, entries, *span);
        parts.adds(alloc, segment, span.at, said)?;
        parts.adds_region(span.at, region_in(segment, entries, *span))?;
        rest = others;
    }
    Ok(parts)
}

// The refusal of the first overlap, in a segment whose bytes lie here in the file.
fn overlap_refusal(file_at: u64, place: Option<usize>) -> Option<Refusal>
    ensures { (part : Part) → part.file_at ≡ file_at → option_map fault_of result ≡ option_map (meets_at part) place }
{
    let at = place?;
    Some(refused(Reason::Overlap, file_at as u128 + at as u128))
}

/// What all parts from a place on say.
pub fn parts_from(alloc: Global, segment: &Segment, place: usize) -> Result<PartsRead, AllocError>
    requires range { segment.now.file_at + length segment.now.bytes.items < 2 ^ 64 }
    requires extent { segment.now.address + length segment.now.bytes.items ≤ 2 ^ 64 }
    requires place { place ≤ length segment.now.bytes.items }
    ensures { IfOk result (λ parts. whole_seen parts ≡ whole (parts_at (part_of segment.now) place)) }
{
    let (spans, cut) = spans_of(alloc, segment, place)?;
    let entries = cies_of(alloc, segment, &spans)?;
    let mut parts = parts_of(alloc, segment, &entries, &spans)?;
    let overlap = first_overlap(&mut parts.regions)?;
    let refusal = joined(cut, parts.least);
    parts.least = joined(refusal, overlap_refusal(segment.file_at, overlap));
    Ok(parts)
}
