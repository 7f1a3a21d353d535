// Frame description entries of .debug_frame (DWARF 5, 6.4.1).
ghost use Rattle.std.specs.Prelude.{◌≡◌, ◌+◌, ◌^◌, ◌<◌, ◌≤◌, vec_len, true, IfOk, IsOk};
ghost use Rattle.eh_bytes.specs.Memory.{part_of};
ghost use Rattle.table_forms.specs.Instructions.{instructions_at};
ghost use Rattle.frame_read.specs.Reads.{Reads};
ghost use Rattle.frame_read.specs.Seen.{coding_seen};
ghost use Rattle.frame_read.specs.SeenCie.{cie_seen};
ghost use Rattle.frame_read.specs.SeenFde.{fde_seen};
ghost use Rattle.debug_frames.specs.DebugFde.{debug_region_at, debug_fde_at, walked_within, orphan_at};

use eh_bytes::{Region64, Segment};
use frame_read::cie_part::CiePart;
use frame_read::fde_part::FdePart;
use frame_read::field::u64_at;
use frame_read::instruction::Coding;
use frame_read::states::instructions_of;
use frame_read::step::instruction_of;
use table_forms::{Reason, Refusal, refused};

/// The region of an FDE whose location stands at a place, and the place behind it.
#[tactic(auto, unfolding(crate::specs::DebugFde::debug_region_at))]
pub fn region_of(section: &Segment, stop: usize, place: usize) -> Result<(Region64, usize), Refusal>
    requires stop { stop ≤ vec_len section.now.bytes }
    requires place { place ≤ stop }
    ensures reads { Reads (λ x. x) result (debug_region_at (part_of section.now) stop place) }
    ensures inside { IfOk result (λ x. x.1 ≤ stop) }
    ensures fits { IfOk result (λ x. x.0.start + x.0.length < 2 ^ 64) }
{
    let (start, behind) = u64_at(section, stop, place)?;
    let (length, next) = u64_at(section, stop, behind)?;
    if length > u64::MAX - start {
        return Err(refused(
            Reason::FrameTruncated,
            section.file_at as u128 + behind as u128,
        ));
    }
    Ok((Region64 { start, length }, next))
}

/// The FDE of a CIE whose length stands at `at`, and whose location at a place.
#[tactic(auto, unfolding(crate::specs::DebugFde::debug_fde_at))]
pub fn fde_of(
    cie: &CiePart<'_>,
    section: &Segment,
    at: usize,
    stop: usize,
    place: usize,
) -> Result<FdePart, Refusal>
    requires stop { stop ≤ vec_len section.now.bytes }
    requires place { place ≤ stop }
    ensures reads { Reads (fde_seen (part_of section.now) (cie_seen (part_of section.now) cie.now)) result (debug_fde_at (cie_seen (part_of section.now) cie.now) (part_of section.now) at stop place) }
    ensures at { IfOk result (λ f. f.at ≡ at) }
    ensures stop { IfOk result (λ f. f.stop ≡ stop) }
    ensures first { IfOk result (λ f. f.first ≤ stop) }
    ensures own { IfOk result (λ f. IsOk (instructions_at (coding_seen cie.now.coding) (part_of section.now) f.stop f.first cie.now.states)) }
    ensures fits { IfOk result (λ f. f.region.start + f.region.length < 2 ^ 64) }
{
    let (region, first) = region_of(section, stop, place)?;
    instructions_of(cie.coding, section, stop, first, cie.states)?;
    Ok(FdePart {
        at,
        region,
        lsda: 0,
        first,
        stop,
    })
}

// Whether instructions up to a stop can be read, whatever states they remember or restore.
fn walked(section: &Segment, stop: usize, first: usize) -> Result<bool, Refusal>
    requires stop { stop ≤ vec_len section.now.bytes }
    requires first { first ≤ stop }
    ensures { Reads (λ x. x) result (walked_within stop (part_of section.now) stop first) }
{
    let factors = Coding {
        code_factor: 0,
        data_factor: 0,
        encoding: 0,
    };
    let mut place = first;
    'instructions: while place < stop {
        match instruction_of(factors, section, stop, place) {
            Err(e) => return Err(e),
            Ok((_, next)) => place = next,
        }
    }
    Ok(true)
}

/// Whether an FDE can be read whose CIE is refused, as far as it does not depend on its CIE.
#[tactic(auto, unfolding(crate::specs::DebugFde::orphan_at))]
pub fn orphan_of(section: &Segment, stop: usize, place: usize) -> Result<bool, Refusal>
    requires stop { stop ≤ vec_len section.now.bytes }
    requires place { place ≤ stop }
    ensures { Reads (λ x. x) result (orphan_at (part_of section.now) stop place) }
{
    let (_, first) = region_of(section, stop, place)?;
    walked(section, stop, first)
}
