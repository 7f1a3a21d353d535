// Frame description entries (DWARF 5, 6.4.1; LSB Core, "The Frame Description Entry Format").
ghost use Rattle.std.specs.Prelude.{◌≡◌, ◌+◌, ◌%◌, ◌^◌, ◌<◌, ◌≤◌, vec_len, IfOk, IsOk};
ghost use Rattle.eh_bytes.specs.Memory.{part_of};
ghost use Rattle.eh_bytes.specs.Encoded.{encoded};
ghost use Rattle.table_forms.specs.Instruction.{in_frames};
ghost use Rattle.table_forms.specs.Fde.{region_at, lsda_pointer, lsda_at, fde_at};
ghost use Rattle.frame_read.specs.Reads.{Reads};
ghost use Rattle.table_forms.specs.Instructions.{Instructions, instructions_at};
ghost use Rattle.frame_read.specs.Seen.{coding_seen};
ghost use Rattle.frame_read.specs.Heads.{HeadReads, cie_with, fde_after};
ghost use Rattle.frame_read.specs.SeenCie.{cie_seen};
ghost use Rattle.frame_read.specs.SeenFde.{fde_seen};

use crate::cie_part::CiePart;
use crate::fde_part::FdePart;
use crate::field::encoded_at;
use crate::letters::sized_of;
use crate::states::instructions_of;
use eh_bytes::{Pointer, Region64, Segment};
use table_forms::{Reason, Refusal, refused};

// A number in the format of an encoding, which applies to no address.
fn length_at(
    encoding: u8,
    segment: &Segment,
    stop: usize,
    place: usize,
) -> Result<(Pointer, usize), Refusal>
    requires stop { stop ≤ vec_len segment.now.bytes }
    requires place { place ≤ stop }
    ensures reads { Reads (λ x. x) result (in_frames (encoded (encoding % 16) 0) (part_of segment.now) stop place) }
    ensures inside { IfOk result (λ x. x.1 ≤ stop) }
{
    encoded_at(encoding % 16, segment, stop, place)
}

/// The region of an FDE whose first location stands at a place, and the place behind it.
#[tactic(auto, unfolding(table_forms::specs::Fde::region_at))]
pub fn region_of(
    cie: &CiePart<'_>,
    segment: &Segment,
    stop: usize,
    place: usize,
) -> Result<(Region64, usize), Refusal>
    requires stop { stop ≤ vec_len segment.now.bytes }
    requires place { place ≤ stop }
    ensures reads { Reads (λ x. x) result (region_at (cie_seen (part_of segment.now) cie.now) (part_of segment.now) stop place) }
    ensures inside { IfOk result (λ x. x.1 ≤ stop) }
    ensures fits { IfOk result (λ x. x.0.start + x.0.length < 2 ^ 64) }
{
    let encoding = cie.coding.encoding;
    let (start, behind) = encoded_at(encoding, segment, stop, place)?;
    let (length, next) = length_at(encoding, segment, stop, behind)?;
    if length.value > u64::MAX - start.value {
        return Err(refused(
            Reason::FrameTruncated,
            segment.file_at as u128 + behind as u128,
        ));
    }
    let region = Region64 {
        start: start.value,
        length: length.value,
    };
    Ok((region, next))
}

// The address of the exception table, or 0.
fn lsda_pointer(
    encoding: Option<u8>,
    segment: &Segment,
    stop: usize,
    place: usize,
) -> Result<u64, Refusal>
    requires stop { stop ≤ vec_len segment.now.bytes }
    requires place { place ≤ stop }
    ensures reads { Reads (λ x. x) result (lsda_pointer encoding (part_of segment.now) stop place) }
{
    match encoding {
        None => Ok(0),
        Some(encoding) => {
            let (pointer, _) = encoded_at(encoding, segment, stop, place)?;
            Ok(pointer.value)
        }
    }
}

// The address of the exception table or 0, and the place of the instructions.
fn lsda_of(
    cie: &CiePart<'_>,
    segment: &Segment,
    stop: usize,
    place: usize,
) -> Result<(u64, usize), Refusal>
    requires stop { stop ≤ vec_len segment.now.bytes }
    requires place { place ≤ stop }
    ensures reads { Reads (λ x. x) result (lsda_at (cie_seen (part_of segment.now) cie.now).augmentation (cie_seen (part_of segment.now) cie.now) (part_of segment.now) stop place) }
    ensures inside { IfOk result (λ x. x.1 ≤ stop) }
{
    match cie.augmentation.split_first() {
        None => Ok((0, place)),
        Some(_) => {
            let (data, end) = sized_of(segment, stop, place)?;
            let lsda = lsda_pointer(cie.lsda_encoding, segment, end, data)?;
            Ok((lsda, end))
        }
    }
}

/// What stands before the instructions of the FDE of a CIE whose length stands at `at`, and whose
/// first location at a place. Its instructions are not read, nor need those of the CIE be.
#[tactic(auto, unfolding(table_forms::specs::Fde::fde_at, table_forms::specs::Fde::region_at))]
pub fn fde_head_of(
    cie: &CiePart<'_>,
    segment: &Segment,
    at: usize,
    stop: usize,
    place: usize,
) -> Result<FdePart, Refusal>
    requires stop { stop ≤ vec_len segment.now.bytes }
    requires place { place ≤ stop }
    ensures head { (is : Instructions) → HeadReads (fde_after (part_of segment.now) (cie_with (part_of segment.now) cie.now is)) result (fde_at (cie_with (part_of segment.now) cie.now is) (part_of segment.now) at stop place) }
    ensures at { IfOk result (λ f. f.at ≡ at) }
    ensures stop { IfOk result (λ f. f.stop ≡ stop) }
    ensures first { IfOk result (λ f. f.first ≤ stop) }
    ensures fits { IfOk result (λ f. f.region.start + f.region.length < 2 ^ 64) }
{
    let (region, next) = region_of(cie, segment, stop, place)?;
    let (lsda, first) = lsda_of(cie, segment, stop, next)?;
    Ok(FdePart {
        at,
        region,
        lsda,
        first,
        stop,
    })
}

/// The FDE of a CIE whose length stands at `at`, and whose first location at a place.
pub fn fde_of(
    cie: &CiePart<'_>,
    segment: &Segment,
    at: usize,
    stop: usize,
    place: usize,
) -> Result<FdePart, Refusal>
    requires stop { stop ≤ vec_len segment.now.bytes }
    requires place { place ≤ stop }
    ensures reads { Reads (fde_seen (part_of segment.now) (cie_seen (part_of segment.now) cie.now)) result (fde_at (cie_seen (part_of segment.now) cie.now) (part_of segment.now) at stop place) }
    ensures at { IfOk result (λ f. f.at ≡ at) }
    ensures stop { IfOk result (λ f. f.stop ≡ stop) }
    ensures first { IfOk result (λ f. f.first ≤ stop) }
    ensures own { IfOk result (λ f. IsOk (instructions_at (coding_seen cie.now.coding) (part_of segment.now) f.stop f.first cie.now.states)) }
    ensures fits { IfOk result (λ f. f.region.start + f.region.length < 2 ^ 64) }
{
    let fde = fde_head_of(cie, segment, at, stop, place)?;
    instructions_of(cie.coding, segment, fde.stop, fde.first, cie.states)?;
    Ok(fde)
}
