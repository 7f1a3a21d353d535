// Instructions that move the location (DWARF 5, 6.4.2.1).
ghost use Rattle.std.specs.Prelude.{◌≡◌, ◌≤◌, vec_len, IfOk};
ghost use Rattle.std.specs.Int.{w8, w16, w32};
ghost use Rattle.eh_bytes.specs.Memory.{part_of};
ghost use Rattle.table_forms.specs.Instruction.{goes_to, advances};
ghost use Rattle.frame_read.specs.Reads.{Reads};
ghost use Rattle.frame_read.specs.Seen.{coding_seen, step_seen};
ghost use Rattle.frame_read.specs.Fits.{Fits};

use crate::field::{encoded_at, u8_at, u16_at, u32_at};
use crate::instruction::{Coding, Instruction};
use eh_bytes::Segment;
use table_forms::Refusal;

/// To a location.
pub fn goes_to(
    coding: Coding,
    segment: &Segment,
    stop: usize,
    place: usize,
) -> Result<(Instruction, usize), Refusal>
    requires stop { stop ≤ vec_len segment.now.bytes }
    requires place { place ≤ stop }
    ensures reads { Reads step_seen result (goes_to (coding_seen coding) (part_of segment.now) stop place) }
    ensures fits { IfOk result (λ x. Fits x.0) }
    ensures inside { IfOk result (λ x. x.1 ≤ stop) }
    ensures on { IfOk result (λ x. place ≤ x.1) }
{
    let (pointer, next) = encoded_at(coding.encoding, segment, stop, place)?;
    Ok((Instruction::GoTo(pointer.value), next))
}

/// By a number of one byte.
pub fn advances_by_u8(
    coding: Coding,
    segment: &Segment,
    stop: usize,
    place: usize,
) -> Result<(Instruction, usize), Refusal>
    requires stop { stop ≤ vec_len segment.now.bytes }
    requires place { place ≤ stop }
    ensures reads { Reads step_seen result (advances w8 (coding_seen coding) (part_of segment.now) stop place) }
    ensures fits { IfOk result (λ x. Fits x.0) }
    ensures inside { IfOk result (λ x. x.1 ≤ stop) }
    ensures on { IfOk result (λ x. place ≤ x.1) }
{
    let (count, next) = u8_at(segment, stop, place)?;
    Ok((coding.advance(count as u32), next))
}

/// By a number of two bytes.
pub fn advances_by_u16(
    coding: Coding,
    segment: &Segment,
    stop: usize,
    place: usize,
) -> Result<(Instruction, usize), Refusal>
    requires stop { stop ≤ vec_len segment.now.bytes }
    requires place { place ≤ stop }
    ensures reads { Reads step_seen result (advances w16 (coding_seen coding) (part_of segment.now) stop place) }
    ensures fits { IfOk result (λ x. Fits x.0) }
    ensures inside { IfOk result (λ x. x.1 ≤ stop) }
    ensures on { IfOk result (λ x. place ≤ x.1) }
{
    let (count, next) = u16_at(segment, stop, place)?;
    Ok((coding.advance(count as u32), next))
}

/// By a number of four bytes.
pub fn advances_by_u32(
    coding: Coding,
    segment: &Segment,
    stop: usize,
    place: usize,
) -> Result<(Instruction, usize), Refusal>
    requires stop { stop ≤ vec_len segment.now.bytes }
    requires place { place ≤ stop }
    ensures reads { Reads step_seen result (advances w32 (coding_seen coding) (part_of segment.now) stop place) }
    ensures fits { IfOk result (λ x. Fits x.0) }
    ensures inside { IfOk result (λ x. x.1 ≤ stop) }
    ensures on { IfOk result (λ x. place ≤ x.1) }
{
    let (count, next) = u32_at(segment, stop, place)?;
    Ok((coding.advance(count), next))
}
