// Fields of the frames, which lie in a segment before a stop; a refusal stands at the field.
ghost use Rattle.std.specs.Prelude.{◌≡◌, ◌+◌, ◌<◌, ◌≤◌, vec_len, IfOk};
ghost use Rattle.std.specs.Int.{w8, w16, w32, w64};
ghost use Rattle.eh_bytes.specs.Memory.{part_of};
ghost use Rattle.eh_bytes.specs.Field.{byte, fixed};
ghost use Rattle.eh_bytes.specs.Leb128.{uleb, sleb};
ghost use Rattle.eh_bytes.specs.Encoded.{encoded};
ghost use Rattle.table_forms.specs.Instruction.{in_frames};
ghost use Rattle.frame_read.specs.Reads.{Reads};

use crate::refusal::field_refusal;
use eh_bytes::{ByteError, Pointer, RawCursor, Segment, u16_from, u32_from, u64_from};
use table_forms::Refusal;

/// The byte at a place, and the place behind it.
pub fn byte_at(segment: &Segment, stop: usize, place: usize) -> Result<(u8, usize), Refusal>
    requires stop { stop ≤ vec_len segment.now.bytes }
    requires place { place ≤ stop }
    ensures reads { Reads (λ x. x) result (in_frames byte (part_of segment.now) stop place) }
    ensures next { IfOk result (λ x. x.1 ≡ place + 1) }
    ensures inside { IfOk result (λ x. x.1 ≤ stop) }
    ensures on { IfOk result (λ x. place < x.1) }
{
    let mut cursor = RawCursor::new(&segment.bytes[..stop], place);
    match cursor.take_u8() {
        Ok(value) => Ok((value, cursor.position())),
        Err(cause) => Err(field_refusal(cause, segment.file_at as u128 + place as u128)),
    }
}

/// The ULEB128 number at a place, and the place behind it.
pub fn uleb_at(segment: &Segment, stop: usize, place: usize) -> Result<(u64, usize), Refusal>
    requires stop { stop ≤ vec_len segment.now.bytes }
    requires place { place ≤ stop }
    ensures reads { Reads (λ x. x) result (in_frames uleb (part_of segment.now) stop place) }
    ensures inside { IfOk result (λ x. x.1 ≤ stop) }
    ensures on { IfOk result (λ x. place < x.1) }
{
    let mut cursor = RawCursor::new(&segment.bytes[..stop], place);
    match cursor.take_uleb() {
        Ok(value) => Ok((value, cursor.position())),
        Err(cause) => Err(field_refusal(cause, segment.file_at as u128 + place as u128)),
    }
}

/// The SLEB128 number at a place, and the place behind it.
pub fn sleb_at(segment: &Segment, stop: usize, place: usize) -> Result<(i64, usize), Refusal>
    requires stop { stop ≤ vec_len segment.now.bytes }
    requires place { place ≤ stop }
    ensures reads { Reads (λ x. x) result (in_frames sleb (part_of segment.now) stop place) }
    ensures inside { IfOk result (λ x. x.1 ≤ stop) }
    ensures on { IfOk result (λ x. place < x.1) }
{
    let mut cursor = RawCursor::new(&segment.bytes[..stop], place);
    match cursor.take_sleb() {
        Ok(value) => Ok((value, cursor.position())),
        Err(cause) => Err(field_refusal(cause, segment.file_at as u128 + place as u128)),
    }
}

/// The encoded pointer at a place of the segment, and the place behind it.
pub fn encoded_at(
    encoding: u8,
    segment: &Segment,
    stop: usize,
    place: usize,
) -> Result<(Pointer, usize), Refusal>
    requires stop { stop ≤ vec_len segment.now.bytes }
    requires place { place ≤ stop }
    ensures reads { Reads (λ x. x) result (in_frames (encoded encoding ((part_of segment.now).address + place)) (part_of segment.now) stop place) }
    ensures inside { IfOk result (λ x. x.1 ≤ stop) }
    ensures on { IfOk result (λ x. place < x.1) }
{
    let mut cursor = RawCursor::new(&segment.bytes[..stop], place);
    match cursor.take_encoded(encoding, segment.address) {
        Ok(value) => Ok((value, cursor.position())),
        Err(cause) => Err(field_refusal(cause, segment.file_at as u128 + place as u128)),
    }
}

/// The number of two bytes at a place, and the place behind it.
pub fn u16_at(segment: &Segment, stop: usize, place: usize) -> Result<(u16, usize), Refusal>
    requires stop { stop ≤ vec_len segment.now.bytes }
    requires place { place ≤ stop }
    ensures reads { Reads (λ x. x) result (in_frames (fixed w16) (part_of segment.now) stop place) }
    ensures inside { IfOk result (λ x. x.1 ≤ stop) }
    ensures on { IfOk result (λ x. place < x.1) }
{
    let rest = &segment.bytes[..stop][place..];
    if rest.len() < 2 {
        return Err(field_refusal(
            ByteError::Truncated,
            segment.file_at as u128 + place as u128,
        ));
    }
    Ok((u16_from(rest), place + 2))
}

/// The number of four bytes at a place, and the place behind it.
pub fn u32_at(segment: &Segment, stop: usize, place: usize) -> Result<(u32, usize), Refusal>
    requires stop { stop ≤ vec_len segment.now.bytes }
    requires place { place ≤ stop }
    ensures reads { Reads (λ x. x) result (in_frames (fixed w32) (part_of segment.now) stop place) }
    ensures next { IfOk result (λ x. x.1 ≡ place + 4) }
    ensures inside { IfOk result (λ x. x.1 ≤ stop) }
    ensures on { IfOk result (λ x. place < x.1) }
{
    let rest = &segment.bytes[..stop][place..];
    if rest.len() < 4 {
        return Err(field_refusal(
            ByteError::Truncated,
            segment.file_at as u128 + place as u128,
        ));
    }
    Ok((u32_from(rest), place + 4))
}

/// The number of one byte at a place, and the place behind it.
pub fn u8_at(segment: &Segment, stop: usize, place: usize) -> Result<(u8, usize), Refusal>
    requires stop { stop ≤ vec_len segment.now.bytes }
    requires place { place ≤ stop }
    ensures reads { Reads (λ x. x) result (in_frames (fixed w8) (part_of segment.now) stop place) }
    ensures inside { IfOk result (λ x. x.1 ≤ stop) }
    ensures on { IfOk result (λ x. place < x.1) }
{
    let rest = &segment.bytes[..stop][place..];
    if rest.is_empty() {
        return Err(field_refusal(
            ByteError::Truncated,
            segment.file_at as u128 + place as u128,
        ));
    }
    Ok((rest[0], place + 1))
}

/// The number of eight bytes at a place, and the place behind it.
pub fn u64_at(segment: &Segment, stop: usize, place: usize) -> Result<(u64, usize), Refusal>
    requires stop { stop ≤ vec_len segment.now.bytes }
    requires place { place ≤ stop }
    ensures reads { Reads (λ x. x) result (in_frames (fixed w64) (part_of segment.now) stop place) }
    ensures inside { IfOk result (λ x. x.1 ≤ stop) }
    ensures on { IfOk result (λ x. place < x.1) }
{
    let rest = &segment.bytes[..stop][place..];
    if rest.len() < 8 {
        return Err(field_refusal(
            ByteError::Truncated,
            segment.file_at as u128 + place as u128,
        ));
    }
    Ok((u64_from(rest), place + 8))
}
