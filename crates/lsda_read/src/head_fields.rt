// The head of a table.
ghost use Rattle.std.specs.Prelude.{◌≡◌, ◌+◌, ◌<◌, ◌≤◌, ◌&&◌, IfOk, is_some, vec_len, IfSome, Some};
ghost use Rattle.eh_bytes.specs.Memory.{part_of};
ghost use Rattle.eh_bytes.specs.Encoded.{encoding_format, format_size};
ghost use Rattle.table_forms.specs.LsdaHead.{head_at, pads_start, type_table};
ghost use Rattle.lsda_read.specs.Reads.{Reads};
ghost use Rattle.lsda_read.specs.Heads.{head_seen, types_seen};

use crate::field::{byte_at, encoded_at, uleb_at};
use crate::head::{Head, Types};
use eh_bytes::{Region64, Segment};
use table_forms::{Reason, Refusal, refused};

// Whether it is an encoding.
fn is_encoding(encoding: u8) -> bool
    ensures { result ≡ is_some (encoding_format encoding) }
{
    encoding / 16 % 8 < 2 && (encoding % 16 <= 4 || encoding % 16 >= 9 && encoding % 16 <= 12)
}

// How many bytes an entry of fixed size has.
fn size_of(encoding: u8) -> Option<u8>
    ensures size { result ≡ format_size (encoding_format encoding) }
    ensures small { IfSome result (λ n. n ≤ 8) }
{
    if encoding / 16 % 8 >= 2 {
        return None;
    }
    match encoding % 16 {
        0 | 4 | 12 => Some(8),
        2 | 10 => Some(2),
        3 | 11 => Some(4),
        _ => None,
    }
}

// The address from which pads count, and the place behind its field.
#[tactic(auto, unfolding(table_forms::specs::LsdaHead::pads_start))]
fn pads_from(
    segment: &Segment,
    region: Region64,
    encoding: u8,
    place: usize,
) -> Result<(u64, usize), Refusal>
    requires { place < vec_len segment.now.bytes }
    ensures reads { Reads (λ x. x) result (pads_start (part_of segment.now) region encoding place) }
    ensures inside { IfOk result (λ x. x.1 ≤ vec_len segment.now.bytes) }
{
    if encoding == 255 {
        return Ok((region.start, place + 1));
    }
    if encoding >= 128 || !is_encoding(encoding) {
        return Err(refused(Reason::Encoding, segment.file_at as u128 + place as u128));
    }
    let bytes = segment.bytes.as_slice();
    let (pointer, next) = encoded_at(encoding, segment.address, bytes, segment.file_at, place + 1)?;
    Ok((pointer.value, next))
}

// Where the types lie, and the place behind their fields.
#[tactic(auto, unfolding(table_forms::specs::LsdaHead::type_table))]
fn types_of(
    segment: &Segment,
    encoding: u8,
    place: usize,
) -> Result<(Option<Types>, usize), Refusal>
    requires { place < vec_len segment.now.bytes }
    ensures reads { Reads types_seen result (type_table (part_of segment.now) encoding place) }
    ensures inside { IfOk result (λ x. x.1 ≤ vec_len segment.now.bytes) }
{
    if encoding == 255 {
        return Ok((None, place + 1));
    }
    let Some(size) = size_of(encoding) else {
        return Err(refused(Reason::Encoding, segment.file_at as u128 + place as u128));
    };
    let (offset, next) = uleb_at(segment.bytes.as_slice(), segment.file_at, place + 1)?;
    Ok((
        Some(Types {
            base: next as u128 + offset as u128,
            encoding,
            size,
        }),
        next,
    ))
}

/// The head at a place of the segment's bytes.
#[tactic(auto, unfolding(table_forms::specs::LsdaHead::head_at))]
pub fn head_of(segment: &Segment, region: Region64, place: usize) -> Result<Head, Refusal>
    requires { place ≤ vec_len segment.now.bytes }
    ensures reads { Reads head_seen result (head_at (part_of segment.now) region place) }
    ensures inside { IfOk result (λ h. h.sites_at ≤ vec_len segment.now.bytes) }
{
    let bytes = segment.bytes.as_slice();
    let (start_encoding, _) = byte_at(bytes, segment.file_at, place)?;
    let (pads_from, next) = pads_from(segment, region, start_encoding, place)?;
    let (type_encoding, _) = byte_at(bytes, segment.file_at, next)?;
    let (types, next) = types_of(segment, type_encoding, next)?;
    let (site_encoding, behind) = byte_at(bytes, segment.file_at, next)?;
    if site_encoding >= 16 || !is_encoding(site_encoding) {
        return Err(refused(Reason::Encoding, segment.file_at as u128 + next as u128));
    }
    let (size, sites_at) = uleb_at(bytes, segment.file_at, behind)?;
    let actions_at = sites_at as u128 + size as u128;
    Ok(Head {
        pads_from,
        types,
        site_encoding,
        sites_at,
        actions_at,
    })
}
