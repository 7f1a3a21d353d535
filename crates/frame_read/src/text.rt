// Texts that end with a zero, and the letters of an augmentation.
ghost use Rattle.std.specs.Prelude.{◌≡◌, ◌+◌, ◌^◌, ◌<◌, ◌≤◌, vec_len, length, drop, take, IfOk, IfSome, option_map};
ghost use Rattle.eh_bytes.specs.Memory.{part_of};
ghost use Rattle.table_forms.specs.Instruction.{in_frames};
ghost use Rattle.table_forms.specs.Cie.{text, is_letter, first_wrong, wrong_letter};
ghost use Rattle.frame_read.specs.Reads.{Reads};
ghost use Rattle.frame_read.specs.Seen.{text_seen};
ghost use Rattle.frame_read.specs.Texts.{zero_in, not_letter_in};

use crate::refusal::field_refusal;
use eh_bytes::{ByteError, Segment};
use table_forms::Refusal;

// The bytes from a place up to a stop.
fn bytes_between(segment: &Segment, stop: usize, place: usize) -> &[u8]
    requires stop { stop ≤ vec_len segment.now.bytes }
    requires place { place ≤ stop }
    ensures bytes { result.now ≡ drop place (take stop segment.now.bytes.items) }
    ensures length { place + length result.now ≡ stop }
{
    &segment.bytes[..stop][place..]
}

// Where the first zero stands.
fn zero_in(bytes: &[u8]) -> Option<usize>
    ensures zero { result ≡ zero_in bytes.now }
    ensures inside { IfSome result (λ n. n < length bytes.now) }
{
    bytes.iter().position(|byte| *byte == 0)
}

/// The text at a place, and the place behind its zero.
#[tactic(auto, using(crate::proofs::Texts::text_found))]
pub fn text_at(segment: &Segment, stop: usize, place: usize) -> Result<(&[u8], usize), Refusal>
    requires stop { stop ≤ vec_len segment.now.bytes }
    requires place { place ≤ stop }
    ensures reads { Reads text_seen result (in_frames text (part_of segment.now) stop place) }
    ensures inside { IfOk result (λ x. x.1 ≤ stop) }
    ensures on { IfOk result (λ x. place < x.1) }
{
    let rest = bytes_between(segment, stop, place);
    match zero_in(rest) {
        None => Err(field_refusal(
            ByteError::Truncated,
            segment.file_at as u128 + place as u128,
        )),
        Some(length) => Ok((&rest[..length], place + (length + 1))),
    }
}

// Whether it is a letter with data behind z: P, L, R or S.
fn is_letter(byte: u8) -> bool
    ensures { result ≡ is_letter byte }
{
    matches!(byte, b'P' | b'L' | b'R' | b'S')
}

// Where the first byte stands that is none.
fn not_letter_in(bytes: &[u8]) -> Option<usize>
    ensures { result ≡ not_letter_in bytes.now }
{
    bytes.iter().position(|byte| !is_letter(*byte))
}

/// Where the first letter stands that is refused, in an augmentation at a place.
#[tactic(auto, using(crate::proofs::Texts::letters_found))]
pub fn wrong_letter(place: usize, augmentation: &[u8]) -> Option<u128>
    ensures wrong { result ≡ wrong_letter place augmentation.now }
    ensures near { IfSome result (λ p. p < 2 ^ 66) }
{
    let (first, letters) = augmentation.split_first()?;
    if *first != b'z' {
        return Some(place as u128);
    }
    let wrong = not_letter_in(letters)?;
    Some(place as u128 + 1 + wrong as u128)
}
