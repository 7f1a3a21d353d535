// What the letters of an augmentation say (LSB Core, "Augmentation String Format").
ghost use Rattle.std.specs.Prelude.{◌≡◌, ◌<◌, ◌≤◌, vec_len, is_some, IfOk};
ghost use Rattle.eh_bytes.specs.Memory.{part_of};
ghost use Rattle.eh_bytes.specs.Encoded.{encoding_format, is_direct};
ghost use Rattle.table_forms.specs.Cie.{direct_at, personality_at, letter_at, letters_at, sized_at, augmented, no_letters};
ghost use Rattle.frame_read.specs.Reads.{Reads};
ghost use Rattle.frame_read.specs.SeenCie.{letters_seen, lettered_seen};

use crate::augmentation::{Letters, NO_LETTERS};
use crate::field::{byte_at, encoded_at, uleb_at};
use eh_bytes::Segment;
use table_forms::{Reason, Refusal, refused};

// Whether it is an encoding.
fn is_encoding(encoding: u8) -> bool
    ensures { result ≡ is_some (encoding_format encoding) }
{
    encoding / 16 % 8 < 2 && (encoding % 16 <= 4 || encoding % 16 >= 9 && encoding % 16 <= 12)
}

// Whether its value is the address itself.
fn is_direct(encoding: u8) -> bool
    ensures { result ≡ is_direct encoding }
{
    encoding < 128 && is_encoding(encoding)
}

// The encoding that L or R has.
fn direct_of(segment: &Segment, stop: usize, place: usize) -> Result<(u8, usize), Refusal>
    requires stop { stop ≤ vec_len segment.now.bytes }
    requires place { place ≤ stop }
    ensures reads { Reads (λ x. x) result (direct_at (part_of segment.now) stop place) }
    ensures inside { IfOk result (λ x. x.1 ≤ stop) }
{
    let (encoding, next) = byte_at(segment, stop, place)?;
    if !is_direct(encoding) {
        return Err(refused(Reason::Encoding, segment.file_at as u128 + place as u128));
    }
    Ok((encoding, next))
}

// The place behind the encoding and the pointer that P has; the pointer is not followed.
#[tactic(auto, unfolding(table_forms::specs::Cie::personality_at))]
fn behind_personality(segment: &Segment, stop: usize, place: usize) -> Result<usize, Refusal>
    requires stop { stop ≤ vec_len segment.now.bytes }
    requires place { place ≤ stop }
    ensures reads { Reads (λ x. x) result (personality_at (part_of segment.now) stop place) }
    ensures inside { IfOk result (λ x. x ≤ stop) }
{
    let (encoding, next) = byte_at(segment, stop, place)?;
    if !is_encoding(encoding) {
        return Err(refused(Reason::Encoding, segment.file_at as u128 + place as u128));
    }
    let (_, next) = encoded_at(encoding, segment, stop, next)?;
    Ok(next)
}

// What the letters say with one more, and the place behind its data.
#[tactic(auto, unfolding(table_forms::specs::Cie::letter_at))]
fn with_letter(
    segment: &Segment,
    stop: usize,
    letter: u8,
    letters: Letters,
    place: usize,
) -> Result<(Letters, usize), Refusal>
    requires stop { stop ≤ vec_len segment.now.bytes }
    requires place { place ≤ stop }
    ensures reads { Reads lettered_seen result (letter_at (part_of segment.now) stop letter (letters_seen letters) place) }
    ensures inside { IfOk result (λ x. x.1 ≤ stop) }
{
    if letter == b'P' {
        let next = behind_personality(segment, stop, place)?;
        Ok((letters, next))
    } else if letter == b'L' {
        let (encoding, next) = direct_of(segment, stop, place)?;
        Ok((
            Letters {
                lsda_encoding: Some(encoding),
                encoding: letters.encoding,
                signal: letters.signal,
            },
            next,
        ))
    } else if letter == b'R' {
        let (encoding, next) = direct_of(segment, stop, place)?;
        Ok((
            Letters {
                lsda_encoding: letters.lsda_encoding,
                encoding,
                signal: letters.signal,
            },
            next,
        ))
    } else {
        Ok((
            Letters {
                lsda_encoding: letters.lsda_encoding,
                encoding: letters.encoding,
                signal: true,
            },
            place,
        ))
    }
}

// What letters say whose data stands at a place, in their order.
fn letters_of(
    segment: &Segment,
    stop: usize,
    names: &[u8],
    first: usize,
) -> Result<Letters, Refusal>
    requires stop { stop ≤ vec_len segment.now.bytes }
    requires first { first ≤ stop }
    ensures reads { Reads letters_seen result (letters_at (part_of segment.now) stop names.now no_letters first) }
{
    let mut letters = NO_LETTERS;
    let mut place = first;
    let mut rest = names;
    'letters: while let Some((letter, others)) = rest.split_first() {
        match with_letter(segment, stop, *letter, letters, place) {
            Err(e) => return Err(e),
            Ok((more, next)) => {
                letters = more;
                place = next;
                rest = others;
            }
        }
    }
    Ok(letters)
}

/// Where the data of z begins, behind its length, and where it ends.
#[tactic(auto, unfolding(table_forms::specs::Cie::sized_at))]
pub fn sized_of(segment: &Segment, stop: usize, place: usize) -> Result<(usize, usize), Refusal>
    requires stop { stop ≤ vec_len segment.now.bytes }
    requires place { place ≤ stop }
    ensures reads { Reads (λ x. x) result (sized_at (part_of segment.now) stop place) }
    ensures order { IfOk result (λ x. x.0 ≤ x.1) }
    ensures inside { IfOk result (λ x. x.1 ≤ stop) }
{
    let (size, next) = uleb_at(segment, stop, place)?;
    if size > (stop - next) as u64 {
        return Err(refused(
            Reason::FrameTruncated,
            segment.file_at as u128 + place as u128,
        ));
    }
    Ok((next, next + size as usize))
}

/// What an augmentation says whose data stands at a place, and the place behind that.
pub fn augmented(
    segment: &Segment,
    stop: usize,
    augmentation: &[u8],
    place: usize,
) -> Result<(Letters, usize), Refusal>
    requires stop { stop ≤ vec_len segment.now.bytes }
    requires place { place ≤ stop }
    ensures reads { Reads lettered_seen result (augmented (part_of segment.now) stop augmentation.now place) }
    ensures inside { IfOk result (λ x. x.1 ≤ stop) }
{
    match augmentation.split_first() {
        None => Ok((NO_LETTERS, place)),
        Some((_, names)) => {
            let (data, end) = sized_of(segment, stop, place)?;
            let letters = letters_of(segment, end, names, data)?;
            Ok((letters, end))
        }
    }
}
