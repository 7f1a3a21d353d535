// What else is read of memory besides tables: the frames, their header, and words that entries name.
ghost use Rattle.std.specs.Prelude.{◌≡◌, ◌++◌, ◌+◌, ◌^◌, ◌<◌, ◌≤◌, ℕ, map, length, [], IfOk, OnOk, Ok, Some};
ghost use Rattle.std.specs.Int.{w32};
ghost use Rattle.eh_bytes.specs.Field.{byte, fixed};
ghost use Rattle.eh_bytes.specs.Encoded.{encoding_format, format_size};
ghost use Rattle.eh_bytes.specs.Memory.{memory_of, part_of, part_with};
ghost use Rattle.table_forms.specs.Frames as forms;
ghost use Rattle.table_forms.specs.Header.{header_at, in_header};
ghost use Rattle.elf_image.specs.Runnable.{frames_start};
ghost use Rattle.lsda_pack.specs.Extents.{size_by, size_counted, stop_within, word_at, words_by};
ghost use Rattle.lsda_pack.specs.Reaches.{extent_taken};
ghost use Rattle.lsda_pack.specs.SharedTables.{extent_at, extent_in, frames_end, frames_extent, frames_in, header_in, header_size};

use crate::NoMemory;
use crate::reach::Taken;
use eh_bytes::{RawCursor, Segment, Segments};
use elf_image::frames_start;
use frame_read::field::{byte_at, u32_at};
use std::alloc::Global;

// The bytes of a word.
const WORD: u128 = 8;
// The encoding of a header's count of rows, where it has a table (DW_EH_PE_udata4).
const COUNTED: u8 = 0x03;
// The bytes of a header without a table, of one with the count of its rows, and of a row.
const WITHOUT_COUNT: u128 = 8;

const WITH_COUNT: usize = 12;

const ROW: u128 = 8;

// Bytes of a segment from an address up to an end.
fn push_in(taken: &mut Vec<Taken>, segment: &Segment, first: u64, end: u128) -> Result<(), NoMemory>
    requires { segment.now.address ≤ first }
    ensures { OnOk result (taken.new.items ≡ taken.old.items ++ map extent_taken (extent_in first end (Some (part_of segment.now)))) }
{
    taken.push(Taken {
        first: first as u128,
        end,
        place: segment.file_at as u128 + (first - segment.address) as u128,
    })?;
    Ok(())
}

// Bytes of a memory from an address up to an end, where a segment has the address.
fn push_at(taken: &mut Vec<Taken>, memory: &Segments, first: u64, end: u128) -> Result<(), NoMemory>
    ensures { OnOk result (taken.new.items ≡ taken.old.items ++ map extent_taken (extent_at (memory_of memory.now) first end)) }
{
    match memory.segment_with(first) {
        None => Ok(()),
        Some(segment) => push_in(taken, segment, first, end),
    }
}

// The word that the entry at a place of a segment names, if it names one.
fn push_word(
    taken: &mut Vec<Taken>,
    memory: &Segments,
    segment: &Segment,
    encoding: u8,
    place: u128,
) -> Result<(), NoMemory>
    ensures { OnOk result ((size : ℕ) → format_size (encoding_format encoding) ≡ Some size → taken.new.items ≡ taken.old.items ++ map extent_taken (word_at (memory_of memory.now) (part_of segment.now) encoding place)) }
{
    let bytes = segment.bytes.as_slice();
    if place > bytes.len() as u128 {
        return Ok(());
    }
    let mut cursor = RawCursor::new(bytes, place as usize);
    match cursor.take_encoded(encoding, segment.address) {
        Err(_) => Ok(()),
        Ok(pointer) => {
            if pointer.indirect {
                let word = pointer.value;
                return push_at(taken, memory, word, word as u128 + WORD);
            }
            Ok(())
        }
    }
}

// How many bytes an entry of an encoding takes that has a size.
fn size_of(encoding: u8) -> u8
    ensures { (size : ℕ) → format_size (encoding_format encoding) ≡ Some size → result ≡ size }
{
    match encoding % 16 {
        2 | 10 => 2,
        3 | 11 => 4,
        _ => 8,
    }
}

/// The words that the entries of a table with these indices name.
pub fn words_of(
    alloc: Global,
    memory: &Segments,
    segment: &Segment,
    encoding: u8,
    base: u128,
    types: &[u64],
) -> Result<Vec<Taken>, NoMemory>
    ensures { IfOk result (λ taken. (size : ℕ) → format_size (encoding_format encoding) ≡ Some size → taken.items ≡ map extent_taken (words_by (memory_of memory.now) (part_of segment.now) encoding base size types.now)) }
{
    let mut taken = Vec::new(alloc);
    let size = size_of(encoding) as u128;
    let mut rest = types;
    'types: while let Some((index, others)) = rest.split_first() {
        let place = base.saturating_sub(*index as u128 * size);
        push_word(&mut taken, memory, segment, encoding, place)?;
        rest = others;
    }
    Ok(taken)
}

// Behind the last part of the frames that begin at a place of a segment.
fn last_stop(segment: &Segment, first: usize) -> usize
    requires { first ≤ length segment.now.bytes.items }
    ensures { result ≡ stop_within (part_of segment.now) (length segment.now.bytes.items) first }
{
    let end = segment.bytes.len();
    let mut place = first;
    'parts: while place < end {
        match u32_at(segment, end, place) {
            Err(_) => return place,
            Ok((length, next)) => {
                if length == 0 {
                    return place;
                }
                if length as usize > end - next {
                    return place;
                }
                place = next + length as usize;
            }
        }
    }
    place
}

// The end of the frames that begin at a place of a segment.
fn frames_end(segment: &Segment, first: usize) -> u128
    requires { first ≤ length segment.now.bytes.items }
    ensures end { result ≡ frames_end (part_of segment.now) first }
    ensures near { result < 2 ^ 65 }
{
    let last = last_stop(segment, first);
    if last == segment.bytes.len() {
        last as u128
    } else {
        last as u128 + 4
    }
}

// The frames that begin at an address.
fn push_frames_at(taken: &mut Vec<Taken>, memory: &Segments, start: u64) -> Result<(), NoMemory>
    ensures { OnOk result (taken.new.items ≡ taken.old.items ++ map extent_taken (frames_in start (part_with (memory_of memory.now) start))) }
{
    match memory.segment_with(start) {
        None => Ok(()),
        Some(segment) => {
            let end = frames_end(segment, (start - segment.address) as usize);
            push_in(taken, segment, start, segment.address as u128 + end)
        }
    }
}

/// The frames to which a header leads that is read.
pub fn push_frames(taken: &mut Vec<Taken>, memory: &Segments, header: u64) -> Result<(), NoMemory>
    ensures { OnOk result ((read : forms.Frames) → forms.frames (memory_of memory.now) header ≡ Ok read →
        taken.new.items ≡ taken.old.items ++ map extent_taken (frames_extent (memory_of memory.now) (frames_start (memory_of memory.now) header))) }
{
    match frames_start(memory, header) {
        None => Ok(()),
        Some(start) => push_frames_at(taken, memory, start),
    }
}

// How many bytes a header takes with a table, by its count at a place.
fn size_counted(segment: &Segment, place: usize) -> u128
    requires { place ≤ length segment.now.bytes.items }
    ensures size { result ≡ size_counted (in_header (fixed w32) (part_of segment.now) place) }
    ensures near { result < 2 ^ 65 }
{
    match u32_at(segment, segment.bytes.len(), place) {
        Err(_) => WITHOUT_COUNT,
        Ok((count, _)) => WITH_COUNT as u128 + ROW * count as u128,
    }
}

// How many bytes a header takes, by the encoding of its count.
fn size_encoded(segment: &Segment, place: usize) -> u128
    requires { place + 12 ≤ length segment.now.bytes.items }
    ensures size { result ≡ size_by (part_of segment.now) place (in_header byte (part_of segment.now) (place + 2)) }
    ensures near { result < 2 ^ 65 }
{
    match byte_at(segment, segment.bytes.len(), place + 2) {
        Err(_) => WITHOUT_COUNT,
        Ok((encoding, _)) => {
            if encoding == COUNTED {
                size_counted(segment, place + 8)
            } else {
                WITHOUT_COUNT
            }
        }
    }
}

// How many bytes a header takes that is read, at a place of a segment.
fn header_size(segment: &Segment, place: usize) -> u128
    requires { place ≤ length segment.now.bytes.items }
    ensures size { (header_at (part_of segment.now) place).faults ≡ [] → result ≡ header_size (header_at (part_of segment.now) place).rows }
    ensures near { result < 2 ^ 65 }
{
    let end = segment.bytes.len();
    if end - place < WITH_COUNT {
        return WITHOUT_COUNT;
    }
    size_encoded(segment, place)
}

/// The header at an address that is read.
pub fn push_header(taken: &mut Vec<Taken>, memory: &Segments, header: u64) -> Result<(), NoMemory>
    ensures { OnOk result ((read : forms.Frames) → forms.frames (memory_of memory.now) header ≡ Ok read →
        taken.new.items ≡ taken.old.items ++ map extent_taken (header_in header (part_with (memory_of memory.now) header))) }
{
    match memory.segment_with(header) {
        None => Ok(()),
        Some(segment) => {
            let size = header_size(segment, (header - segment.address) as usize);
            push_in(taken, segment, header, header as u128 + size)
        }
    }
}
