// Where the parts of an image that is written stand in its file.
ghost use Rattle.std.specs.Prelude.{◌≡◌, ◌<◌, ◌^◌, ◌+◌, map, length, IfOk, OnOk};
ghost use Rattle.std.specs.List.{AllByRecursion};
ghost use Rattle.eh_bytes.specs.Memory.{part_of};
ghost use Rattle.elf_image.specs.Laid.{padding, place_for, flags_of, load_for, loads_from, stands_at, frames_for, runtime_for, behind_headers, headers_for};
ghost use Rattle.elf_image.specs.Stands.{contents_of};
ghost use Rattle.elf_image.specs.CanWrite.{HasWord, IsWord};

use crate::program::{FRAMES, LOAD, ProgramHeader, RUNTIME, load_with};
use crate::runtime_header::RECORD_SIZE;
use crate::write::ImageParts;
use eh_bytes::Segment;
use std::alloc::{AllocError, Global};

const HEADER_SIZE: u64 = 64;

const PROGRAM_SIZE: u64 = 56;

/// The size of a page.
pub const PAGE: u64 = 0x1000;

const READABLE: u32 = 4;

/// How many zeros stand behind a place, so that a segment of this address follows.
pub fn padding(place: u64, address: u64) -> u64
    ensures { result ≡ padding place address }
{
    (PAGE + address % PAGE - place % PAGE) % PAGE
}

fn flags_of(segment: &Segment) -> u32
    ensures { result ≡ flags_of (part_of segment.now) }
{
    let write = if segment.write { 2 } else { 0 };
    let exec = if segment.exec { 1 } else { 0 };
    READABLE + write + exec
}

fn load_for(place: u128, offset: u64, segment: &Segment) -> ProgramHeader
    ensures { result ≡ load_for place offset (part_of segment.now) }
{
    let size = segment.bytes.len() as u64;
    ProgramHeader {
        place,
        kind: LOAD,
        flags: flags_of(segment),
        offset,
        address: segment.address,
        file_size: size,
        memory_size: size,
    }
}

// The headers of segments, of which the first stands as soon as it may from a place on.
fn loads_for(
    alloc: Global,
    segments: &[Segment],
    from: u64,
) -> Result<Vec<ProgramHeader>, AllocError>
    ensures loads { IfOk result (λ loads. loads.items ≡ loads_from 64 from (map part_of segments.now)) }
    ensures words { OnOk result (AllByRecursion HasWord (map part_of segments.now)) }
{
    let mut loads = Vec::new(alloc);
    let mut place = HEADER_SIZE as u128;
    let mut from = from;
    let mut rest = segments;
    'segments: while let Some((segment, others)) = rest.split_first() {
        let offset = from
            .checked_add(padding(from, segment.address))
            .ok_or(AllocError)?;
        let size = segment.bytes.len() as u64;
        loads.push(load_for(place, offset, segment))?;
        place += PROGRAM_SIZE as u128;
        from = offset.checked_add(size).ok_or(AllocError)?;
        rest = others;
    }
    Ok(loads)
}

// Where an address stands in the file, and how many bytes of its segment there are from there on.
fn stands_at(loads: &[ProgramHeader], address: u64) -> Result<(u64, u64), AllocError>
    ensures { IfOk result (λ found. found ≡ stands_at loads.now address) }
{
    match load_with(loads, address as u128) {
        None => Ok((0, 0)),
        Some(load) => {
            let before = address - load.address;
            let offset = load.offset.checked_add(before).ok_or(AllocError)?;
            Ok((offset, load.memory_size - before))
        }
    }
}

fn frames_for(
    place: u128,
    loads: &[ProgramHeader],
    address: u64,
) -> Result<ProgramHeader, AllocError>
    ensures { IfOk result (λ header. header ≡ frames_for place loads.now address) }
{
    let (offset, size) = stands_at(loads, address)?;
    Ok(ProgramHeader {
        place,
        kind: FRAMES,
        flags: READABLE,
        offset,
        address,
        file_size: size,
        memory_size: size,
    })
}

fn runtime_for(place: u128, offset: u64) -> ProgramHeader
    ensures { result ≡ runtime_for place offset }
{
    ProgramHeader {
        place,
        kind: RUNTIME,
        flags: READABLE,
        offset,
        address: 0,
        file_size: RECORD_SIZE,
        memory_size: 0,
    }
}

// Behind the header of the file and so many program headers.
fn behind_headers(count: u16) -> u64
    ensures value { result ≡ behind_headers count }
    ensures small { result < 2 ^ 23 }
{
    HEADER_SIZE + PROGRAM_SIZE * count as u64
}

/// The program headers of an image: its segments, the frames' header, and the record for the
/// runtime. More than 65,535 of them are want of memory.
pub fn headers_for(alloc: Global, parts: &ImageParts) -> Result<Vec<ProgramHeader>, AllocError>
    ensures headers { IfOk result (λ headers. headers.items ≡ headers_for (contents_of parts.now)) }
    ensures addresses { OnOk result (AllByRecursion HasWord (contents_of parts.now).memory) }
    ensures frame_header { OnOk result (IsWord parts.now.frame_header) }
{
    let segments = parts.segments.parts.as_slice();
    let count = u16::try_from(segments.len()).map_err(|_| AllocError)?;
    let whole = count.checked_add(2).ok_or(AllocError)?;
    let record = behind_headers(whole);
    let mut headers = loads_for(alloc, segments, record + RECORD_SIZE)?;
    let frames = frames_for(
        behind_headers(count) as u128,
        headers.as_slice(),
        parts.frame_header,
    )?;
    headers.push(frames)?;
    headers.push(runtime_for(behind_headers(count + 1) as u128, record))?;
    Ok(headers)
}
