// What is gathered of an image: where its segments and its tables lie, and what else is read.
ghost use Rattle.std.specs.Prelude.{◌≡◌, ◌∷◌, ◌++◌, [], map, flat_map, IfOk, OnOk, Ok};
ghost use Rattle.eh_bytes.specs.Memory.{memory_of};
ghost use Rattle.table_forms.specs.Frames as forms;
ghost use Rattle.elf_image.specs.Programs.{runtime_header};
ghost use Rattle.lsda_pack.specs.Gathered.{others_by, parts_by};
ghost use Rattle.lsda_pack.specs.Reaches.{header_taken, part_taken};
ghost use Rattle.lsda_pack.specs.SharedTables.{headers_in, record_in};

use crate::NoMemory;
use crate::extents::{push_frames, push_header};
use crate::placing::Placing;
use crate::reach::{TableTaken, Taken};
use eh_bytes::Segments;
use elf_image::program::{ProgramHeader, runtime_header};
use std::alloc::{AllocError, Global};

// The bytes of a file's header, of a program header, and of the record for the runtime.
const FILE_HEADER: u128 = 64;

const PROGRAM_HEADER: u128 = 56;

const RECORD: u128 = 24;

/// The bytes of the file of segments.
pub fn segments_taken(alloc: Global, loads: &[ProgramHeader]) -> Result<Vec<Taken>, NoMemory>
    ensures { IfOk result (λ taken. taken.items ≡ map header_taken loads.now) }
{
    let mut taken = Vec::new(alloc);
    let mut rest = loads;
    'loads: while let Some((load, others)) = rest.split_first() {
        taken.push(Taken {
            first: load.offset as u128,
            end: load.offset as u128 + load.file_size as u128,
            place: load.place,
        })?;
        rest = others;
    }
    Ok(taken)
}

// A part of the file from a place up to an end.
fn push_part(parts: &mut Vec<Taken>, first: u128, end: u128) -> Result<(), NoMemory>
    ensures { OnOk result (parts.new.items ≡ parts.old.items ++ map part_taken ((first, end) ∷ [])) }
{
    parts.push(Taken {
        first,
        end,
        place: first,
    })?;
    Ok(())
}

// The program headers.
fn push_headers(parts: &mut Vec<Taken>, headers: &[ProgramHeader]) -> Result<(), NoMemory>
    ensures { OnOk result (parts.new.items ≡ parts.old.items ++ map part_taken (headers_in headers.now)) }
{
    let Some((header, _)) = headers.split_first() else {
        return Ok(());
    };
    let first = header.place;
    match first.checked_add(PROGRAM_HEADER * headers.len() as u128) {
        None => Err(AllocError),
        Some(end) => push_part(parts, first, end),
    }
}

// The record for the runtime, if there is one.
fn push_record(parts: &mut Vec<Taken>, headers: &[ProgramHeader]) -> Result<(), NoMemory>
    ensures { OnOk result (parts.new.items ≡ parts.old.items ++ map part_taken (record_in (runtime_header headers.now))) }
{
    match runtime_header(headers) {
        None => Ok(()),
        Some(record) => push_part(parts, record.offset as u128, record.offset as u128 + RECORD),
    }
}

/// The header of a file, its program headers, and the record for the runtime.
pub fn parts_taken(alloc: Global, headers: &[ProgramHeader]) -> Result<Vec<Taken>, NoMemory>
    ensures { IfOk result (λ parts. parts.items ≡ map part_taken (parts_by headers.now)) }
{
    let mut parts = Vec::new(alloc);
    push_part(&mut parts, 0, FILE_HEADER)?;
    push_headers(&mut parts, headers)?;
    push_record(&mut parts, headers)?;
    Ok(parts)
}

/// What tables take.
pub fn tables_taken(alloc: Global, placings: &[Placing]) -> Result<Vec<TableTaken>, NoMemory>
    ensures { IfOk result (λ taken. taken.items ≡ map (λ p. p.taken) placings.now) }
{
    let mut taken = Vec::new(alloc);
    let mut rest = placings;
    'placings: while let Some((placing, others)) = rest.split_first() {
        taken.push(placing.taken)?;
        rest = others;
    }
    Ok(taken)
}

// The words that the entries of tables name.
fn push_words(taken: &mut Vec<Taken>, placings: &[Placing]) -> Result<(), NoMemory>
    ensures { OnOk result (taken.new.items ≡ taken.old.items ++ flat_map (λ p. p.words.items) placings.now) }
{
    let mut rest = placings;
    'placings: while let Some((placing, others)) = rest.split_first() {
        taken.extend_from_slice(placing.words.as_slice())?;
        rest = others;
    }
    Ok(())
}

/// The frames to which a header leads that is read, their header, and the words that tables name.
pub fn others_taken(
    alloc: Global,
    memory: &Segments,
    header: u64,
    placings: &[Placing],
) -> Result<Vec<Taken>, NoMemory>
    ensures { IfOk result (λ taken. (read : forms.Frames) → forms.frames (memory_of memory.now) header ≡ Ok read → taken.items ≡ others_by (memory_of memory.now) header placings.now) }
{
    let mut taken = Vec::new(alloc);
    push_frames(&mut taken, memory, header)?;
    push_header(&mut taken, memory, header)?;
    push_words(&mut taken, placings)?;
    Ok(taken)
}
