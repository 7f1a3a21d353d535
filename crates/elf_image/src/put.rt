// The bytes of an image that is written.
ghost use Rattle.std.specs.Prelude.{◌≡◌, ◌++◌, flat_map, length, map, replicate, OnOk};
ghost use Rattle.eh_bytes.specs.Memory.{part_of};
ghost use Rattle.elf_image.specs.Laid.{padding};
ghost use Rattle.elf_image.specs.CanWrite.{IsWord};
ghost use Rattle.elf_image.specs.Written.{words, file_header, alignment, program_bytes, record_bytes, segments_from};

use crate::laid::{PAGE, padding};
use crate::program::ProgramHeader;
use crate::runtime_header::FORMAT;
use eh_bytes::{RuntimeRecord, Segment, u16_bytes, u32_bytes, u64_bytes};
use std::alloc::AllocError;

// 64-bit, little-endian, version 1; an executable file for RISC-V, version 1.
static IDENTITY: [u8; 24] = [
    0x7f, 0x45, 0x4c, 0x46, 2, 1, 1, 0, 0, 0, 0, 0, 0, 0, 0, 0, 2, 0, 243, 0, 1, 0, 0, 0,
];
// No flags; 64 bytes of header, 56 of each program header.
static SIZES: [u8; 8] = [0, 0, 0, 0, 64, 0, 56, 0];

static NO_SECTIONS: [u8; 6] = [0, 0, 0, 0, 0, 0];

/// Appends words, low bytes first.
pub fn put_words(out: &mut Vec<u8>, numbers: &[u64]) -> Result<(), AllocError>
    ensures { OnOk result (out.new.items ≡ out.old.items ++ words numbers.now) }
{
    let mut rest = numbers;
    'numbers: while let Some((number, others)) = rest.split_first() {
        out.extend_from_slice(u64_bytes(*number).as_slice())?;
        rest = others;
    }
    Ok(())
}

/// Appends the header of a file with so many program headers.
pub fn put_file_header(out: &mut Vec<u8>, entry: u64, count: u16) -> Result<(), AllocError>
    ensures { OnOk result (out.new.items ≡ out.old.items ++ file_header entry count) }
{
    out.extend_from_slice(IDENTITY.as_slice())?;
    put_words(out, [entry, 64, 0].as_slice())?;
    out.extend_from_slice(SIZES.as_slice())?;
    out.extend_from_slice(u16_bytes(count).as_slice())?;
    out.extend_from_slice(NO_SECTIONS.as_slice())
}

fn alignment(header: &ProgramHeader) -> u64
    ensures { result ≡ alignment header.now }
{
    if header.is_load() { PAGE } else { 4 }
}

#[tactic(auto, unfolding(crate::specs::Written::program_bytes))]
fn put_program(out: &mut Vec<u8>, header: &ProgramHeader) -> Result<(), AllocError>
    ensures { OnOk result (out.new.items ≡ out.old.items ++ program_bytes header.now) }
{
    out.extend_from_slice(u32_bytes(header.kind).as_slice())?;
    out.extend_from_slice(u32_bytes(header.flags).as_slice())?;
    let numbers = [
        header.offset,
        header.address,
        header.address,
        header.file_size,
        header.memory_size,
        alignment(header),
    ];
    put_words(out, numbers.as_slice())
}

/// Appends program headers.
pub fn put_programs(out: &mut Vec<u8>, headers: &[ProgramHeader]) -> Result<(), AllocError>
    ensures { OnOk result (out.new.items ≡ out.old.items ++ flat_map program_bytes headers.now) }
{
    let mut rest = headers;
    'headers: while let Some((header, others)) = rest.split_first() {
        put_program(out, header)?;
        rest = others;
    }
    Ok(())
}

/// Appends the record for the runtime.
pub fn put_record(out: &mut Vec<u8>, runtime: RuntimeRecord) -> Result<(), AllocError>
    ensures bytes { OnOk result (out.new.items ≡ out.old.items ++ record_bytes runtime) }
    ensures terminate { IsWord runtime.terminate }
    ensures bad_exception { IsWord runtime.bad_exception }
{
    put_words(
        out,
        [FORMAT, runtime.terminate, runtime.bad_exception].as_slice(),
    )
}

// Appends a segment, as soon as it may stand.
fn put_segment(out: &mut Vec<u8>, segment: &Segment) -> Result<(), AllocError>
    ensures { OnOk result (out.new.items ≡ out.old.items ++ replicate (padding (length out.old.items) segment.now.address) 0 ++ segment.now.bytes.items) }
{
    let zeros = padding(out.len() as u64, segment.address);
    out.resize(out.len() + zeros as usize, 0)?;
    out.extend_from_slice(segment.bytes.as_slice())
}

/// Appends segments, each as soon as it may stand.
pub fn put_segments(out: &mut Vec<u8>, segments: &[Segment]) -> Result<(), AllocError>
    ensures { OnOk result (out.new.items ≡ out.old.items ++ segments_from (length out.old.items) (map part_of segments.now)) }
{
    let mut rest = segments;
    'segments: while let Some((segment, others)) = rest.split_first() {
        put_segment(out, segment)?;
        rest = others;
    }
    Ok(())
}
