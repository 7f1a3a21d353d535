// The lines of an image, of its segments and of its CIEs.
ghost use Rattle.std.specs.Prelude.{◌≡◌, ◌+◌, ◌<◌, ◌≤◌, ◌^◌, ◌++◌, ◌-◌, OnOk, length, flat_map, map, option_map};
ghost use Rattle.std.specs.List.{AllByRecursion};
ghost use Rattle.eh_bytes.specs.Memory.{part_of, memory_of};
ghost use Rattle.eh_bytes.specs.Field.{at};
ghost use Rattle.eh_bytes.specs.Encoded.{encoded};
ghost use Rattle.table_dump.specs.Pointed.{led_by, pointed, base_of};
ghost use Rattle.table_dump.specs.Heads.{image_line, allowed, segment_line, augmentation_text, front_text, back_text};
ghost use Rattle.table_dump.specs.Listed.{EndsInSpace, StandsIn, listed_line};

use crate::text::{end_of, put_text, register};
use eh_bytes::{RawCursor, Segment, Segments};
use frame_read::Cie;
use std::alloc::{AllocError, Global};

/// The line of an image.
pub fn put_image(alloc: Global, out: &mut Vec<u8>, entry: u64) -> Result<(), AllocError>
    ensures { OnOk result (out.new.items ≡ out.old.items ++ image_line entry) }
{
    let line = format!(in alloc; "image entry 0x{entry:x}\n")?;
    put_text(out, line.as_str())
}

// What a segment allows besides reading.
fn allowed(granted: bool, letter: &str) -> &str
    ensures { result.now ≡ allowed granted letter.now }
{
    if granted { letter } else { "-" }
}

fn put_segment(alloc: Global, out: &mut Vec<u8>, segment: &Segment) -> Result<(), AllocError>
    requires { segment.now.address + length segment.now.bytes.items ≤ 2 ^ 64 }
    ensures { OnOk result (out.new.items ≡ out.old.items ++ segment_line (part_of segment.now)) }
{
    let start = segment.address;
    let end = end_of(alloc, start, segment.bytes.len() as u64)?;
    let write = allowed(segment.write, "w");
    let exec = allowed(segment.exec, "x");
    let line = format!(in alloc; "segment 0x{start:x} {end} r{write}{exec}\n")?;
    put_text(out, line.as_str())
}

/// The lines of the segments.
pub fn put_segments(
    alloc: Global,
    out: &mut Vec<u8>,
    segments: &[Segment],
) -> Result<(), AllocError>
    requires { AllByRecursion EndsInSpace segments.now }
    ensures { OnOk result (out.new.items ≡ out.old.items ++ flat_map segment_line (map part_of segments.now)) }
{
    let mut rest = segments;
    'segments: while let Some((segment, others)) = rest.split_first() {
        put_segment(alloc, out, segment)?;
        rest = others;
    }
    Ok(())
}

/// Where the segment of the frames lies in memory and in the file, if there is one.
#[derive(Clone, Copy, Drop)]
pub struct Base {
    pub address: u64,
    pub file_at: u64,
}

// The text of an augmentation.
fn augmentation_of(letters: &[u8]) -> &[u8]
    ensures { result.now ≡ augmentation_text letters.now }
{
    if letters.is_empty() {
        b"-".as_slice()
    } else {
        letters
    }
}

// The line of a CIE up to its augmentation.
fn put_front(alloc: Global, out: &mut Vec<u8>, at: u64, version: u8) -> Result<(), AllocError>
    ensures { OnOk result (out.new.items ≡ out.old.items ++ front_text at version) }
{
    let text = format!(in alloc; "cie 0x{at:x} version {version} aug ")?;
    put_text(out, text.as_str())
}

// What follows its augmentation.
fn put_back(alloc: Global, out: &mut Vec<u8>, cie: &Cie) -> Result<(), AllocError>
    ensures { OnOk result (out.new.items ≡ out.old.items ++ back_text cie.now.code_factor cie.now.data_factor cie.now.return_register) }
{
    let code = cie.code_factor;
    let data = cie.data_factor;
    let register = register(alloc, cie.return_register)?;
    let text = format!(in alloc; " code {code} data {data} ra {register}\n")?;
    put_text(out, text.as_str())
}

fn put_augmentation(out: &mut Vec<u8>, letters: &[u8]) -> Result<(), AllocError>
    ensures { OnOk result (out.new.items ≡ out.old.items ++ augmentation_text letters.now) }
{
    out.extend_from_slice(augmentation_of(letters))
}

fn put_cie(alloc: Global, out: &mut Vec<u8>, base: Base, cie: &Cie) -> Result<(), AllocError>
    requires { StandsIn base cie.now }
    ensures { OnOk result (out.new.items ≡ out.old.items ++ listed_line base cie.now) }
{
    let at = base.address + (cie.place - base.file_at);
    put_front(alloc, out, at, cie.version)?;
    put_augmentation(out, cie.augmentation.as_bytes())?;
    put_back(alloc, out, cie)
}

/// The lines of the CIEs.
pub fn put_cies(
    alloc: Global,
    out: &mut Vec<u8>,
    base: Base,
    cies: &[Cie],
) -> Result<(), AllocError>
    requires { AllByRecursion (StandsIn base) cies.now }
    ensures { OnOk result (out.new.items ≡ out.old.items ++ flat_map (listed_line base) cies.now) }
{
    let mut rest = cies;
    'cies: while let Some((cie, others)) = rest.split_first() {
        put_cie(alloc, out, base, cie)?;
        rest = others;
    }
    Ok(())
}

// The same, where the header stands at a place of a segment.
fn pointed_from(memory: &Segments, segment: &Segment, place: usize) -> Option<Base>
    requires { place < length segment.now.bytes.items }
    ensures { result ≡ option_map base_of (led_by (memory_of memory.now) (at (encoded 0x1b (segment.now.address + (place + 4))) segment.now.bytes.items (place + 4))) }
{
    let bytes = segment.bytes.as_slice();
    if bytes.len() - place < 4 {
        return None;
    }
    let mut cursor = RawCursor::new(bytes, place + 4);
    match cursor.take_encoded(0x1b, segment.address) {
        Err(_) => None,
        Ok(pointer) => {
            let segment = memory.segment_with(pointer.value)?;
            Some(Base {
                address: segment.address,
                file_at: segment.file_at,
            })
        }
    }
}

/// Where the segment lies to which the pointer of the frames' header leads: in four bytes, relative
/// to itself (LSB Core, "The .eh_frame_hdr section").
#[tactic(auto, unfolding(crate::specs::Pointed::pointed))]
pub fn base_of(memory: &Segments, header: u64) -> Option<Base>
    ensures { result ≡ option_map base_of (pointed (memory_of memory.now) header) }
{
    let segment = memory.segment_with(header)?;
    let place = (header - segment.address) as usize;
    pointed_from(memory, segment, place)
}
