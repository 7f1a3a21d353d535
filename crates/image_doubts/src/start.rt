// Where the instructions of a function begin.
ghost use Rattle.std.specs.Prelude.{◌≡◌, ◌+◌, ◌-◌, ◌≤◌, ◌<◌, ◌^◌, List, ℕ, false, IfOk, unwrap_or, slice_get, take};
ghost use Rattle.eh_bytes.specs.Memory.{memory_of};
ghost use Rattle.image_doubts.specs.Starts.{behind_first, begins, code_of, is_between, marks_of};

use eh_bytes::{Region64, Segments};
use std::alloc::{AllocError, Global};

// How many bytes of an instruction stand behind its first.
fn behind_first(byte: u8) -> u8
    ensures { result ≡ behind_first byte }
{
    if byte % 4 == 3 { 3 } else { 1 }
}

// At most so many bytes of some.
fn at_most(length: u64, bytes: &[u8]) -> &[u8]
    ensures { result.now ≡ take length bytes.now }
{
    if length < bytes.len() as u64 {
        &bytes[..length as usize]
    } else {
        bytes
    }
}

// The bytes of a function in memory.
fn code_of(memory: &Segments, region: Region64) -> &[u8]
    ensures { result.now ≡ code_of (memory_of memory.now) region }
{
    match memory.bytes_at(region.start) {
        None => &[],
        Some(bytes) => at_most(region.length, bytes),
    }
}

/// For each byte of a function, whether an instruction begins there.
pub fn marks_of(alloc: Global, memory: &Segments, region: Region64) -> Result<Vec<bool>, AllocError>
    ensures { IfOk result (λ marks. marks.items ≡ marks_of (memory_of memory.now) region) }
{
    let mut marks = Vec::new(alloc);
    let mut behind = 0;
    let mut rest = code_of(memory, region);
    'bytes: while let Some((byte, others)) = rest.split_first() {
        marks.push(behind == 0)?;
        behind = if behind == 0 {
            behind_first(*byte)
        } else {
            behind - 1
        };
        rest = others;
    }
    Ok(marks)
}

fn is_marked(marks: &[bool], place: u64) -> bool
    ensures { result ≡ unwrap_or (slice_get marks.now place) false }
{
    match marks.get(place as usize) {
        None => false,
        Some(mark) => *mark,
    }
}

/// Whether an instruction of a function begins at an address.
pub fn begins(region: Region64, marks: &[bool], address: u64) -> bool
    ensures { result ≡ begins region marks.now address }
{
    region.start <= address && is_marked(marks, address - region.start)
}

/// Whether an instruction of a function begins at an address, or the function ends there.
pub fn is_between(region: Region64, marks: &[bool], address: u64) -> bool
    requires { region.start + region.length < 2 ^ 64 }
    ensures { result ≡ is_between region marks.now address }
{
    address == region.start + region.length || begins(region, marks, address)
}
