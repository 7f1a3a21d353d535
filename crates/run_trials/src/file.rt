// Image files, byte by byte: a program at 0x10100, and the tables of two functions of 0x40 bytes.
use std::alloc::{AllocError, Global};

/// The address of the first byte of code.
pub const START: u64 = 0x1_0100;

/// The stub of terminate.
const STUB: u64 = 0x1_0180;

/// The header of the frames.
pub const HEADER: u64 = 0x1_0248;

// The stub of terminate, which aborts.
static ABORTS: &[u8] = b"\x93\x08\0\x01\x73\0\0\0";

// At 0x10198 the type record of int; at 0x101b0 the first function's exception table, whose call at
// 4 has a pad at 8 for int; at 0x101d0 that of the second, whose call at 0x28 has none.
static TYPES: &[u8] = b"\x01\0\0\0\0\0\0\0\0\0\0\0\0\0\0\0\0\0\0\0\0\0\0\0\
\xff\x1b\x0d\x01\x04\x04\x04\x08\x01\x01\0\0\xdc\xff\xff\xff\0\0\0\0\0\0\0\0\0\0\0\0\0\0\0\0\
\xff\xff\x01\x04\x28\x04\0\0\0\0\0\0\0\0\0\0\0\0\0\0\0\0\0\0\0\0\0\0\0\0\0\0";

// At 0x101f0 the CIE, at 0x10208 and 0x10224 the FDEs: each takes 16 bytes of stack in its first
// word; the first has no return address, the second saves it in its second word.
static FRAMES: &[u8] = b"\x14\0\0\0\0\0\0\0\x01zLR\0\x04x\x01\x02\x1b\x1b\x0c\x02\0\0\0\
\x18\0\0\0\x1c\0\0\0\xf0\xfe\xff\xff\x40\0\0\0\x04\x97\xff\xff\xff\x41\x0e\x10\x07\x01\0\0\
\x18\0\0\0\x38\0\0\0\x14\xff\xff\xff\x40\0\0\0\x04\x9b\xff\xff\xff\x41\x0e\x10\x41\x81\x01\0\
\0\0\0\0\0\0\0\0";

// At 0x10248: the pointer to the frames, and a row for each FDE.
static ROWS: &[u8] = b"\x01\x1b\x03;\xa4\xff\xff\xff\x02\0\0\0\
\xb8\xfe\xff\xff\xc0\xff\xff\xff\xf8\xfe\xff\xff\xdc\xff\xff\xff";

// The identity of a little-endian file of 64 bits, and that it is executable, for RISC-V.
static IDENTITY: &[u8] = b"\x7fELF\x02\x01\x01\0\0\0\0\0\0\0\0\0\x02\0\xf3\0\x01\0\0\0";

const LOAD: u32 = 1;

const EH_FRAME: u32 = 0x6474_e550;

const RUNTIME: u32 = 0x6e48_5831;

/// A segment: its first address, the one behind it, and its flags, of which 2 is write and 1 execute.
pub type Load = (u64, u64, u32);

/// Code and tables in one segment.
pub static WHOLE: &[Load] = &[(START, 0x1_0264, 5)];

/// Code, exception tables, frames, header, and an int that may be written.
pub static PARTS: &[Load] = &[
    (START, 0x1_0198, 5),
    (0x1_0198, 0x1_01f0, 4),
    (0x1_01f0, HEADER, 4),
    (HEADER, 0x1_0280, 4),
    (0x1_0280, 0x1_0288, 6),
];

fn put_word(bytes: &mut Vec<u8>, word: u64) -> Result<(), AllocError> {
    bytes.extend_from_slice(&word.to_le_bytes())?;
    Ok(())
}

// A program header; what it names in the file has the same size in memory.
fn put_program(
    bytes: &mut Vec<u8>,
    (kind, flags): (u32, u32),
    offset: u64,
    (start, end): (u64, u64),
) -> Result<(), AllocError> {
    let size = end.wrapping_sub(start);
    bytes.extend_from_slice(&kind.to_le_bytes())?;
    bytes.extend_from_slice(&flags.to_le_bytes())?;
    for word in [offset, start, start, size, size, 0] {
        put_word(bytes, word)?;
    }
    Ok(())
}

// What stands from 0x10100 on, with this int at 0x10280.
fn memory(alloc: Global, code: &[u32], int: u32) -> Result<Vec<u8>, AllocError> {
    let mut bytes = Vec::new(alloc);
    for word in code {
        bytes.extend_from_slice(&word.to_le_bytes())?;
    }
    bytes.resize(0x80, 0)?;
    bytes.extend_from_slice(ABORTS)?;
    bytes.resize(0x98, 0)?;
    bytes.extend_from_slice(TYPES)?;
    bytes.extend_from_slice(FRAMES)?;
    bytes.extend_from_slice(ROWS)?;
    bytes.resize(0x180, 0)?;
    bytes.extend_from_slice(&int.to_le_bytes())?;
    bytes.resize(0x188, 0)?;
    Ok(bytes)
}

/// Where the bytes of an address stand in a file of so many segments.
pub fn place_of(address: u64, segments: usize) -> usize {
    let front = segments.wrapping_mul(56).wrapping_add(200);
    (address.wrapping_sub(START) as usize).wrapping_add(front)
}

/// The file of a program, with the int at 0x10280 where that is loaded. Behind the program headers
/// stand the record for the runtime and the bytes of the memory.
pub fn file_of(
    alloc: Global,
    code: &[u32],
    int: u32,
    loads: &[Load],
) -> Result<Vec<u8>, AllocError> {
    let mut bytes = IDENTITY.to_vec(alloc)?;
    for word in [START, 64, 0] {
        put_word(&mut bytes, word)?;
    }
    bytes.extend_from_slice(b"\0\0\0\0\x40\0\x38\0")?;
    let count = loads.len().wrapping_add(2) as u64;
    put_word(&mut bytes, count)?;
    for (start, end, flags) in loads {
        let offset = place_of(*start, loads.len()) as u64;
        put_program(&mut bytes, (LOAD, *flags), offset, (*start, *end))?;
    }
    let header = place_of(HEADER, loads.len()) as u64;
    put_program(&mut bytes, (EH_FRAME, 4), header, (HEADER, 0x1_0264))?;
    let record = place_of(START, loads.len()).wrapping_sub(24) as u64;
    put_program(&mut bytes, (RUNTIME, 4), record, (0, 24))?;
    for word in [1, STUB, 0] {
        put_word(&mut bytes, word)?;
    }
    let memory = memory(alloc, code, int)?;
    bytes.extend_from_slice(memory.as_slice())?;
    let end = match loads.last() {
        None => START,
        Some((_, end, _)) => *end,
    };
    bytes.truncate(place_of(end, loads.len()));
    Ok(bytes)
}
