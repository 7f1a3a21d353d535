// Images of functions whose exception tables have the same chains, types and list.
use crate::op::{Op, ROOM, SIZE, START, put_ops};
use eh_bytes::{FrameChange, FrameList, FrameMove, HdrRow, ListFde, ListSite, LsdaList, Region64};
use eh_write::{write_eh_frame, write_hdr, write_lsda};
use std::alloc::{AllocError, Global};

/// Where the stub of terminate stands.
pub const STUB: u64 = 0x1_1000;

/// Where the exception tables stand.
pub const TABLES: u64 = 0x1_1800;

/// Where the frames stand.
pub const FRAMES: u64 = 0x1_2000;

/// The header of the frames.
pub const HEADER: u64 = 0x1_2800;

/// The type record of std::bad_exception.
pub const BAD_EXCEPTION: u64 = 0x1_4048;

/// Type records so far behind 0x14000: of int, of another type, and of one with the base int.
pub const INT: u16 = 0;

pub const OTHER: u16 = 0x18;

pub const DERIVED: u16 = 0x30;

/// Type records of a type that is a base of its own, and of one whose base lies outside the memory.
pub const ENDLESS: u16 = 0x60;

pub const BROKEN: u16 = 0x78;

/// The chains of every table: a cleanup, a handler of int, `catch (...)`, and a specification.
pub const CLEANUP: Option<u32> = Some(0);

pub const CATCHES_INT: Option<u32> = Some(1);

pub const CATCHES_ALL: Option<u32> = Some(2);

pub const SPECIFIED: Option<u32> = Some(3);

static CHAINS: &[&[i64]] = &[&[0], &[1], &[2], &[-1]];

// int, `catch (...)` and std::bad_exception.
static TYPES: &[u64] = &[0x1_4000, 0, 0x1_4048];

// The kinds and bases of int, OTHER, DERIVED, std::bad_exception, ENDLESS and BROKEN.
static RECORDS: &[(u64, u64)] = &[(1, 0), (2, 0), (2, 0x1_4000), (3, 0), (2, 0x1_4060), (2, 8)];

/// An operation that may raise, the operation at its pad or 0, and its chain.
pub type Site = (u64, u64, Option<u32>);

/// A function that begins with `Enter`. A place without a site is a barrier.
pub struct Function {
    pub ops: &'static [Op],
    pub sites: &'static [Site],
}

/// A terminate stub that prints the handler and aborts.
pub const PRINTS: &[Op] = &[Op::Runtime(1), Op::Runtime(16)];

/// The code of an image: its functions, of which the first is the outermost, and its terminate stub.
#[derive(Drop)]
pub struct Code {
    pub functions: &'static [Function],
    pub stub: &'static [Op],
    /// The type indices of the list of the specification.
    pub list: &'static [u64],
}

fn table_of(alloc: Global, list: &[u64], sites: &[Site]) -> Result<LsdaList, AllocError> {
    let mut listed = Vec::new(alloc);
    for (op, pad, chain) in sites {
        listed.push(ListSite {
            start: op.wrapping_mul(SIZE),
            length: SIZE,
            pad: pad.wrapping_mul(SIZE),
            chain: *chain,
        })?;
    }
    let mut chains = Vec::new(alloc);
    for chain in CHAINS {
        chains.push(chain.to_vec(alloc)?)?;
    }
    let mut lists = Vec::new(alloc);
    lists.push(list.to_vec(alloc)?)?;
    Ok(LsdaList {
        sites: listed,
        chains,
        types: TYPES.to_vec(alloc)?,
        lists,
    })
}

// The frame of a function, behind its first operation's two words; the outermost has no return address.
fn frame_of(alloc: Global, number: u64) -> Result<ListFde, AllocError> {
    let start = number.wrapping_mul(ROOM).wrapping_add(START);
    let location = start.wrapping_add(8);
    let change = if number == 0 {
        FrameChange::Undefined(1)
    } else {
        FrameChange::Saved(1, -8)
    };
    let sized = FrameMove {
        location,
        change: FrameChange::Cfa(16),
    };
    Ok(ListFde {
        region: Region64 {
            start,
            length: ROOM,
        },
        lsda: number.wrapping_mul(0x100).wrapping_add(TABLES),
        moves: [sized, FrameMove { location, change }].to_vec(alloc)?,
    })
}

fn put_code(bytes: &mut Vec<u8>, code: &Code) -> Result<(), AllocError> {
    let mut address = START;
    for function in code.functions {
        bytes.resize(address.wrapping_sub(START) as usize, 0)?;
        put_ops(bytes, function.ops, address)?;
        address = address.wrapping_add(ROOM);
    }
    bytes.resize(0x1000, 0)?;
    put_ops(bytes, code.stub, STUB)
}

fn put_exception_tables(alloc: Global, bytes: &mut Vec<u8>, code: &Code) -> Result<(), AllocError> {
    let mut address = TABLES;
    for function in code.functions {
        bytes.resize(address.wrapping_sub(START) as usize, 0)?;
        write_lsda(
            alloc,
            &table_of(alloc, code.list, function.sites)?,
            address,
            bytes,
        )?;
        address = address.wrapping_add(0x100);
    }
    Ok(())
}

// Each of the frames takes 28 bytes, behind the 24 of their CIE.
fn put_frames(alloc: Global, bytes: &mut Vec<u8>, code: &Code) -> Result<(), AllocError> {
    let mut fdes = Vec::new(alloc);
    let mut rows = Vec::new(alloc);
    let mut number = 0;
    for _ in code.functions {
        fdes.push(frame_of(alloc, number)?)?;
        rows.push(HdrRow {
            location: number.wrapping_mul(ROOM).wrapping_add(START),
            fde: number.wrapping_mul(28).wrapping_add(FRAMES + 24),
        })?;
        number = number.wrapping_add(1);
    }
    bytes.resize(0x2000, 0)?;
    write_eh_frame(alloc, &FrameList { lsda: true, fdes }, FRAMES, bytes)?;
    bytes.resize(0x2800, 0)?;
    write_hdr(alloc, rows.as_slice(), FRAMES, HEADER, bytes)?;
    Ok(())
}

// Each has its kind, the address of its name, and that of its base's record.
fn put_records(bytes: &mut Vec<u8>) -> Result<(), AllocError> {
    bytes.resize(0x4000, 0)?;
    for (kind, base) in RECORDS {
        for word in [*kind, 0, *base] {
            bytes.extend_from_slice(&word.to_le_bytes())?;
        }
    }
    Ok(())
}

/// The bytes of an image, of which the first stands at `START`.
pub fn bytes_of(alloc: Global, code: &Code) -> Result<Vec<u8>, AllocError> {
    let mut bytes = Vec::new(alloc);
    put_code(&mut bytes, code)?;
    put_exception_tables(alloc, &mut bytes, code)?;
    put_frames(alloc, &mut bytes, code)?;
    put_records(&mut bytes)?;
    bytes.resize(0x5000, 0)?;
    Ok(bytes)
}
