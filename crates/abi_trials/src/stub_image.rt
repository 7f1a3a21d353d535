// An image of the runtime's own functions and of a unit.
use crate::image::{FRAMES, HEADER, TABLES};
use crate::op::START;
use crate::stub_unit::{BAD_EXCEPTION, CLASS, FUNCTIONS, Function, INT, JUMP};
use eh_bytes::{
    Emitted, FrameChange, FrameList, FrameMove, HdrRow, ListFde, ListSite, LsdaList, Region64,
};
use eh_write::{write_eh_frame, write_hdr, write_lsda};
use std::alloc::{AllocError, Global};

/// Where the runtime's own functions stand.
pub const STUBS: u64 = 0x1_1000;

/// A function at its address, before its table has one.
#[derive(Drop)]
struct Routine {
    region: Region64,
    table: LsdaList,
    moves: Vec<FrameMove>,
}

// The changes of a frame, from the function's address on.
fn moves_at(alloc: Global, start: u64, moves: &[FrameMove]) -> Result<Vec<FrameMove>, AllocError> {
    let mut placed = Vec::new(alloc);
    for change in moves {
        placed.push(FrameMove {
            location: start.wrapping_add(change.location),
            change: change.change,
        })?;
    }
    Ok(placed)
}

fn stub_routines(emitted: Emitted, alloc: Global) -> Result<Vec<Routine>, AllocError> {
    let mut routines = Vec::new(alloc);
    for function in emitted.functions {
        let start = u64::from(function.first)
            .wrapping_mul(4)
            .wrapping_add(STUBS);
        routines.push(Routine {
            region: Region64 {
                start,
                length: u64::from(function.words).wrapping_mul(4),
            },
            moves: moves_at(alloc, start, function.moves.as_slice())?,
            table: function.table,
        })?;
    }
    Ok(routines)
}

/// The table of a function of the unit.
pub fn table_of(alloc: Global, function: &Function) -> Result<LsdaList, AllocError> {
    let mut sites = Vec::new(alloc);
    for (start, length, pad, chain) in function.sites {
        sites.push(ListSite {
            start: *start,
            length: *length,
            pad: *pad,
            chain: *chain,
        })?;
    }
    let mut chains = Vec::new(alloc);
    for chain in function.chains {
        chains.push(chain.to_vec(alloc)?)?;
    }
    let mut lists = Vec::new(alloc);
    for list in function.lists {
        lists.push(list.to_vec(alloc)?)?;
    }
    Ok(LsdaList {
        sites,
        chains,
        types: function.types.to_vec(alloc)?,
        lists,
    })
}

/// The changes of the frame of a function of the unit, behind whose first two words the return address is
/// saved.
pub fn frame_of(alloc: Global, start: u64, size: i64) -> Result<Vec<FrameMove>, AllocError> {
    if size == 0 {
        return Ok(Vec::new(alloc));
    }
    let sized = FrameMove {
        location: 4,
        change: FrameChange::Cfa(size),
    };
    let saved = FrameMove {
        location: 8,
        change: FrameChange::Saved(1, 8i64.wrapping_sub(size)),
    };
    moves_at(alloc, start, &[sized, saved])
}

fn put_words(bytes: &mut Vec<u8>, words: &[u32]) -> Result<(), AllocError> {
    for word in words {
        bytes.extend_from_slice(&word.to_le_bytes())?;
    }
    Ok(())
}

// The next free address.
fn end_of(bytes: &Vec<u8>) -> u64 {
    START.wrapping_add(bytes.len() as u64)
}

fn put_unit(
    alloc: Global,
    bytes: &mut Vec<u8>,
    routines: &mut Vec<Routine>,
) -> Result<(), AllocError> {
    put_words(bytes, JUMP)?;
    for function in FUNCTIONS {
        let start = end_of(bytes);
        put_words(bytes, function.words)?;
        routines.push(Routine {
            region: Region64 {
                start,
                length: end_of(bytes).wrapping_sub(start),
            },
            table: table_of(alloc, function)?,
            moves: frame_of(alloc, start, function.frame)?,
        })?;
    }
    Ok(())
}

// Each has its kind, the address of its name, and that of its base's record.
fn put_records(bytes: &mut Vec<u8>) -> Result<(), AllocError> {
    for (address, kind) in [(CLASS, 2), (BAD_EXCEPTION, 3), (INT, 1)] {
        bytes.resize(address.wrapping_sub(START) as usize, 0)?;
        for word in [kind, 0, 0u64] {
            bytes.extend_from_slice(&word.to_le_bytes())?;
        }
    }
    Ok(())
}

// Each of the frames takes 28 bytes, behind the 24 of their CIE.
fn put_tables(
    alloc: Global,
    bytes: &mut Vec<u8>,
    routines: Vec<Routine>,
) -> Result<(), AllocError> {
    let mut fdes = Vec::new(alloc);
    let mut rows = Vec::new(alloc);
    let mut fde = FRAMES.wrapping_add(24);
    let mut table_at = TABLES;
    for routine in routines {
        bytes.resize(table_at.wrapping_sub(START) as usize, 0)?;
        write_lsda(alloc, &routine.table, table_at, bytes)?;
        rows.push(HdrRow {
            location: routine.region.start,
            fde,
        })?;
        fde = fde.wrapping_add(if routine.moves.len() < 2 { 24 } else { 28 });
        fdes.push(ListFde {
            region: routine.region,
            lsda: table_at,
            moves: routine.moves,
        })?;
        table_at = table_at.wrapping_add(0x80);
    }
    bytes.resize(FRAMES.wrapping_sub(START) as usize, 0)?;
    write_eh_frame(alloc, &FrameList { lsda: true, fdes }, FRAMES, bytes)?;
    bytes.resize(HEADER.wrapping_sub(START) as usize, 0)?;
    write_hdr(alloc, rows.as_slice(), FRAMES, HEADER, bytes)
}

/// The bytes of the image.
pub fn bytes_of(alloc: Global, emitted: Emitted) -> Result<Vec<u8>, AllocError> {
    let mut bytes = Vec::new(alloc);
    put_records(&mut bytes)?;
    bytes.resize(STUBS.wrapping_sub(START) as usize, 0)?;
    put_words(&mut bytes, emitted.code.as_slice())?;
    let mut routines = stub_routines(emitted, alloc)?;
    put_unit(alloc, &mut bytes, &mut routines)?;
    put_tables(alloc, &mut bytes, routines)?;
    Ok(bytes)
}
