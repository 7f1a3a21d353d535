// The frames of functions.
ghost use Rattle.std.specs.Prelude.{◌≡◌, ◌+◌, ◌++◌, ◌≤◌, ◌<◌, ◌^◌, ◌%◌, IfOk, OnOk, OnErr, length, map};
ghost use Rattle.std.specs.Int.{w32, to_le_bytes};
ghost use Rattle.std.specs.List.{AllByRecursion};
ghost use Rattle.eh_bytes.specs.Listed.{listed_frame, listed_frames};
ghost use Rattle.table_forms.specs.WrittenFrames.{WritesFrames};
ghost use Rattle.eh_write.specs.CanWriteFrames.{CanWriteFrames};
ghost use Rattle.eh_write.specs.Fits.{HasOffset};
ghost use Rattle.eh_write.specs.WrittenFrames.{cie_bytes, data_bytes, fde_body, padded, fde_bytes, fdes_bytes, frames_bytes};

use crate::NoMemory;
use crate::distance::distance_bytes;
use crate::entries::entry_bytes;
use crate::layout::put_zeros;
use crate::moves::put_moves;
use eh_bytes::{FrameList, ListFde, u32_bytes};
use std::alloc::Global;

// Length, id 0, version 1, "zLR", code factor 4, data factor -8, register x1, two bytes of data:
// tables and locations are relative to themselves in four bytes with a sign. Then def_cfa x2 + 0
// and nops.
static WITH_TABLES: [u8; 24] = [
    20, 0, 0, 0, 0, 0, 0, 0, 1, 0x7a, 0x4c, 0x52, 0, 4, 0x78, 1, 2, 0x1b, 0x1b, 0x0c, 2, 0, 0, 0,
];
// The same with "zR" and one byte of data.
static WITHOUT_TABLES: [u8; 20] = [
    16, 0, 0, 0, 0, 0, 0, 0, 1, 0x7a, 0x52, 0, 4, 0x78, 1, 1, 0x1b, 0x0c, 2, 0,
];

fn cie_bytes(tables: bool) -> &'static [u8]
    ensures { result.now ≡ cie_bytes tables }
{
    if tables {
        WITH_TABLES.as_slice()
    } else {
        WITHOUT_TABLES.as_slice()
    }
}

// The low four bytes of a number, low byte first.
fn four_bytes(number: u128) -> [u8; 4]
    ensures { result ≡ to_le_bytes w32 (number % 2 ^ 32) }
{
    u32_bytes((number % 0x1_0000_0000) as u32)
}

// The data of an FDE at a place.
fn put_data(out: &mut Vec<u8>, tables: bool, place: u128, lsda: u64) -> Result<(), NoMemory>
    requires { place < 2 ^ 66 }
    ensures { OnOk result (out.new.items ≡ out.old.items ++ data_bytes tables place lsda) }
{
    if !tables {
        out.push(0)?;
        return Ok(());
    }
    out.push(4)?;
    out.extend_from_slice(entry_bytes(place + 1, lsda).as_slice())
}

// An FDE at a place, behind its length.
#[tactic(auto, unfolding(crate::specs::WrittenFrames::fde_body))]
fn body_of(
    alloc: Global,
    tables: bool,
    cie: u128,
    place: u128,
    fde: &ListFde,
) -> Result<Vec<u8>, NoMemory>
    requires order { cie ≤ place }
    requires room { place < 2 ^ 65 }
    ensures bytes { IfOk result (λ body. body.items ≡ padded (fde_body tables cie place (listed_frame fde.now))) }
    ensures words { OnOk result (AllByRecursion (λ m. HasOffset m.change) (listed_frame fde.now).moves) }
{
    let mut body = Vec::new(alloc);
    body.extend_from_slice(four_bytes(place + 4 - cie).as_slice())?;
    body.extend_from_slice(distance_bytes(place + 8, fde.region.start).as_slice())?;
    body.extend_from_slice(four_bytes(fde.region.length as u128).as_slice())?;
    put_data(&mut body, tables, place + 16, fde.lsda)?;
    put_moves(&mut body, fde.region.start, fde.moves.as_slice())?;
    let over = body.len() as u64 % 4;
    put_zeros(&mut body, (4 - over) % 4)?;
    Ok(body)
}

// Appends an FDE for a place.
#[tactic(auto, unfolding(crate::specs::WrittenFrames::fde_bytes))]
fn put_fde(
    alloc: Global,
    out: &mut Vec<u8>,
    tables: bool,
    cie: u128,
    place: u128,
    fde: &ListFde,
) -> Result<(), NoMemory>
    requires order { cie ≤ place }
    requires room { place < 2 ^ 65 }
    ensures bytes { OnOk result (out.new.items ≡ out.old.items ++ fde_bytes tables cie place (listed_frame fde.now)) }
    ensures words { OnOk result (AllByRecursion (λ m. HasOffset m.change) (listed_frame fde.now).moves) }
{
    let body = body_of(alloc, tables, cie, place, fde)?;
    out.extend_from_slice(four_bytes(body.len() as u128).as_slice())?;
    out.extend_from_slice(body.as_slice())
}

// The FDEs of a list for an address, where `out` has what stands before them.
fn put_fdes(
    alloc: Global,
    out: &mut Vec<u8>,
    tables: bool,
    address: u64,
    fdes: &[ListFde],
) -> Result<(), NoMemory>
    ensures bytes { OnOk result (out.new.items ≡ out.old.items ++ fdes_bytes tables address (address + length out.old.items) (map listed_frame fdes.now)) }
    ensures words { OnOk result (AllByRecursion (λ f. AllByRecursion (λ m. HasOffset m.change) f.moves) (map listed_frame fdes.now)) }
{
    let mut rest = fdes;
    'fdes: while let Some((fde, others)) = rest.split_first() {
        let place = address as u128 + out.len() as u128;
        put_fde(alloc, out, tables, address as u128, place, fde)?;
        rest = others;
    }
    Ok(())
}

// The whole list for an address.
#[tactic(auto, unfolding(crate::specs::WrittenFrames::frames_bytes))]
fn list_of(alloc: Global, frames: &FrameList, address: u64) -> Result<Vec<u8>, NoMemory>
    ensures bytes { IfOk result (λ bytes. bytes.items ≡ frames_bytes (listed_frames frames.now) address) }
    ensures words { OnOk result (AllByRecursion (λ f. AllByRecursion (λ m. HasOffset m.change) f.moves) (listed_frames frames.now).frames) }
{
    let mut bytes = Vec::new(alloc);
    bytes.extend_from_slice(cie_bytes(frames.lsda))?;
    put_fdes(
        alloc,
        &mut bytes,
        frames.lsda,
        address,
        frames.fdes.as_slice(),
    )?;
    bytes.extend_from_slice(u32_bytes(0).as_slice())?;
    Ok(bytes)
}

/// Appends the frames of some functions for an address: one CIE, an FDE for each, and the end.
///
/// Regions, tables and the bytes lie below 2^31; regions don't overlap, and neither their starts
/// nor the tables stand in the bytes. Changes are in order, inside the region and at a multiple
/// of 4 from its start; offsets of the canonical frame address are 0 to 2^31 - 1, registers are
/// below 64, and they are saved at multiples of 8 at or below the canonical frame address. Without
/// tables each table's address is 0. Then the bytes stand for the frames in each memory that has
/// them at the address. `out` is unchanged where memory is wanted.
#[tactic(auto, using(crate::proofs::FramesWritten::writes_frames))]
pub fn write_eh_frame(
    alloc: Global,
    frames: &FrameList,
    address: u64,
    out: &mut Vec<u8>,
) -> Result<(), NoMemory>
    ensures bytes { OnOk result (out.new.items ≡ out.old.items ++ frames_bytes (listed_frames frames.now) address) }
    ensures refused { OnErr result (out.new.items ≡ out.old.items) }
    ensures stands { OnOk result (CanWriteFrames (listed_frames frames.now) address → WritesFrames (listed_frames frames.now) address (frames_bytes (listed_frames frames.now) address)) }
{
    let bytes = list_of(alloc, frames, address)?;
    out.extend_from_slice(bytes.as_slice())
}
