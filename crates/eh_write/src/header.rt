// The header of the frames.
ghost use Rattle.std.specs.Prelude.{◌≡◌, ◌++◌, flat_map, OnOk, OnErr, IfOk};
ghost use Rattle.table_forms.specs.WrittenFrames.{WritesHeader};
ghost use Rattle.eh_write.specs.WrittenHeader.{CanWriteHeader, row_bytes, header_bytes};

use crate::NoMemory;
use crate::distance::distance_bytes;
use eh_bytes::{HdrRow, u32_bytes};
use std::alloc::{AllocError, Global};

// Version 1; the pointer is relative to itself in four bytes with a sign, the count has four
// bytes, and rows are relative to the header in four bytes with a sign.
static ENCODINGS: [u8; 4] = [1, 0x1b, 0x03, 0x3b];

fn put_row(out: &mut Vec<u8>, row: &HdrRow, start: u64) -> Result<(), NoMemory>
    ensures { OnOk result (out.new.items ≡ out.old.items ++ row_bytes start row.now) }
{
    out.extend_from_slice(distance_bytes(start as u128, row.location).as_slice())?;
    out.extend_from_slice(distance_bytes(start as u128, row.fde).as_slice())
}

fn put_rows(out: &mut Vec<u8>, rows: &[HdrRow], start: u64) -> Result<(), NoMemory>
    ensures { OnOk result (out.new.items ≡ out.old.items ++ flat_map (row_bytes start) rows.now) }
{
    let mut rest = rows;
    'rows: while let Some((row, others)) = rest.split_first() {
        put_row(out, row, start)?;
        rest = others;
    }
    Ok(())
}

// The whole header.
#[tactic(auto, unfolding(crate::specs::WrittenHeader::header_bytes))]
fn header_of(
    alloc: Global,
    rows: &[HdrRow],
    frames_at: u64,
    address: u64,
) -> Result<Vec<u8>, NoMemory>
    ensures { IfOk result (λ bytes. bytes.items ≡ header_bytes rows.now frames_at address) }
{
    let count = u32::try_from(rows.len()).map_err(|_| AllocError)?;
    let mut bytes = Vec::new(alloc);
    bytes.extend_from_slice(ENCODINGS.as_slice())?;
    bytes.extend_from_slice(distance_bytes(address as u128 + 4, frames_at).as_slice())?;
    bytes.extend_from_slice(u32_bytes(count).as_slice())?;
    put_rows(&mut bytes, rows, address)?;
    Ok(bytes)
}

/// Appends the header of the frames at an address, for a header at another.
///
/// A reader wants the rows in rising order of location. All addresses and the header itself lie
/// below 2^31, and the frames outside the header: then the bytes stand for pointer and rows in
/// each memory that has them at the address. `out` is unchanged where memory is wanted.
#[tactic(auto, using(crate::proofs::HeaderRead::writes_header))]
pub fn write_hdr(
    alloc: Global,
    rows: &[HdrRow],
    frames_at: u64,
    address: u64,
    out: &mut Vec<u8>,
) -> Result<(), NoMemory>
    ensures bytes { OnOk result (out.new.items ≡ out.old.items ++ header_bytes rows.now frames_at address) }
    ensures refused { OnErr result (out.new.items ≡ out.old.items) }
    ensures stands { CanWriteHeader rows.now frames_at address → WritesHeader rows.now frames_at address (header_bytes rows.now frames_at address) }
{
    let bytes = header_of(alloc, rows, frames_at, address)?;
    out.extend_from_slice(bytes.as_slice())
}
