// The frames and their header.
ghost use Rattle.std.specs.Prelude.{◌≡◌, ◌++◌, ◌+◌, ◌<◌, ◌≤◌, ◌^◌, length, map, take, true, IfOk, OnOk};
ghost use Rattle.std.specs.Int.{w32, to_le_bytes, from_le_bytes};
ghost use Rattle.eh_bytes.specs.Listed.{listed_frame};
ghost use Rattle.eh_write.specs.WrittenFrames.{fdes_bytes, frames_bytes};
ghost use Rattle.image_link.specs.Standing.{FramesWritten, HeaderWritten, frames_end, framed_bytes};
ghost use Rattle.image_forms.specs.Tables.{rows_from, header_rows, with_tables};

use crate::NoMemory;
use eh_bytes::{FrameList, HdrRow, ListFde};
use eh_write::{write_eh_frame, write_hdr};
use std::alloc::{AllocError, Global};

// How many bytes the first frame entry takes: its first four say how many are behind them.
fn entry_size(entries: &[u8]) -> usize
    requires { 4 ≤ length entries.now }
    ensures { result ≡ 4 + from_le_bytes w32 (take 4 entries.now) }
{
    match entries.split_first_chunk::<4>() {
        Some((length, _)) => 4 + u32::from_le_bytes(*length) as usize,
        None => unreachable!(),
    }
}

// The rows of frames whose entries are these bytes, the first of which stands at a place.
fn rows_from(
    alloc: Global,
    cie: u64,
    place: u64,
    fdes: &[ListFde],
    entries: &[u8],
) -> Result<Vec<HdrRow>, NoMemory>
    requires bytes { entries.now ≡ fdes_bytes true cie place (map listed_frame fdes.now) ++ to_le_bytes w32 0 }
    requires few { length entries.now < 2 ^ 32 }
    ensures { IfOk result (λ rows. rows.items ≡ rows_from cie place (map listed_frame fdes.now)) }
{
    let mut rows = Vec::new(alloc);
    let mut place_at = place;
    let mut rest = fdes;
    let mut left = entries;
    'fdes: while let Some((fde, others)) = rest.split_first() {
        rows.push(HdrRow {
            location: fde.region.start,
            fde: place_at,
        })?;
        let size = entry_size(left);
        place_at = place_at.checked_add(size as u64).ok_or(AllocError)?;
        let (_, behind) = left.split_at(size);
        left = behind;
        rest = others;
    }
    Ok(rows)
}

// The bytes of a CIE.
const CIE: usize = 24;

// The frames at an address, and the rows of their header.
fn frames_at(
    alloc: Global,
    frames: &FrameList,
    address: u64,
) -> Result<(Vec<u8>, Vec<HdrRow>), NoMemory>
    requires { frames.now.lsda ≡ true }
    ensures bytes { IfOk result (λ both. both.0.items ≡ frames_bytes (with_tables (map listed_frame frames.now.fdes.items)) address) }
    ensures stands { OnOk result (FramesWritten (map listed_frame frames.now.fdes.items) address) }
    ensures rows { IfOk result (λ both. both.1.items ≡ header_rows address (map listed_frame frames.now.fdes.items)) }
{
    let mut bytes = Vec::new(alloc);
    write_eh_frame(alloc, frames, address, &mut bytes)?;
    if bytes.len() >= 0x1_0000_0000 {
        return Err(AllocError);
    }
    let first = address.checked_add(CIE as u64).ok_or(AllocError)?;
    let (_, entries) = bytes.as_slice().split_at(CIE);
    let rows = rows_from(alloc, address, first, frames.fdes.as_slice(), entries)?;
    Ok((bytes, rows))
}

/// Puts frames and behind them their header, where the first byte stands at an address; gives that of
/// the header.
pub fn put_frames(
    alloc: Global,
    base: u64,
    fdes: Vec<ListFde>,
    out: &mut Vec<u8>,
) -> Result<u64, NoMemory>
    ensures header { IfOk result (λ header. header ≡ frames_end (map listed_frame fdes.items) (base + length out.old.items)) }
    ensures frames { OnOk result (FramesWritten (map listed_frame fdes.items) (base + length out.old.items)) }
    ensures heads { IfOk result (λ header. HeaderWritten (map listed_frame fdes.items) (base + length out.old.items) header) }
    ensures bytes { IfOk result (λ header. out.new.items ≡
        out.old.items ++ framed_bytes (map listed_frame fdes.items) (base + length out.old.items) header) }
{
    let address = base.checked_add(out.len() as u64).ok_or(AllocError)?;
    let frames = FrameList { lsda: true, fdes };
    let (bytes, rows) = frames_at(alloc, &frames, address)?;
    let header = address.checked_add(bytes.len() as u64).ok_or(AllocError)?;
    out.extend_from_slice(bytes.as_slice())?;
    write_hdr(alloc, rows.as_slice(), address, header, out)?;
    Ok(header)
}
