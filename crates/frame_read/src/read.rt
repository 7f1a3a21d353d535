// Header and frames together (LSB Core, "The .eh_frame_hdr section").
ghost use Rattle.std.specs.Prelude.{◌≡◌, ◌+◌, ◌++◌, ◌<◌, ◌≤◌, ◌^◌, ℕ, List, map, length, option_map, IfOk};
ghost use Rattle.eh_bytes.specs.Memory.{part_of, memory_of};
ghost use Rattle.table_forms.specs.Fault.{least};
ghost use Rattle.table_forms.specs.Fde as forms;
ghost use Rattle.table_forms.specs.Parts.{Parts};
ghost use Rattle.table_forms.specs.Header.{Header};
ghost use Rattle.table_forms.specs.Frames.{parts_behind, sorted, table_disagreement, frames_in, frames};
ghost use Rattle.table_forms.specs.Seen.{fault_of};
ghost use Rattle.frame_read.specs.Listed.{fde_listed};
ghost use Rattle.frame_read.specs.SeenHeader.{summary, header_seen};
ghost use Rattle.frame_read.specs.ReadsFrames.{ReadsFrames};
ghost use Rattle.frame_read.specs.Whole.{whole, whole_seen};

use crate::error::FrameError;
use crate::frame_list::Frames;
use crate::frames::read_parts;
use crate::gather::PartsRead;
use crate::header::header_of;
use crate::header_read::HeaderRead;
use crate::listed::Fde;
use crate::order::{disagreement, in_order, with_places};
use eh_bytes::{HdrRow, Segment, Segments};
use std::alloc::{AllocError, Global};
use table_forms::{Reason, Refusal, joined, refused};

// What the parts say to which the pointer at a place leads.
#[tactic(auto, unfolding(table_forms::specs::Fault::least))]
fn parts_behind(
    alloc: Global,
    memory: &Segments,
    pointer_place: u128,
    frames_at: Option<u64>,
) -> Result<PartsRead, AllocError>
    ensures { IfOk result (λ parts. whole_seen parts ≡ whole (parts_behind (memory_of memory.now) pointer_place frames_at)) }
{
    let Some(address) = frames_at else {
        return Ok(PartsRead::nothing(alloc));
    };
    match read_parts(alloc, memory, address)? {
        Some(parts) => Ok(parts),
        None => Ok(PartsRead::refused(alloc, refused(Reason::FrameTruncated, pointer_place))),
    }
}

// What is refused first of a header and parts.
fn first_refusal(read: &HeaderRead, parts: &PartsRead) -> Option<Refusal>
    ensures { (h : Header) (p : Parts) → header_seen read.now ≡ summary h → whole_seen parts.now ≡ whole p → option_map fault_of result ≡ least (h.faults ++ p.faults) }
{
    joined(read.least, parts.least)
}

// Where a header's table, if there is one, is not the list of the FDEs by location.
fn table_refusal(place: u128, rows: &Option<Vec<HdrRow>>, order: &[Fde]) -> Option<Refusal>
    requires { place < 2 ^ 66 }
    ensures { (fs : List forms.Fde) → order.now ≡ map fde_listed (sorted fs) → option_map fault_of result ≡ table_disagreement place (option_map (λ v. v.items) rows.now) fs }
{
    match rows {
        None => None,
        Some(rows) => disagreement(place, rows, order),
    }
}

// The frames whose header stands at a place of a segment.
fn read_in(
    alloc: Global,
    memory: &Segments,
    segment: &Segment,
    header: u64,
    place: usize,
) -> Result<Frames, FrameError>
    requires start { header ≡ segment.now.address + place }
    requires place { place ≤ length segment.now.bytes.items }
    ensures { ReadsFrames result (frames_in (memory_of memory.now) place (part_of segment.now)) }
{
    let read = header_of(alloc, segment, header, place)?;
    let pointer_place = segment.file_at as u128 + (place as u128 + 4);
    let parts = parts_behind(alloc, memory, pointer_place, read.frames_at)?;
    if let Some(refusal) = first_refusal(&read, &parts) {
        return Err(refusal.into());
    }
    let table_place = segment.file_at as u128 + (place as u128 + 12);
    let order = in_order(alloc, &parts.fdes)?;
    if let Some(refusal) = table_refusal(table_place, &read.rows, &order) {
        return Err(refusal.into());
    }
    let PartsRead { cies, fdes, .. } = parts;
    Ok(Frames::of(cies, fdes, with_places(order)))
}

/// The frames whose header stands at an address, or the first of all their refusals: `LebRange`,
/// `Encoding` and from `FrameTruncated` to `HeaderDisagrees` (docs/TABLES.md; LSB Core, "Exception
/// Frames"), or memory ran out. Reading grows as n log n in the number of CIEs and FDEs.
///
/// ```rust
/// let frames = read_frames(alloc, &memory, 0x2000)?;
/// if let Some(fde) = frames.fde_for(pc) {
///     let row = frames.row_at(&memory, &fde, pc);
///     println!(rt; "CFA: x{}{:+}", row.cfa_register, row.cfa_offset)?;
/// }
/// ```
#[tactic(auto, unfolding(table_forms::specs::Frames::frames))]
pub fn read_frames(alloc: Global, memory: &Segments, header: u64) -> Result<Frames, FrameError>
    ensures { ReadsFrames result (frames (memory_of memory.now) header) }
{
    match memory.segment_with(header) {
        None => Err(refused(Reason::FrameTruncated, 0).into()),
        Some(segment) => {
            let place = (header - segment.address) as usize;
            read_in(alloc, memory, segment, header, place)
        }
    }
}
