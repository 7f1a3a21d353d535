// A section .debug_frame as a whole.
ghost use Rattle.std.specs.Prelude.{◌<◌, ◌^◌, length};
ghost use Rattle.debug_frames.specs.DebugParts.{debug_frames};
ghost use Rattle.debug_frames.specs.ReadsDebug.{ReadsDebug};

use crate::gather::PartsRead;
use crate::list::DebugFrames;
use crate::order::in_order;
use crate::parts::parts_from;
use eh_bytes::Segment;
use elf_image::ImageError;
use std::alloc::Global;

/// The frames of a section .debug_frame whose bytes begin at a place of the file, or the first of
/// all their refusals, as docs/TABLES.md has them (DWARF 5, 6.4.1), or memory ran out. Reading grows
/// as n log n in the size of the section.
pub fn read_debug(alloc: Global, section: &[u8], at: u64) -> Result<DebugFrames, ImageError>
    requires small { length section.now < 2 ^ 32 }
    ensures { ReadsDebug result (debug_frames section.now at) }
{
    let segment = Segment {
        address: 0,
        bytes: section.to_vec(alloc)?,
        file_at: at,
        write: false,
        exec: false,
    };
    let parts = parts_from(alloc, &segment)?;
    if let Some(refusal) = parts.least {
        return Err(refusal.into());
    }
    let order = in_order(alloc, parts.fdes.as_slice())?;
    let PartsRead { cies, fdes, .. } = parts;
    Ok(DebugFrames::of(segment, cies, fdes, order))
}
