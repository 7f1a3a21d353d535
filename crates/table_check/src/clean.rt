// Whole images.
ghost use Rattle.std.specs.Prelude.{◌≡◌};
ghost use Rattle.elf_image.specs.Clean.{clean, judged};
ghost use Rattle.table_check.specs.Checks.{ReadsClean, ChecksImage};

use crate::order::in_order;
use crate::refusal::of_frames;
use crate::summary::Summary;
use crate::tables::count_tables;
use elf_image::{Elf, ImageError, read_elf};
use frame_read::{Fde, Frames, read_frames};
use std::alloc::Global;

/// An image of which nothing is refused.
#[derive(Drop)]
pub struct CleanImage {
    pub elf: Elf,
    pub frames: Frames,
    /// The FDEs by location, those of one location by place.
    pub order: Vec<Fde>,
    pub summary: Summary,
}

/// The clean image in a file, or the first of its refusals: those of the file, with `run` also those
/// of one that is to run, then of the header and the frames, then of each exception table in the
/// order of its function's region (docs/TABLES.md), or memory ran out. It takes time in proportion
/// to the file, the memory of its segments and the tables, but for a logarithm.
pub fn read_image(alloc: Global, bytes: &[u8], run: bool) -> Result<CleanImage, ImageError>
    ensures { ReadsClean result (judged bytes.now run) }
{
    let elf = read_elf(alloc, bytes, run)?;
    let frames = match read_frames(alloc, &elf.segments, elf.frame_header) {
        Err(e) => return Err(of_frames(e)),
        Ok(frames) => frames,
    };
    let order = in_order(alloc, frames.fdes())?;
    let counted = count_tables(alloc, &elf.segments, order.as_slice())?;
    let summary = Summary {
        cies: frames.cies().len() as u64,
        frames: order.len() as u64,
        tables: counted.tables,
        sites: counted.sites,
    };
    Ok(CleanImage {
        elf,
        frames,
        order,
        summary,
    })
}

/// How much a clean image has, or the refusal of `read_image`.
///
/// ```rust
/// let summary = check_image(alloc, &file)?;
/// println!(rt; "{} frames, {} tables", summary.frames, summary.tables)?;
/// ```
pub fn check_image(alloc: Global, bytes: &[u8]) -> Result<Summary, ImageError>
    ensures { ChecksImage result (clean bytes.now) }
{
    Ok(read_image(alloc, bytes, false)?.summary)
}
