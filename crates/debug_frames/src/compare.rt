// Both forms of the frames in a file.
ghost use Rattle.std.specs.Prelude.{◌<◌, ◌^◌, length};
ghost use Rattle.debug_frames.specs.Compares.{ComparesFrames};

use crate::agreement::Agreement;
use crate::comparison::agree;
use crate::find::find_debug;
use crate::read::read_debug;
use crate::section::bytes_at;
use elf_image::ImageError;
use std::alloc::Global;
use table_check::read_image;

/// What the frames of a clean image and its section .debug_frame say of all locations, or the first
/// refusal: those of `table_check::check_image`, then those of `find_debug` and of `read_debug`, or
/// memory ran out.
///
/// ```rust
/// match compare_frames(alloc, &file)? {
///     Agreement::Same(both, ..) => println!(rt; "{both} locations")?,
///     Agreement::Differ(pc, ..) => println!(rt; "not at {pc:#x}")?,
/// }
/// ```
pub fn compare_frames(alloc: Global, bytes: &[u8]) -> Result<Agreement, ImageError>
    requires small { length bytes.now < 2 ^ 32 }
    ensures { ComparesFrames result bytes.now }
{
    let image = read_image(alloc, bytes, false)?;
    let (offset, size) = find_debug(bytes)?;
    let section = bytes_at(bytes, offset, size);
    let debug = read_debug(alloc, section, offset)?;
    Ok(agree(alloc, &image.elf.segments, &image.frames, &debug)?)
}
