// The whole text.
ghost use Rattle.std.specs.Prelude.{◌≡◌, ◌++◌, ℕ, List, Ok, IfOk, OnOk, flat_map};
ghost use Rattle.eh_bytes.specs.Memory.{memory_of};
ghost use Rattle.table_forms.specs.Frames as forms;
ghost use Rattle.elf_image.specs.Clean as images;
ghost use Rattle.frame_read.specs.ReadsFrames.{ReadsFrames};
ghost use Rattle.table_check.specs.Checks.{IsSeen};
ghost use Rattle.table_dump.specs.Heads.{frames_part, cie_line};
ghost use Rattle.table_dump.specs.Dump.{dump, DumpsImage};

use crate::function::put_functions;
use crate::head::{base_of, put_cies, put_image, put_segments};
use eh_bytes::Segments;
use elf_image::ImageError;
use frame_read::Frames;
use std::alloc::{AllocError, Global};
use table_check::{CleanImage, read_image};

// The CIEs of the frames whose header stands at an address.
fn put_frames_cies(
    alloc: Global,
    out: &mut Vec<u8>,
    memory: &Segments,
    header: u64,
    frames: &Frames,
) -> Result<(), AllocError>
    requires { ReadsFrames (Ok frames.now) (forms.frames (memory_of memory.now) header) }
    ensures { OnOk result ((d : forms.Frames) → forms.frames (memory_of memory.now) header ≡ Ok d →
        out.new.items ≡ out.old.items ++ flat_map (cie_line (frames_part (memory_of memory.now) header)) d.cies) }
{
    match base_of(memory, header) {
        None => Ok(()),
        Some(base) => {
            put_cies(alloc, out, base, frames.cies())?;
            Ok(())
        }
    }
}

fn text_of(alloc: Global, image: &CleanImage) -> Result<Vec<u8>, AllocError>
    requires { (file : List ℕ) × (c : images.CleanImage) × (images.clean file ≡ Ok c) × IsSeen image.now c }
    ensures { IfOk result (λ text. (file : List ℕ) (c : images.CleanImage) → images.clean file ≡ Ok c → IsSeen image.now c → text.items ≡ dump c) }
{
    let mut out = Vec::new(alloc);
    let memory = &image.elf.segments;
    put_image(alloc, &mut out, image.elf.entry)?;
    put_segments(alloc, &mut out, memory.parts.as_slice())?;
    put_frames_cies(
        alloc,
        &mut out,
        memory,
        image.elf.frame_header,
        &image.frames,
    )?;
    put_functions(
        alloc,
        &mut out,
        memory,
        &image.frames,
        image.order.as_slice(),
    )?;
    Ok(out)
}

/// The text of a clean image: its entry, its segments, its CIEs, and its functions with their rows
/// and tables; or the first of its refusals, as of `table_check::check_image`, or memory ran out.
pub fn dump_image(alloc: Global, bytes: &[u8]) -> Result<Vec<u8>, ImageError>
    ensures { DumpsImage result (images.clean bytes.now) }
{
    let image = read_image(alloc, bytes, false)?;
    Ok(text_of(alloc, &image)?)
}
