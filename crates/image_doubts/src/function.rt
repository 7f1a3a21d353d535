// All functions of an image.
ghost use Rattle.std.specs.Prelude.{◌≡◌, ◌++◌, ◌+◌, ◌<◌, ◌^◌, List, Some, IfOk, OnOk, flat_map};
ghost use Rattle.eh_bytes.specs.Memory.{memory_of};
ghost use Rattle.elf_image.specs.Clean as images;
ghost use Rattle.lsda_read.specs.WholeTable.{IsWhole};
ghost use Rattle.table_dump.specs.Seen.{AreFunctions, IsFunction};
ghost use Rattle.place_verdicts.specs.Image.{IsRead};
ghost use Rattle.image_doubts.specs.Doubts.{DoubtsImage, doubts, function_doubts, table_doubts};

use crate::line::put_no_code;
use crate::site::put_sites;
use crate::start::marks_of;
use crate::types::put_types;
use eh_bytes::Region64;
use elf_image::ImageError;
use frame_read::Fde;
use lsda_read::Lsda;
use place_verdicts::table_of;
use std::alloc::{AllocError, Global};
use table_check::{CleanImage, read_image};

// What is doubted of a table of a function.
fn put_table(
    alloc: Global,
    out: &mut Vec<u8>,
    image: &CleanImage,
    region: Region64,
    table: &Lsda<'_>,
) -> Result<(), AllocError>
    requires read { (c : images.CleanImage) × IsRead image.now c }
    requires ends { region.start + region.length < 2 ^ 64 }
    requires whole { IsWhole table.now }
    ensures { OnOk result ((c : images.CleanImage) → IsRead image.now c → out.new.items ≡ out.old.items ++ table_doubts (memory_of image.now.elf.segments) c.functions region (Some table.now)) }
{
    let memory = &image.elf.segments;
    let marks = marks_of(alloc, memory, region)?;
    put_sites(alloc, out, image, region, marks.as_slice(), table)?;
    put_types(alloc, out, memory, region, table)?;
    Ok(())
}

// What is doubted of a function.
fn put_function(
    alloc: Global,
    out: &mut Vec<u8>,
    image: &CleanImage,
    fde: &Fde,
) -> Result<(), AllocError>
    requires read { (c : images.CleanImage) × IsRead image.now c }
    requires function { (g : images.Function) × IsFunction (memory_of image.now.elf.segments) image.now.frames fde.now g }
    ensures { OnOk result ((c : images.CleanImage) (g : images.Function) → IsRead image.now c → IsFunction (memory_of image.now.elf.segments) image.now.frames fde.now g →
        out.new.items ≡ out.old.items ++ function_doubts (memory_of image.now.elf.segments) c.functions g) }
{
    put_no_code(alloc, out, &image.elf.segments, fde.region)?;
    match table_of(&image.elf.segments, fde) {
        None => Ok(()),
        Some(table) => {
            put_table(alloc, out, image, fde.region, &table)?;
            Ok(())
        }
    }
}

// What is doubted of the functions of FDEs.
fn put_functions(
    alloc: Global,
    out: &mut Vec<u8>,
    image: &CleanImage,
    fdes: &[Fde],
) -> Result<(), AllocError>
    requires read { (c : images.CleanImage) × IsRead image.now c }
    requires functions { (gs : List images.Function) × AreFunctions (memory_of image.now.elf.segments) image.now.frames fdes.now gs }
    ensures { OnOk result ((c : images.CleanImage) (gs : List images.Function) → IsRead image.now c → AreFunctions (memory_of image.now.elf.segments) image.now.frames fdes.now gs →
        out.new.items ≡ out.old.items ++ flat_map (function_doubts (memory_of image.now.elf.segments) c.functions) gs) }
{
    let mut rest = fdes;
    'fdes: while let Some((fde, others)) = rest.split_first() {
        put_function(alloc, out, image, fde)?;
        rest = others;
    }
    Ok(())
}

fn text_of(alloc: Global, image: &CleanImage) -> Result<Vec<u8>, AllocError>
    requires { (c : images.CleanImage) × IsRead image.now c }
    ensures { IfOk result (λ text. (c : images.CleanImage) → IsRead image.now c → text.items ≡ doubts c) }
{
    let mut out = Vec::new(alloc);
    put_functions(alloc, &mut out, image, image.order.as_slice())?;
    Ok(out)
}

/// The doubts of the clean image in a file, by function and site, none where there are none; or the first of its refusals, as of
/// `table_check::check_image`, or memory ran out.
pub fn doubts_image(alloc: Global, bytes: &[u8]) -> Result<Vec<u8>, ImageError>
    ensures { DoubtsImage result (images.clean bytes.now) }
{
    let image = read_image(alloc, bytes, false)?;
    Ok(text_of(alloc, &image)?)
}
