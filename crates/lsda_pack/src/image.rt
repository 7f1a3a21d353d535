// Whole images.
ghost use Rattle.std.specs.Prelude.{◌≡◌, Ok};
ghost use Rattle.elf_image.specs.Clean.{clean};
ghost use Rattle.elf_image.specs.Clean as forms;
ghost use Rattle.lsda_pack.specs.PackedImage.{packing};
ghost use Rattle.lsda_pack.specs.Packs.{PacksImage};
ghost use Rattle.table_check.specs.Checks.{IsSeen};

use crate::placing::place_all;
use crate::refusals::{segments_refusal, tables_refusal};
use crate::rewriting::{Packed, packed_file};
use elf_image::ImageError;
use elf_image::program::{headers_of, loads};
use std::alloc::Global;
use table_check::{CleanImage, read_image};

// A clean image packed.
fn pack_clean(alloc: Global, bytes: &[u8], image: &CleanImage) -> Result<Packed, ImageError>
    requires { (i : forms.CleanImage) × (clean bytes.now ≡ Ok i) × IsSeen image.now i }
    ensures { PacksImage result (packing bytes.now) }
{
    let headers = headers_of(alloc, bytes)?;
    let loads = loads(alloc, headers.as_slice())?;
    if let Some(refusal) = segments_refusal(alloc, loads.as_slice())? {
        return Err(refusal.into());
    }
    let memory = &image.elf.segments;
    let placings = place_all(alloc, memory, loads.as_slice(), image.order.as_slice())?;
    let placings = placings.as_slice();
    let header = image.elf.frame_header;
    if let Some(refusal) = tables_refusal(alloc, memory, header, headers.as_slice(), placings)? {
        return Err(refusal.into());
    }
    Ok(packed_file(alloc, bytes, placings)?)
}

/// An image with each table packed that can be: in its place, with zeros behind it, and every other
/// byte as before; or the first of its refusals: those of a clean image, then segments that share
/// bytes of the file, then tables that share bytes, or memory ran out.
pub fn pack_image(alloc: Global, bytes: &[u8]) -> Result<Packed, ImageError>
    ensures { PacksImage result (packing bytes.now) }
{
    let image = read_image(alloc, bytes, false)?;
    pack_clean(alloc, bytes, &image)
}
