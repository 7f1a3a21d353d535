// Images that are written.
ghost use Rattle.std.specs.Prelude.{◌≡◌, true, false, IfOk, OnOk};
ghost use Rattle.elf_image.specs.Written.{front_bytes, image_bytes};
ghost use Rattle.elf_image.specs.CanWrite.{CanWriteImage, CanRunImage, NumbersFit};
ghost use Rattle.elf_image.specs.Stands.{contents_of, WritesImage};
ghost use Rattle.elf_image.specs.Behind.{StandBehind};

use crate::NoMemory;
use crate::laid::headers_for;
use crate::put::{put_file_header, put_programs, put_record, put_segments};
use eh_bytes::{RuntimeRecord, Segments};
use std::alloc::{AllocError, Global};

/// What an image is to hold: where it begins, its memory, the address of the frames' header, and
/// what the runtime is told. Where the segments stand in a file is not read.
#[derive(Drop)]
pub struct ImageParts {
    pub entry: u64,
    pub segments: Segments,
    pub frame_header: u64,
    pub runtime: RuntimeRecord,
}

// The header of the file, the program headers and the record.
fn front_of(alloc: Global, parts: &ImageParts) -> Result<Vec<u8>, NoMemory>
    ensures bytes { IfOk result (λ bytes. bytes.items ≡ front_bytes (contents_of parts.now)) }
    ensures words { OnOk result (NumbersFit (contents_of parts.now)) }
{
    let headers = headers_for(alloc, parts)?;
    let count = u16::try_from(headers.len()).map_err(|_| AllocError)?;
    let mut bytes = Vec::new(alloc);
    put_file_header(&mut bytes, parts.entry, count)?;
    put_programs(&mut bytes, headers.as_slice())?;
    put_record(&mut bytes, parts.runtime)?;
    Ok(bytes)
}

/// The file of an image: the header, the program headers, the record for the runtime, and the
/// segments, each as soon as a page of the file can be its page.
///
/// Of 1 to 60 segments in rising order of address, of at most 1 GiB in all, one has the frames'
/// header, and one that is executable the terminate stub, which is a multiple of 4: then
/// `read_elf` refuses nothing of the file, and reads these parts; and all that its program headers
/// name stands behind the header of the file.
#[tactic(auto, unfolding(crate::specs::Written::image_bytes))]
pub fn write_elf(alloc: Global, parts: &ImageParts) -> Result<Vec<u8>, NoMemory>
    ensures bytes { IfOk result (λ bytes. bytes.items ≡ image_bytes (contents_of parts.now)) }
    ensures stands { OnOk result (CanWriteImage (contents_of parts.now) → WritesImage (contents_of parts.now) false (image_bytes (contents_of parts.now))) }
    ensures behind { OnOk result (CanWriteImage (contents_of parts.now) → StandBehind (image_bytes (contents_of parts.now))) }
    ensures runs { OnOk result (CanWriteImage (contents_of parts.now) → CanRunImage (contents_of parts.now) → WritesImage (contents_of parts.now) true (image_bytes (contents_of parts.now))) }
{
    let mut bytes = front_of(alloc, parts)?;
    put_segments(&mut bytes, parts.segments.parts.as_slice())?;
    Ok(bytes)
}
