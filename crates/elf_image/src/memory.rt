// The memory that loaded segments make.
ghost use Rattle.std.specs.Prelude.{◌≡◌, ◌<◌, ◌≤◌, ◌^◌, ◌+◌, map, IfOk, [], length};
ghost use Rattle.eh_bytes.specs.Memory as memories;
ghost use Rattle.eh_bytes.specs.Memory.{memory_of};
ghost use Rattle.elf_image.specs.Loads.{part_of, AreSound, Placed};

use crate::program::ProgramHeader;
use eh_bytes::{Segment, Segments};
use std::alloc::{AllocError, Global};

// The segment of a header that is placed in the file.
fn segment_of(alloc: Global, file: &[u8], header: &ProgramHeader) -> Result<Segment, AllocError>
    requires { Placed (length file.now) header.now }
    ensures { IfOk result (λ segment. memories.part_of segment ≡ part_of file.now header.now) }
{
    let start = header.offset as usize;
    let end = start + header.file_size as usize;
    let mut bytes = file[start..end].to_vec(alloc)?;
    bytes.resize(header.memory_size as usize, 0)?;
    Ok(Segment {
        address: header.address,
        bytes,
        file_at: header.offset,
        write: header.is_writable(),
        exec: header.is_executable(),
    })
}

// The segments, one by one.
#[tactic(auto, using(crate::proofs::Sound::all_placed))]
fn parts_of(alloc: Global, file: &[u8], loads: &[ProgramHeader]) -> Result<Vec<Segment>, AllocError>
    requires { AreSound (length file.now) 0 [] loads.now }
    ensures { IfOk result (λ parts. map memories.part_of parts.items ≡ map (part_of file.now) loads.now) }
{
    let mut parts = Vec::new(alloc);
    let mut rest = loads;
    'loads: while let Some((header, others)) = rest.split_first() {
        parts.push(segment_of(alloc, file, header)?)?;
        rest = others;
    }
    Ok(parts)
}

/// The memory of segments of which nothing is refused.
pub fn memory_of(
    alloc: Global,
    file: &[u8],
    loads: &[ProgramHeader],
) -> Result<Segments, AllocError>
    requires { AreSound (length file.now) 0 [] loads.now }
    ensures { IfOk result (λ memory. memory_of memory ≡ map (part_of file.now) loads.now) }
{
    let parts = parts_of(alloc, file, loads)?;
    Ok(Segments { parts })
}
