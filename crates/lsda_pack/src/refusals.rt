// What is refused of an image that is clean, where it is to be packed.
ghost use Rattle.std.specs.Prelude.{◌≡◌, [], map, option_map, IfOk, Ok};
ghost use Rattle.eh_bytes.specs.Memory.{memory_of};
ghost use Rattle.table_forms.specs.Fault.{least};
ghost use Rattle.table_forms.specs.Frames as forms;
ghost use Rattle.table_forms.specs.Seen.{fault_of};
ghost use Rattle.lsda_pack.specs.Gathered.{others_by, parts_by};
ghost use Rattle.lsda_pack.specs.Reaches.{part_taken, shared_taken};
ghost use Rattle.lsda_pack.specs.SharedFile.{file_faults};

use crate::NoMemory;
use crate::file_shared::file_refusal;
use crate::gathered::{others_taken, parts_taken, segments_taken, tables_taken};
use crate::placing::Placing;
use crate::shared::shared_refusal;
use eh_bytes::Segments;
use elf_image::program::ProgramHeader;
use std::alloc::Global;
use table_forms::Refusal;

/// What is refused of segments that share bytes of the file.
pub fn segments_refusal(alloc: Global, loads: &[ProgramHeader]) -> Result<Option<Refusal>, NoMemory>
    ensures { IfOk result (λ first. option_map fault_of first ≡ least (file_faults [] loads.now)) }
{
    let parts = segments_taken(alloc, loads)?;
    file_refusal(alloc, parts.as_slice())
}

/// What is refused of tables that share bytes with another, or with anything else that is read.
pub fn tables_refusal(
    alloc: Global,
    memory: &Segments,
    header: u64,
    headers: &[ProgramHeader],
    placings: &[Placing],
) -> Result<Option<Refusal>, NoMemory>
    ensures { IfOk result (λ first. (read : forms.Frames) → forms.frames (memory_of memory.now) header ≡ Ok read → option_map fault_of first ≡ least (shared_taken (map (λ p. p.taken) placings.now) (others_by (memory_of memory.now) header placings.now) (map part_taken (parts_by headers.now)))) }
{
    let tables = tables_taken(alloc, placings)?;
    let others = others_taken(alloc, memory, header, placings)?;
    let parts = parts_taken(alloc, headers)?;
    shared_refusal(
        alloc,
        tables.as_slice(),
        others.as_slice(),
        parts.as_slice(),
    )
}
