// Whether something may be written where the runtime reads an image.
ghost use Rattle.std.specs.Prelude.{◌≡◌, ◌++◌, Ok, option_map, flat_map};
ghost use Rattle.eh_bytes.specs.Memory.{memory_of};
ghost use Rattle.table_forms.specs.Fault.{least};
ghost use Rattle.table_forms.specs.Frames as forms;
ghost use Rattle.table_forms.specs.Seen.{fault_of};
ghost use Rattle.elf_image.specs.Runnable.{frames_start, frames_written, written_at};
ghost use Rattle.eh_run.specs.Written.{table_written, tables_written};

use eh_bytes::Segments;
use elf_image::frames_start;
use frame_read::Fde;
use table_forms::{Reason, Refusal, joined, unless};

// Refused where the segment that holds the address, if one does, may be written.
#[tactic(auto, unfolding(table_forms::specs::Fault::least))]
fn written_at(memory: &Segments, address: u64) -> Option<Refusal>
    ensures { option_map fault_of result ≡ least (written_at (memory_of memory.now) address) }
{
    let segment = memory.segment_with(address)?;
    let place = segment.file_at as u128 + (address - segment.address) as u128;
    unless(!segment.write, Reason::TableWritable, place)
}

// The same of the exception table of a function, if it names one.
#[tactic(auto, unfolding(table_forms::specs::Fault::least))]
fn table_written(memory: &Segments, fde: &Fde) -> Option<Refusal>
    ensures { option_map fault_of result ≡ least (table_written (memory_of memory.now) fde.now.lsda) }
{
    if fde.lsda == 0 {
        None
    } else {
        written_at(memory, fde.lsda)
    }
}

// The one that answers of all exception tables.
fn tables_written(memory: &Segments, fdes: &[Fde]) -> Option<Refusal>
    ensures { option_map fault_of result ≡ least (tables_written (memory_of memory.now) fdes.now) }
{
    let mut least = None;
    let mut rest = fdes;
    'fdes: while let Some((fde, others)) = rest.split_first() {
        least = joined(least, table_written(memory, fde));
        rest = others;
    }
    least
}

// The same of where the frames begin.
#[tactic(auto, unfolding(table_forms::specs::Fault::least))]
fn frames_written(memory: &Segments, header: u64) -> Option<Refusal>
    ensures { (read : forms.Frames) → forms.frames (memory_of memory.now) header ≡ Ok read →
        option_map fault_of result ≡ least (frames_written (memory_of memory.now) (frames_start (memory_of memory.now) header)) }
{
    match frames_start(memory, header) {
        None => None,
        Some(start) => written_at(memory, start),
    }
}

/// `TableWritable` for an image whose frames can be read: the header, the frames or an
/// exception table that an FDE names lies where it may be written.
pub fn written_refusal(memory: &Segments, header: u64, fdes: &[Fde]) -> Option<Refusal>
    ensures { (read : forms.Frames) → forms.frames (memory_of memory.now) header ≡ Ok read →
        option_map fault_of result ≡ least (written_at (memory_of memory.now) header ++
        frames_written (memory_of memory.now) (frames_start (memory_of memory.now) header) ++ tables_written (memory_of memory.now) fdes.now) }
{
    let frames = joined(written_at(memory, header), frames_written(memory, header));
    joined(frames, tables_written(memory, fdes))
}
