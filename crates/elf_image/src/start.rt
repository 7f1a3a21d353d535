// Where the frames of a header begin.
ghost use Rattle.std.specs.Prelude.{◌≡◌, Ok};
ghost use Rattle.eh_bytes.specs.Memory.{memory_of};
ghost use Rattle.table_forms.specs.Frames as forms;
ghost use Rattle.elf_image.specs.Runnable.{frames_start};

use eh_bytes::{RawCursor, Segments};

// DW_EH_PE_pcrel and DW_EH_PE_sdata4.
const FRAMES_POINTER: u8 = 0x1b;

/// The address to which a header's pointer leads, where its frames can be read.
pub fn frames_start(memory: &Segments, header: u64) -> Option<u64>
    ensures { (read : forms.Frames) → forms.frames (memory_of memory.now) header ≡ Ok read → result ≡ frames_start (memory_of memory.now) header }
{
    let segment = memory.segment_with(header)?;
    let place = (header - segment.address) as usize;
    if segment.bytes.len() - place < 4 {
        return None;
    }
    let mut cursor = RawCursor::new(&segment.bytes, place + 4);
    match cursor.take_encoded(FRAMES_POINTER, segment.address) {
        Err(_) => None,
        Ok(pointer) => Some(pointer.value),
    }
}
