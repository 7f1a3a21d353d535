// Parts in memory.
ghost use Rattle.std.specs.Prelude.{◌≡◌, ◌-◌, IfOk, option_map};
ghost use Rattle.eh_bytes.specs.Memory.{memory_of, part_with};
ghost use Rattle.table_forms.specs.Parts.{parts_at};
ghost use Rattle.frame_read.specs.Whole.{whole, whole_seen};

use crate::gather::PartsRead;
use crate::parts::parts_from;
use eh_bytes::Segments;
use std::alloc::{AllocError, Global};

/// What the parts of .eh_frame say from an address on; none where no segment holds the address.
pub fn read_parts(
    alloc: Global,
    memory: &Segments,
    address: u64,
) -> Result<Option<PartsRead>, AllocError>
    ensures { IfOk result (λ r. option_map whole_seen r ≡ option_map (λ part. whole (parts_at part (address - part.address))) (part_with (memory_of memory.now) address)) }
{
    match memory.segment_with(address) {
        None => Ok(None),
        Some(segment) => {
            let place = (address - segment.address) as usize;
            Ok(Some(parts_from(alloc, segment, place)?))
        }
    }
}
