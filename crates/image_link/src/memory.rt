// The segments of an image.
ghost use Rattle.std.specs.Prelude.{◌≡◌, ◌∷◌, [], ◌+◌, ◌≤◌, ◌<◌, ◌^◌, length, true, false, IfOk};
ghost use Rattle.eh_bytes.specs.Memory.{part_of, memory_of};
ghost use Rattle.image_forms.specs.Linked.{part_at};

use crate::NoMemory;
use crate::layout::Layout;
use eh_bytes::{Segment, Segments};
use std::alloc::Global;

/// What the segments of an image hold: globals, type records, code, and names with tables.
#[derive(Drop)]
pub struct Contents {
    pub globals: Vec<u8>,
    pub records: Vec<u8>,
    pub code: Vec<u8>,
    pub constants: Vec<u8>,
}

// A segment that is read, and what it allows besides.
fn segment(address: u64, bytes: Vec<u8>, write: bool, exec: bool) -> Segment
    ensures { part_of result ≡ part_at address write exec bytes.items }
{
    Segment {
        address,
        bytes,
        file_at: 0,
        write,
        exec,
    }
}

/// The segments of an image, each of which ends where the next one begins or before.
pub fn segments(alloc: Global, layout: &Layout, contents: Contents) -> Result<Segments, NoMemory>
    requires globals { layout.now.globals + length contents.globals.items ≤ layout.now.records }
    requires records { layout.now.records + length contents.records.items ≤ layout.now.code }
    requires code { layout.now.code + length contents.code.items ≤ layout.now.names }
    requires low { layout.now.names + length contents.constants.items < 2 ^ 64 }
    ensures { IfOk result (λ s. memory_of s ≡
        part_at layout.now.globals true false contents.globals.items ∷
        part_at layout.now.records false false contents.records.items ∷
        part_at layout.now.code false true contents.code.items ∷
        part_at layout.now.names false false contents.constants.items ∷ []) }
{
    let mut parts = Vec::new(alloc);
    parts.push(segment(layout.globals, contents.globals, true, false))?;
    parts.push(segment(layout.records, contents.records, false, false))?;
    parts.push(segment(layout.code, contents.code, false, true))?;
    parts.push(segment(layout.names, contents.constants, false, false))?;
    Ok(Segments { parts })
}
