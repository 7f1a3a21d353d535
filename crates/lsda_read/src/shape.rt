// The form of a table.
ghost use Rattle.std.specs.Prelude.{◌≡◌, ◌≤◌, vec_len};
ghost use Rattle.eh_bytes.specs.Memory.{memory_of, part_of};
ghost use Rattle.lsda_read.specs.Reads.{Reads};
ghost use Rattle.lsda_read.specs.Shapes.{shape_at, shape, ReadsShape};

use crate::error::TableError;
use crate::field::byte_at;
use crate::head_fields::head_of;
use eh_bytes::{Region64, Segment, Segments};
use table_forms::{Reason, Refusal, refused};

/// How LPStart and types are encoded, and where actions and types lie (Itanium C++ ABI,
/// "Exception Handling Tables"). Addresses are whole numbers: where no entry is named, the base
/// may lie at or above 2^64.
#[derive(Clone, Copy, Drop)]
pub struct Shape {
    /// The encoding of LPStart; 255 is none.
    pub lp_start: u8,
    /// The encoding of type entries; 255 is none.
    pub ttype: u8,
    /// The address of the first byte of the action table.
    pub actions: u128,
    /// The address of the base of the types; 0 without types.
    pub base: u128,
}

// The form of the table at a place of a segment.
#[tactic(auto, unfolding(crate::specs::Shapes::shape_at))]
fn shape_in(segment: &Segment, region: Region64, place: usize) -> Result<Shape, Refusal>
    requires { place ≤ vec_len segment.now.bytes }
    ensures { Reads (λ x. x) result (shape_at (part_of segment.now) region place) }
{
    let (lp_start, _) = byte_at(segment.bytes.as_slice(), segment.file_at, place)?;
    let head = head_of(segment, region, place)?;
    let address = segment.address as u128;
    let actions = address + head.actions_at;
    match head.types {
        None => Ok(Shape {
            lp_start,
            ttype: 255,
            actions,
            base: 0,
        }),
        Some(types) => Ok(Shape {
            lp_start,
            ttype: types.encoding,
            actions,
            base: address + types.base,
        }),
    }
}

// The form of the table at an address.
#[tactic(auto, unfolding(crate::specs::Shapes::shape))]
fn shape_from(memory: &Segments, address: u64, region: Region64) -> Result<Shape, Refusal>
    ensures { Reads (λ x. x) result (shape (memory_of memory.now) address region) }
{
    let Some(segment) = memory.segment_with(address) else {
        return Err(refused(Reason::TableTruncated, 0));
    };
    shape_in(segment, region, (address - segment.address) as usize)
}

impl Shape {
    /// The form of the table at an address for the function of a region, or the first refusal of
    /// its head. Of a table that was read nothing is refused. No memory is taken.
    pub fn read_at(memory: &Segments, address: u64, region: Region64) -> Result<Shape, TableError>
        ensures { ReadsShape result (shape (memory_of memory.now) address region) }
    {
        Ok(shape_from(memory, address, region)?)
    }
}
