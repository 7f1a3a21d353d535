// Code and words in segments of memory.
ghost use Rattle.std.specs.Prelude.{◌≡◌, ◌<◌, ◌&&◌, length};
ghost use Rattle.std.specs.List.{list_any};
ghost use Rattle.eh_bytes.specs.Memory.{part_of, memory_of, covers, is_code, word_in, word_at};

use crate::number::u64_from;
use crate::segment::{Segment, Segments};

// Whether the segment has a byte at the address.
fn is_covered(part: &Segment, address: u128) -> bool
    ensures { result ≡ covers (part_of part.now) address }
{
    part.address as u128 <= address && address - (part.address as u128) < part.bytes.len() as u128
}

// Whether there is code at the address.
fn has_code(parts: &[Segment], address: u128) -> bool
    ensures { result ≡ list_any (λ part. part.exec && covers (part_of part) address) parts.now }
{
    parts
        .iter()
        .any(|part| part.exec && is_covered(part, address))
}

// Eight bytes of a segment.
fn word_in(part: &Segment, at: usize) -> Option<u64>
    requires { at < length part.now.bytes.items }
    ensures { result ≡ word_in (part_of part.now) at }
{
    let bytes = &part.bytes[at..];
    if bytes.len() < 8 {
        return None;
    }
    Some(u64_from(bytes))
}

impl Segments {
    /// Whether a segment of code has a byte at the address, which may be any sum of numbers of 64
    /// bits.
    #[tactic(auto, using(crate::proofs::Mapped::any_map))]
    pub fn is_code(&self, address: u128) -> bool
        ensures { result ≡ is_code (memory_of self.now) address }
    {
        has_code(&self.parts, address)
    }

    /// The eight-byte word at an address, low byte first, where it lies whole in one segment.
    pub fn word_at(&self, address: u64) -> Option<u64>
        ensures { result ≡ word_at (memory_of self.now) address }
    {
        let part = self.segment_with(address)?;
        word_in(part, (address - part.address) as usize)
    }
}
