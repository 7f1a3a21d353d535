// What segments hold at an address.
ghost use Rattle.std.specs.Prelude.{◌≡◌, ◌-◌, ◌<◌, ◌≤◌, IfSome, find, length, option_map};
ghost use Rattle.std.specs.Option.{option_copied};
ghost use Rattle.eh_bytes.specs.Memory.{bytes_from, covers, memory_of, part_of, part_with};

use crate::segment::{Segment, Segments};

impl Segment {
    /// Whether it has a byte at the address.
    pub fn covers(&self, address: u64) -> bool
        ensures { result ≡ covers (part_of self.now) address }
    {
        self.address <= address && address - self.address < self.bytes.len() as u64
    }
}

// The first segment that has a byte at the address.
fn first_with(parts: &[Segment], address: u64) -> Option<&Segment>
    ensures first { option_copied result ≡ find (λ part. covers (part_of part) address) parts.now }
    ensures from { IfSome result (λ part. part.now.address ≤ address) }
    ensures inside { IfSome result (λ part. address - part.now.address < length part.now.bytes.items) }
{
    parts.iter().find(|part| part.covers(address))
}

impl Segments {
    /// The segment that has a byte at the address.
    #[tactic(auto, using(crate::proofs::Mapped::find_map))]
    pub fn segment_with(&self, address: u64) -> Option<&Segment>
        ensures with { option_map part_of (option_copied result) ≡ part_with (memory_of self.now) address }
        ensures from { IfSome result (λ part. part.now.address ≤ address) }
        ensures inside { IfSome result (λ part. address - part.now.address < length part.now.bytes.items) }
    {
        first_with(&self.parts, address)
    }

    /// The bytes from the address on to the end of its segment; none where no segment holds it.
    pub fn bytes_at(&self, address: u64) -> Option<&[u8]>
        ensures { option_map (λ bytes. bytes.now) result ≡ bytes_from (memory_of self.now) address }
    {
        let part = self.segment_with(address)?;
        let at = (address - part.address) as usize;
        Some(&part.bytes[at..])
    }
}
