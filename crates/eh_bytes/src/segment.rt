// Segments of memory.
ghost use Rattle.eh_bytes.specs.Extent.{AreApart, AreInRange, extents_of};

/// A range of memory, where its bytes lie in a file, and what it allows besides reading.
///
/// `bytes` holds the whole memory size, with zeros behind the bytes of the file.
#[derive(Drop)]
pub struct Segment {
    pub address: u64,
    pub bytes: Vec<u8>,
    pub file_at: u64,
    pub write: bool,
    pub exec: bool,
}

/// Segments that do not overlap, and end at or below 2^64.
#[derive(Drop)]
pub struct Segments {
    pub parts: Vec<Segment>,
    pub ghost apart: { AreApart (extents_of parts.items) },
    pub ghost in_range: { AreInRange (extents_of parts.items) },
}
