// A frame description entry where it lies.
use eh_bytes::Region64;

/// An FDE of a segment: the place of its length, its region, the address of its exception table or
/// 0, and where its instructions begin and end.
#[derive(Clone, Copy, Drop)]
pub struct FdePart {
    pub at: usize,
    pub region: Region64,
    pub lsda: u64,
    pub first: usize,
    pub stop: usize,
}
