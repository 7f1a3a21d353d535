// The runtime's own functions before they have a place.
use crate::line::Line;
use eh_bytes::{FrameMove, ListSite};

/// A function with its exception table and its frame. Places count in bytes from its first word.
pub struct Listing {
    pub name: &'static [u8],
    pub code: &'static [Line],
    pub sites: &'static [ListSite],
    /// The filters of each chain.
    pub chains: &'static [&'static [i64]],
    /// The types that filters name; 0 is `catch (...)`.
    pub types: &'static [u64],
    /// The changes of the frame.
    pub moves: &'static [FrameMove],
}
