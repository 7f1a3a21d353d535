// A sweep over regions in the order of their addresses.
use crate::gather::Placed;

/// The region that is kept, which reaches farthest, and the first place left out so far.
#[derive(Drop)]
pub struct Sweep {
    pub kept: Option<Placed>,
    pub least: Option<usize>,
}
