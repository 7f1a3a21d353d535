// What is gathered of parts.
use crate::listed::{Cie, Fde};
use eh_bytes::Region64;
use table_forms::Refusal;

/// The region of an FDE, by the place of its length.
#[derive(Clone, Copy, Drop)]
pub struct Placed {
    pub at: usize,
    pub region: Region64,
}

/// The CIEs and FDEs in the order of their places, as far as they can be read, and the first of all
/// refusals, if there is any.
#[derive(Drop)]
pub struct PartsRead {
    pub cies: Vec<Cie>,
    pub fdes: Vec<Fde>,
    pub(crate) regions: Vec<Placed>,
    pub least: Option<Refusal>,
}
