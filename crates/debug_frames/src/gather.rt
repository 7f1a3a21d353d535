// What is gathered of parts.
use frame_read::cie_part::CiePart;
use frame_read::gather::Placed;
use frame_read::lookup::FdeHere;
use table_forms::Refusal;

/// The CIEs and FDEs in the order of their places, as far as they can be read, the regions of the
/// FDEs by their places, and the first of all refusals, if there is any.
#[derive(Drop)]
pub struct PartsRead {
    pub cies: Vec<CiePart<'static>>,
    pub fdes: Vec<FdeHere<'static>>,
    pub regions: Vec<Placed>,
    pub least: Option<Refusal>,
}
