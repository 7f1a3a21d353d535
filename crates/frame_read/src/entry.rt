// What parts say.
use crate::cie_part::CiePart;
use crate::fde_part::FdePart;
use table_forms::Refusal;

/// A CIE, or why it is refused, by the place of its length.
#[derive(Clone, Copy, Drop)]
pub struct CieEntry<'a> {
    pub at: usize,
    pub read: Result<CiePart<'a>, Refusal>,
}

/// What a part says.
#[derive(Clone, Copy, Drop)]
pub enum Said<'a> {
    Refused(Refusal),
    Cie(CiePart<'a>),
    Fde(FdePart, CiePart<'a>),
    /// It is an FDE whose CIE is refused.
    Unread,
}
