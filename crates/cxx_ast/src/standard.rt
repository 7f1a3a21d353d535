// The standard of the language.

/// The standard whose rules a source is read by: ISO/IEC 14882:2003, or clause 15 of ISO/IEC 14882:2011 too.
#[derive(Drop, Clone, Copy, PartialEq, Eq)]
pub enum Std {
    Cxx03,
    Cxx11,
}
