// Where a part stands.

/// A part of .eh_frame: where its length stands, and where it ends.
#[derive(Clone, Copy, Drop)]
pub struct Span {
    pub at: usize,
    pub stop: usize,
}
