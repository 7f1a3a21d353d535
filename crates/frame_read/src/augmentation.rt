// What the letters of an augmentation say.

/// The encoding of the pointers to exception tables, if there are any, the encoding of locations,
/// and whether the next frame outward is one that a signal interrupted.
#[derive(Clone, Copy, Drop)]
pub struct Letters {
    pub lsda_encoding: Option<u8>,
    pub encoding: u8,
    pub signal: bool,
}

/// Without letters locations are absolute, and there is no exception table.
pub const NO_LETTERS: Letters = Letters {
    lsda_encoding: None,
    encoding: 0,
    signal: false,
};
