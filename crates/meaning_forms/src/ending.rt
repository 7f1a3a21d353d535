// How a program ends.

/// How a program ends.
#[derive(Clone, Copy, Debug, PartialEq, Eq)]
pub enum MeanEnd {
    Exit(i32),
    Aborted,
    /// From here on the program has no meaning.
    Undefined,
    /// A turn was needed, and none was left.
    OutOfTurns,
    /// A call would have been one more than may be open.
    Deep,
}
