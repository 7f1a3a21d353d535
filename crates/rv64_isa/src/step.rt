// What a step can do.

/// Why a step could not be done.
#[derive(Clone, Copy, Debug, PartialEq, Eq)]
pub enum FaultKind {
    /// No instruction has the word.
    Illegal,
    /// A fetch, a load or a store at an address that is no multiple of its size, or a jump to one
    /// that is no multiple of 4.
    Misaligned,
    /// A fetch outside executable memory, or a load or a store outside memory.
    Unmapped,
    /// A store to memory that may not be written.
    ReadOnly,
    /// The instruction EBREAK.
    Break,
    /// A runtime call whose condition does not hold.
    Call,
    /// A walk over the frames of the stack that cannot go on.
    Walk,
}

/// What a step did. A fault leaves the machine as it was.
#[derive(Clone, Copy, Debug, PartialEq, Eq)]
pub enum Step {
    Done,
    /// The instruction ECALL: the pc has moved on, and nothing else is changed.
    Ecall,
    Fault(FaultKind),
}
