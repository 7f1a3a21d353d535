// What the end of a handler makes of its exception.

/// What became of the exception whose handler ended, by its slot.
#[derive(Clone, Copy, Debug, PartialEq, Eq)]
pub enum Ended {
    /// Another handler has it still.
    Active(u32),
    /// It was thrown again, and is on its way.
    Travelling(u32),
    /// No handler has it any more.
    Last(u32),
}
