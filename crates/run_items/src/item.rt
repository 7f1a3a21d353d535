// What a program shows.

/// What a program writes, and what becomes of its exceptions. An exception goes by its number: native and foreign ones
/// are counted together from 1, in the order in which they are made or raised.
#[derive(Clone, Copy, Debug, PartialEq, Eq)]
pub enum Item {
    /// `write_int` prints the int.
    Line(i32),
    /// A native exception object is made.
    Make(u64),
    /// A foreign exception is raised by a module, with a token.
    Foreign(u64, u32, u32),
    /// A handler, a specification or terminate enters the exception.
    Enter(u64),
    /// The exception is left.
    Leave(u64),
    /// The destruction of the exception begins.
    Destroy(u64),
    /// The exception object is given back.
    Free(u64),
    /// A module's cleanup is called with a token.
    Clean(u32, u32),
}
