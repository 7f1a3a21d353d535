// The headers of exception objects.

/// What kind of exception an object is.
#[derive(Clone, Copy, Debug, PartialEq, Eq)]
pub enum HeaderKind {
    /// Not thrown yet, or no longer caught and not freed yet.
    Building,
    /// Thrown by compiled code: the addresses of its type record and of its destructor, 0 where it has none.
    Native(u64, u64),
    /// Raised by a module of another language: the module's number, and the module's token.
    Foreign(u32, u32),
}

/// The header of an exception object, without its handlerCount.
#[derive(Clone, Copy, Debug, PartialEq, Eq)]
pub struct Header {
    /// Its number, in the order of making.
    pub number: u64,
    pub kind: HeaderKind,
    /// The handlers for terminate and for unexpected that were in effect when it was thrown, 0 where there is none.
    pub handlers: (u64, u64),
    /// The CFA of the frame that catches it.
    pub target: u64,
    /// The address of that frame's LSDA.
    pub lsda: u64,
}
