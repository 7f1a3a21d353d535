// Operations and cleanups.
use crate::place::Place;
use crate::value::{Arg, Callee, Value};

/// One operation.
#[derive(Drop, PartialEq, Eq)]
pub enum RegionOp {
    /// Drops the value.
    Evaluate(Value),
    /// Writes an int.
    Store(Place, Value),
    /// Puts the address of a place in a slot.
    Bind(u32, Place),
    /// Drops the result.
    Call(Callee, Vec<Arg>),
    /// A place, the constructor's function, and its arguments.
    Construct(Place, u32, Vec<Arg>),
    /// A place, and the destructor's function.
    Destroy(Place, u32),
    /// Puts the address of a new exception object in a slot.
    Make(u32),
    /// The slot of the object, its type, and its destructor.
    Throw(u32, u32, Option<u32>),
    Rethrow,
    /// The slot of the object.
    Enter(u32),
    /// Leaves the newest handler.
    Leave,
}

/// What is done where a region is left.
#[derive(Drop, Clone, Copy, PartialEq, Eq)]
pub enum Cleanup {
    /// Destroys a place at every exit.
    Scope(Place, u32),
    /// Destroys a place at an exit by an exception or a forced unwind.
    Part(Place, u32),
    /// Frees the object of a slot at an exit by an exception or a forced unwind.
    Free(u32),
    /// Leaves a handler at every exit.
    Leave,
}
