//! The runtime of C++ exceptions over a simulated machine: the calls of the Itanium C++ ABI: Exception
//! Handling, levels I and II, that compiled code makes.
//!
//! A `Runtime` makes one turn after the other, each an instruction or a runtime call. What a turn shows
//! is written where it is made. After `Runtime::new` no call takes memory.
#![tactic(auto)]

mod allocating;
mod asked;
mod call;
mod calling;
mod cancel;
mod catching;
mod constant;
mod effect;
mod flight;
mod foreign;
mod globals;
mod laws;
mod object;
mod plain;
mod raising;
mod readings;
mod registers;
mod runtime;
mod shown;
mod terminating;
mod throwing;
mod turn;
mod types;
mod unexpected;
mod unwinder;
mod unwinding;

pub use constant::is_constant;
pub use effect::{End, Turn};
pub use laws::foreign_exceptions_are_cleaned_once;
pub use runtime::Runtime;
pub use std::alloc::AllocError as NoMemory;
