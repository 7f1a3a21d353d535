//! The front end of the compiler: the checked program of a source, or why it is refused and where.
#![tactic(auto)]

mod error;
mod front;

pub use error::SourceError;
pub use front::checked;
pub use std::alloc::AllocError as NoMemory;
