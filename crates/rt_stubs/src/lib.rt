//! The runtime's own functions as machine code with tables: `start`, `terminate`, `end_catch` and
//! `call_unexpected`. Each stands as an assembly listing, with its call sites and its frame beside it.
#![tactic(auto)]

mod assembled;
mod call_unexpected;
mod end_catch;
pub mod laws;
mod line;
mod listing;
pub mod placed;
mod start;
mod terminate;
mod words;

pub use assembled::stubs;
pub use std::alloc::AllocError as NoMemory;
