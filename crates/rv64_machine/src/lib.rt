//! A simulator of one RV64IM hart: its pc, its 32 registers and its memory, stepped instruction by
//! instruction.
#![tactic(auto)]

mod below;
mod bytes;
mod decoder;
mod front;
mod machine;
mod memory;
mod slots;
mod stack;

pub use machine::Machine;
pub use rv64_isa::{FaultKind, Step};
pub use std::alloc::AllocError as NoMemory;
