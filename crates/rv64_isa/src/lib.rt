//! The instructions of RV64IM and their words, and what one step of the machine does.
#![tactic(auto)]

pub mod arithmetic;
mod decoding;
mod encoding;
mod immediates;
mod instr;
mod opcodes;
mod registers;
mod step;
mod word_fields;

pub use decoding::{Illegal, decode};
pub use encoding::encode;
pub use immediates::{BranchOffset, Immediate12, Immediate20, JumpOffset};
pub use instr::Instr;
pub use registers::{Register, Shift5, Shift6};
pub use step::{FaultKind, Step};
