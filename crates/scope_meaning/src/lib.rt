//! The plain evaluator: what a checked program means, by going through its tree.
#![tactic(auto, using(scope_flow::proofs::Passing::passing))]

mod arguments;
mod callees;
mod calls;
mod expression;
mod extent;
mod handling;
mod levels;
mod lookup;
mod modules;
mod parts;
mod program;
mod simple;
mod statement;
mod throw;

pub use meaning_forms::ending::MeanEnd;
pub use program::{Meaning, mean};
pub use run_items::Item;
pub use std::alloc::AllocError as NoMemory;
