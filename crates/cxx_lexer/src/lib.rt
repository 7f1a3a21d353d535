//! Reads the tokens of a source in one pass, each the longest lexeme at its place, or the first fault that a source has.
#![tactic(auto)]

mod error;
mod front;
mod keywords;
mod literal;
mod marks;
mod runs;
mod source;

pub use error::LexError;
pub use source::lex;
pub use std::alloc::AllocError as NoMemory;
