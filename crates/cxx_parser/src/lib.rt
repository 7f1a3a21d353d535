//! Reads the tree of a list of tokens in one descent with one token of look-ahead, or answers the first fault of the tokens.
#![tactic(auto)]

mod caught;
mod class;
mod error;
mod expression;
mod function;
mod locals;
mod nodes;
mod program;
mod simple;
mod statement;
mod tokens;
mod types;

pub use error::ParseError;
pub use program::parse;
pub use std::alloc::AllocError as NoMemory;
