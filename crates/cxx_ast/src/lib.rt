//! The tokens and trees of the language that the compiler takes, a subset of C++03, as its front end passes them on. `specs/`
//! says what the tokens of a source are, which tree a list of tokens has, and which rules a program may break.
#![tactic(auto)]

pub mod declaration;
pub mod expression;
pub mod keyword;
pub mod mark;
pub mod name;
pub mod program;
pub mod standard;
pub mod statement;
pub mod text;
pub mod token;
pub mod types;

pub use std::alloc::AllocError as NoMemory;
