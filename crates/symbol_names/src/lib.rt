//! Names of the functions and types of a program, as the symbols of an image have them (Itanium C++ ABI, 5.1).
#![tactic(auto)]

mod component;
mod digits;
mod function;
mod mangling;
mod program;

pub use cxx_ast::NoMemory;
pub use program::{SymbolNames, symbol_names};
