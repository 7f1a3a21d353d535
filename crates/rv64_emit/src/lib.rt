//! Machine code of linear code: the RV64IM words of a unit's functions, with their exception tables and frame moves.
#![tactic(auto)]

mod body;
mod builtin;
mod call;
mod code;
mod immediate;
mod kept;
mod labels;
pub mod laws;
mod leaf;
mod linear;
mod moves;
mod numbers;
mod operation;
mod operator;
mod piece;
mod place;
mod places;
mod register;
mod runtime_call;
mod saving;
mod shape;
mod starts;
mod table;
mod test;
mod unit;
mod value;
mod words;

pub use cxx_ast::NoMemory;
pub use unit::emit;
