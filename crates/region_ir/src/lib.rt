//! Programs as regions, in which cleanups, handlers, barriers and exits are explicit.
#![tactic(auto)]

mod called;
mod calling;
mod calls;
mod catching;
mod expression;
mod function;
mod handling;
pub mod held;
mod implicit;
mod initialiser;
pub mod laws;
mod lower;
mod lowered;
mod lowering;
mod mentioned;
mod numbering;
mod numbers;
pub mod operation;
mod part;
mod parts;
pub mod place;
mod plain;
pub mod program;
mod pure;
pub mod region;
mod simple;
mod slots;
mod source;
mod statement;
mod throwing;
mod types;
pub mod value;
mod variable;

pub use cxx_ast::NoMemory;
pub use lowered::regions;
