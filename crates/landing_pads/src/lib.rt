//! Linear code: regions as operations in a row, with labels, call sites, chains of filters, type tables, specification lists and landing pads.
#![tactic(auto)]

mod copied;
mod covers;
mod emission;
mod emitting;
mod exits;
mod filters;
mod frame;
mod function;
mod handling;
pub mod laws;
mod numbers;
mod outs;
mod placed;
mod program;
mod protecting;
mod put;
mod raising;
mod sites;
mod types;
pub mod unit;
mod ways;

pub use cxx_ast::NoMemory;
pub use program::pads;
