//! What of a clean image no compiler meant: sites and pads that lie inside of instructions, pads in another function, sites without a byte,
//! types that lead outside of memory, and functions that are no code.
#![tactic(auto)]

mod doubt;
mod function;
mod line;
mod site;
mod start;
mod types;

pub use function::doubts_image;
