//! What linear_invariant asks of code is so of every checked program.
#![tactic(auto)]

pub mod laws;
