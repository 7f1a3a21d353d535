//! How long a function of a checked program can be, so that each of its jumps reaches. The laws are calls of no effect.
#![tactic(auto)]

pub mod laws;
