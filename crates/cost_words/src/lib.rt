//! How many words of code a checked program runs at most, by its calls and loops. The laws are calls of no effect.
#![tactic(auto)]

pub mod laws;
