//! What holds between two steps of the machine for linear code, in every run of every program. The laws are calls of no effect.
#![tactic(auto)]

pub mod laws;
