//! What a run of linear code weighs, by its turns. The laws are calls of no effect.
#![tactic(auto)]

pub mod laws;
