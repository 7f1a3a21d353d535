//! The machine's stack: what open calls take of it, and how a run ends that finds no room. The laws are calls of no effect.
#![tactic(auto)]

pub mod laws;
