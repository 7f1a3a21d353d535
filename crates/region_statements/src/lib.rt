//! That statements, calls of functions and what they leave behind are lowered to regions that do the same: definitions of what is said, and the proof.
#![tactic(auto)]

pub mod laws;
