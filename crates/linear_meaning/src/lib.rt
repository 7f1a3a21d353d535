//! That the linear code of a source does what the source means, by its regions, watched: definitions of what is said, and the proof.
#![tactic(auto)]

pub mod laws;
