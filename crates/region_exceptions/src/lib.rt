//! That regions do with exceptions what the source that they were made of does: definitions of what is said, and the proof.
#![tactic(auto)]

pub mod laws;
