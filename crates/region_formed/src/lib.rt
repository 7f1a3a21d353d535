//! What may be relied on of the regions of a checked program.
#![tactic(auto)]

pub mod laws;
