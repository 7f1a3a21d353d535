//! One operation of linear code is matched by the turns that its words take on the ABI machine. `specs/` says which states match which
//! worlds, and the laws are calls of no effect.
#![tactic(auto)]

pub mod laws;
