//! What the laws of raises in machine code ask of a unit is so of the unit of every checked program.
#![tactic(auto)]

pub mod laws;
