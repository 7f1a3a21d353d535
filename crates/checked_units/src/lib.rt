//! What laws of machine code ask of a unit is so of the unit of every checked program: its words and frames, its tables, what its operations ask for,
//! and how a run of its image begins. The laws are calls of no effect.
#![tactic(auto)]

pub mod laws;
