//! Regions and linear code of a checked program read and write ints inside the objects that their addresses begin at. `specs/` says how many
//! bytes lie behind each address, and the laws are calls of no effect.
#![tactic(auto)]

pub mod laws;
