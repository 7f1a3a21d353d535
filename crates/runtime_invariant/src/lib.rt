//! What every run of the ABI machine keeps: memory that may not be written, and the header of an exception on its way. The laws are calls of no effect.
#![tactic(auto)]

pub mod laws;
