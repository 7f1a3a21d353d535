//! The step law of whole runs: from each state of a run of a checked program in which the invariant stands, linear code and the ABI machine go on to another, end, or use up the stack alike. Laws alone.
#![tactic(auto)]

pub mod laws;
