//! Bounds of what is made of a source: laws that say how much code, and which tables, a checked program has.
#![tactic(auto)]

pub mod laws;
