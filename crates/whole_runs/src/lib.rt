//! A whole run of an image follows the run of its linear code, where each step of the one is matched by turns of the other.
#![tactic(auto)]

pub mod laws;
