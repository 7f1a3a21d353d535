//! No call of a program with fewer turns than calls allowed is too deep. Laws alone.
#![tactic(auto)]

pub mod laws;
