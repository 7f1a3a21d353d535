//! The number that a landing pad gave stays that of one of its filters, up to what a specification passes on. The laws are calls of no effect.
#![tactic(auto)]

pub mod laws;
