//! No call of a checked program goes deeper than the evaluator allows. The law is a call of no effect.
#![tactic(auto)]

pub mod laws;
