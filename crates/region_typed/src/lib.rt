//! That checked programs are typed, as the proof asks that regions do what a source means: names stand for what they are used as.
#![tactic(auto)]

pub mod laws;
