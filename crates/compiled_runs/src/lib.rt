//! The image of a checked program is the compiled program where its steps are matched by turns: what a run of it shows, and how it ends, is what the program means. Laws alone.
#![tactic(auto)]

pub mod laws;
