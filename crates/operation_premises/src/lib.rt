//! What each operation of linear code asks of the frame that it runs in is there, and stays so while a program runs. `specs/` says what is asked,
//! and the laws are calls of no effect.
#![tactic(auto)]

pub mod laws;
