//! The frames, exception tables and type records of a linked image say what the linear code of its unit says. `specs/` says what that means,
//! and the laws are calls of no effect.
#![tactic(auto)]

pub mod laws;
