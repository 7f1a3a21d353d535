//! The words of compiled code do on the machine what the operations of linear code do. `specs/` says what that means, piece by piece, and
//! the laws are calls of no effect.
#![tactic(auto)]

pub mod laws;
