//! How a raise and a forced unwind end in words where they come to no landing pad. `specs/` says what that means, and the laws are calls of
//! no effect.
#![tactic(auto)]

pub mod laws;
