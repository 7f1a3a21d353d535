//! Raises, what goes on and forced unwinds that come to a landing pad of the runtime's own functions, or begin in one. `specs/` says what that
//! means, and the laws are calls of no effect.
#![tactic(auto)]

pub mod laws;
