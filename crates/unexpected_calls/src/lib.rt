//! The function call_unexpected of the runtime, whole: what becomes of an exception that a specification stopped. `specs/` says what that
//! means, and the laws are calls of no effect.
#![tactic(auto)]

pub mod laws;
