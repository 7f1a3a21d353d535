//! Which handler is chosen: the exception tables of a function name the guards around each operation, and the search by them ends where the first guard
//! stands that stops the exception. The laws are calls of no effect.
#![tactic(auto)]

pub mod laws;
