//! A throw, a rethrow, a raise that goes on and a forced unwind do in words what the machine for linear code does. `specs/` says what that
//! means, and the laws are calls of no effect.
#![tactic(auto)]

pub mod laws;
