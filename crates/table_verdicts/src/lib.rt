//! The exception table that is written for a routine says of each operation what the routine's call sites say of it, for every exception and
//! for a forced unwind. `specs/` says what that means, and the law is a call of no effect.
#![tactic(auto)]

pub mod laws;
