//! What the runtime's own functions do at their ends, in words: they free what they hold, leave their handlers, and go on. `specs/` says what that
//! means, and the laws are calls of no effect.
#![tactic(auto)]

pub mod laws;
