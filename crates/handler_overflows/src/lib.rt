//! A terminate handler for whose frame the stack has no room: the run ends for want of stack. `specs/` says what that means, and the laws are
//! calls of no effect.
#![tactic(auto)]

pub mod laws;
