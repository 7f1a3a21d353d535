//! What a raise does on the machine's stack is what the search and the unwind of linear code do. `specs/` says how open calls lie on the
//! stack and what their tables say of them, and the laws are calls of no effect.
#![tactic(auto)]

pub mod laws;
