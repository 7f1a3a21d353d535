//! What a program means. `specs/` has the definitions, over plain trees: its objects and exceptions, what each expression, statement,
//! call, throw and handler does, and how the program ends.
#![tactic(auto)]

pub mod ending;
pub mod laws;
