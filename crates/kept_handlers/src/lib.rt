//! How many handlers open calls have, and that what a specification stopped stays handled while call_unexpected waits. The laws are calls of no effect.
#![tactic(auto)]

pub mod laws;
