//! Between two turns of its loops a call runs each operation of its function, and each word, at most once. The laws are calls of no effect.
#![tactic(auto)]

pub mod laws;
