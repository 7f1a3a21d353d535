//! That the two proofs about sources and regions, of statements and of exceptions, meet: what the one asks of exceptions is what the other gives.
#![tactic(auto)]

pub mod laws;
