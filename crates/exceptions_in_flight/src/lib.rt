//! Exceptions between a throw and a handler, in linear code: which call stops one, to which pads it comes, and what its slots hold on the way.
//! The laws are calls of no effect.
#![tactic(auto)]

pub mod laws;
