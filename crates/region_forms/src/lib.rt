//! Programs as regions, in which cleanups, handlers, barriers and exits are explicit. `specs/` has the definitions: regions as plain
//! data, how a checked program is lowered to them, and what they mean.
#![tactic(auto)]

pub mod laws;
