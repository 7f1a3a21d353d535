//! Linear code with call sites and landing pads, as plain data. `specs/` has the definitions: what linear code is, what its tables say,
//! what it does at a machine of steps, and how regions are lowered to it.
#![tactic(auto)]

pub mod laws;
