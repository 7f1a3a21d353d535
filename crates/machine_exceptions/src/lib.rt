//! Operations on exceptions that raise nothing: each step of the machine for linear code at such an operation is matched by the turns that its
//! words take on the ABI machine.
#![tactic(auto)]

pub mod laws;
