//! That linear code does what the regions that it was made of do: definitions of what is said, and the proof. `proofs/` goes form by form.
#![tactic(auto)]

pub mod laws;
