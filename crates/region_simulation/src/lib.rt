//! That regions do what the source that they were made of does: definitions of what is said, and the proof. `proofs/` goes form by form.
#![tactic(auto)]

pub mod laws;
