//! What each call of a built-in function is given in the linear code of checked programs, and where its value is wanted. Laws alone.
#![tactic(auto)]

pub mod laws;
