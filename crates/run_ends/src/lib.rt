//! The line of how a run ended.
#![tactic(auto)]

mod line;

pub use line::{EndText, end_text};
