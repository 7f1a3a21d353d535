//! The modules of other languages that a program calls and whose foreign exceptions it cleans up, by their number.
//!
//! A `Host` passes each call to one module alone, and keeps them until it is closed. No call takes memory.
#![tactic(auto)]

mod host;

pub use host::{Host, NoModule};
