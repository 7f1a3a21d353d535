//! The static rules of a whole program: `check` answers with the same program where it breaks none, every name bound to what it
//! stands for, and else with the rule that is broken at the least place, and there the least number.
#![tactic(auto)]

mod bound;
mod checked;
mod class;
mod class_entry;
mod class_head;
mod class_tree;
mod declared;
mod declared_names;
mod declared_tree;
mod error;
mod headed;
mod heading;
mod held;
mod inside;
mod measure;
mod once;
mod own;
mod parts;
mod places;
mod rebuilt;
mod rebuilt_statement;
mod refused;
mod resolved;
mod settled;
mod standards;
mod tree;
mod variables;

pub use checked::check;
pub use cxx_rules::Refusal;
pub use error::CheckError;
pub use refused::refusal;
pub use std::alloc::AllocError as NoMemory;
