//! The layout of a program's classes: where the parts of an object stand, in bytes.
#![tactic(auto)]

mod classes;
mod forms;
pub mod laws;

pub use classes::layout;
pub use cxx_ast::NoMemory;
pub use forms::{ClassLayout, Layout};
