//! Sections and symbols of an image's file (ELF-64 Object File Format): their headers and tables stand behind the segments,
//! for tools that look at a file by its sections. What is read by the program headers stays the same.
#![tactic(auto)]

mod header;
pub mod laws;
mod section;
mod symbol;
mod write;

pub use section::{Places, SectionKind, Span};
pub use std::alloc::AllocError as NoMemory;
pub use symbol::Symbol;
pub use write::with_sections;
