//! Linked images: emitted code and the runtime's own functions, with their tables, as one ELF file.
#![tactic(auto)]

mod frames;
mod image;
mod laid;
pub mod laws;
mod layout;
mod memory;
mod named;
mod records;
mod symbols;
mod tables;

pub use image::link;
pub use named::link_named;
pub use std::alloc::AllocError as NoMemory;
