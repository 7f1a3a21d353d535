//! Prints a clean image: its segments, its frames with their rows, and its exception tables.
#![tactic(auto)]

mod dump;
mod frame;
mod function;
mod head;
mod line;
pub mod row;
mod table;
pub mod text;

pub use dump::dump_image;
pub use elf_image::ImageError;
