//! Images in ELF files (ELF-64 Object File Format): little-endian, for RISC-V, of fixed or of any
//! place in memory; read, and written.
#![tactic(auto)]

mod elf;
mod error;
mod header;
mod laid;
mod load;
mod memory;
pub mod number;
pub mod program;
mod put;
mod runtime_header;
mod start;
mod write;

pub use eh_bytes::RuntimeRecord;
pub use elf::{Elf, read_elf};
pub use error::ImageError;
pub use put::put_words;
pub use start::frames_start;
pub use std::alloc::AllocError as NoMemory;
pub use write::{ImageParts, write_elf};
