//! Packs the exception tables of an image: the same filters, types and lists under the same
//! indices, with each chain once, with neighbouring sites that say the same as one, and with
//! chains that end alike sharing their records.
#![tactic(auto)]

mod actions;
mod chains;
mod ends;
mod extents;
mod file_shared;
mod filter;
mod gathered;
mod image;
mod indices;
mod joined;
mod kept_types;
pub mod laws;
mod layout;
mod listing;
mod lists;
mod numbers;
mod packed;
mod packed_bytes;
mod packing;
mod placing;
mod reach;
mod refusals;
mod rewrite;
mod rewriting;
mod rule;
mod shared;

pub use image::pack_image;
pub use packed::pack_lists;
pub use packed_bytes::write_packed;
pub use rewriting::Packed;
pub use std::alloc::AllocError as NoMemory;
