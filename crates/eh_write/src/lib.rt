//! Writes exception tables, frames and their header, each in one form. Tables are without LPStart,
//! with type entries that are relative to themselves in four bytes at a multiple of 4, and call
//! sites in ULEB128. Frames have one CIE; the header has a row for each FDE.
#![tactic(auto)]

mod actions;
mod distance;
mod entries;
mod frames;
mod header;
mod layout;
mod lists;
mod lsda;
mod moves;
mod sites;

pub use entries::put_entries;
pub use frames::write_eh_frame;
pub use header::write_hdr;
pub use layout::put_zeros;
pub use lists::put_lists;
pub use lsda::write_lsda;
pub use sites::site_table;
pub use std::alloc::AllocError as NoMemory;
