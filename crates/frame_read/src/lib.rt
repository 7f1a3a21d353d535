//! Reads frame information and its header table where they lie in memory: which function a place
//! lies in, and the row that its frame entry gives the place. The readers of instructions and rows take
//! a segment and places in it, and serve other forms of frames too.
#![tactic(auto)]

mod augmentation;
mod cfa;
pub mod cie;
pub mod cie_fold;
pub mod cie_folds;
pub mod cie_part;
pub mod cie_search;
pub mod entry;
mod error;
mod fde;
pub mod fde_part;
pub mod fde_rows;
mod fde_search;
pub mod field;
mod folding;
mod frame_list;
mod frame_row;
mod frames;
pub mod gather;
mod header;
mod header_read;
pub mod instruction;
mod kept_walk;
mod letters;
mod listed;
mod location;
pub mod lookup;
pub mod moves;
pub mod moves_fold;
mod offset;
mod order;
pub mod overlap;
mod part;
mod parts;
mod plain;
mod read;
pub mod refusal;
mod row;
pub mod row_fold;
pub mod row_walk;
mod rule;
mod search;
pub mod search_fold;
pub mod span;
mod spans;
pub mod states;
pub mod step;
mod sweep;
pub mod text;

pub use cie_folds::CieFolds;
pub use error::FrameError;
pub use fde_rows::FdeRows;
pub use frame_list::Frames;
pub use listed::{Augmentation, Cie, Fde};
pub use read::read_frames;
