//! Frames in the form for debuggers, and whether they say what the frames of an image say.
#![tactic(auto)]

mod agreement;
mod cie;
mod compare;
mod comparison;
mod difference;
mod fde;
mod find;
mod gather;
mod list;
mod meeting;
mod merge;
mod names;
mod order;
mod part;
mod parts;
mod read;
mod same_row;
mod section;
mod spans;

pub use agreement::Agreement;
pub use compare::compare_frames;
pub use comparison::agree;
pub use find::find_debug;
pub use list::DebugFrames;
pub use read::read_debug;
