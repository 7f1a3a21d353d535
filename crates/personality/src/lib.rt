//! What a frame does with an exception, from the bytes of its exception table (Itanium C++ ABI:
//! Exception Handling, "The Personality Routine" and "Exception Handling Tables").
#![tactic(auto)]

mod filter;
mod place;
mod thrown;
mod types;
mod verdict;

pub use filter::allows;
pub use place::FrameView;
pub use thrown::Thrown;
pub use types::TypeChain;
pub use verdict::personality;
