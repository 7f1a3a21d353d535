//! What becomes of an exception at places of a clean image: the frame, its row, the call site, its
//! filters and the verdict; and the two phases over several places.
#![tactic(auto)]

mod asked;
mod at;
mod error;
mod filter;
mod frame;
mod function;
mod phases;
mod place;
mod site;
mod types;

pub use asked::Asked;
pub use at::at_image;
pub use error::PlaceError;
pub use function::{fde_at, table_of};
