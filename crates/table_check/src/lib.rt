//! Judges an image whole: whether nothing is refused of its file, of its frames and of the exception
//! tables that these name.
#![tactic(auto)]

mod clean;
mod known;
mod order;
mod refusal;
mod summary;
mod tables;

pub use clean::{CleanImage, check_image, read_image};
pub use elf_image::ImageError;
pub use summary::Summary;
