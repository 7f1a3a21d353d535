//! The image of a checked program: the compiler behind the front end, pass by pass.
#![tactic(auto)]

mod image;
pub mod laws;

pub use cxx_ast::NoMemory;
pub use image::image_of;
