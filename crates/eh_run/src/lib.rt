//! Loads an image for the ABI machine, and runs it.
#![tactic(auto)]

mod counting;
mod laws;
mod loaded;
mod loading;
mod running;
mod written;

pub use counting::{Counted, run_counted};
pub use cxa_runtime::End;
pub use elf_image::ImageError;
pub use laws::a_greater_budget_goes_on;
pub use loaded::Loaded;
pub use loading::load;
pub use running::{Ran, run};
