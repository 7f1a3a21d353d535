//! The two phases of a raise, a raise that resumes, and a forced unwind (Itanium C++ ABI: Exception
//! Handling, level I), by the tables of the image that a machine runs.
#![tactic(auto)]

mod asked;
mod enter;
mod find;
mod first;
mod found;
mod goal;
mod law;
mod lookup;
mod phases;
mod raised;
mod readable;

pub use law::{a_fault_is_a_broken_stack, more_frames_make_no_difference};
pub use phases::{forced, raise, resume};
pub use raised::Raised;
pub use readable::tables_are_readable;
