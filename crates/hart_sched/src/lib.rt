//! Several harts of one image under a schedule, each with its own memory and input. They share the limit of exception objects.
#![tactic(auto)]

mod hart;
mod harts;
mod laws;
mod line;
mod number;
mod schedule;
mod seat;
mod told;

pub use cxa_runtime::End;
pub use eh_outer::NoMemory;
pub use hart::{Hart, HartRan};
pub use harts::Harts;
pub use laws::{harts_run_apart, loaded_harts_are_ready, schedules_are_read};
pub use schedule::{ScheduleError, read_schedule};
pub use seat::Seat;
