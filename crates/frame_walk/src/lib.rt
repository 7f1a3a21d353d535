//! Walks from a frame of the stack to the one outward, by the frame tables of the image.
#![tactic(auto)]

mod frame;
mod located;
mod outward;
mod placing;
mod registers;

pub use frame::{Frame, Walk};
pub use located::Located;
pub use outward::{cfa_of, row_for, step_by, step_out};
pub use placing::locate;
pub use rv64_isa::FaultKind;
