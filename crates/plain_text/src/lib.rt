//! Numbers and ints in decimal digits without superfluous zeros, and the lines of a text.
#![tactic(auto)]

mod decimal;
mod lines;

pub use decimal::{int_of, is_decimal, number_of, up_to};
pub use lines::line_length;
