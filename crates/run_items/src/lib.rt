//! What a running program shows, item by item, and the lines in which the items are printed.
//!
//! An item is an int that the program writes, or an event of one of its exceptions. Each line is one put, which takes no memory.
#![tactic(auto)]

mod item;
mod line;

pub use item::Item;
pub use line::{Text, is_printed, put_item, text_of};
