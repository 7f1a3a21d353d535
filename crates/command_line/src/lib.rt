//! The words of the command line: which command they are, with its operands and options.
#![tactic(auto)]

mod address;
mod command;
mod error;
mod found;
mod matches;
mod operands;
mod options;
mod parted;
mod reader;
mod script;
mod setting;

pub use command::{Command, Raised, Verb};
pub use eh_outer::Reply;
pub use error::WordsError;
pub use operands::source_size;
pub use reader::{read_words, scripts};
