//! The call that the program `ehc` makes. It does what `eh_commands` does, and promises besides what the laws of the compiler give.
#![tactic(auto)]

mod top;

pub use command_line::{Command, read_words, scripts};
pub use eh_commands::Status;
pub use gen_source::generate;
pub use top::ehc;
