//! The host's files and streams as a store and sinks, and the words of the command line. Of a file and of a terminal nothing is told.
#![tactic(auto)]

mod beside;
mod files;
mod identity;
mod replace;
mod streams;
mod whole;
mod words;

pub use beside::Exclusive;
pub use files::FileStore;
pub use streams::StreamSink;
pub use whole::{Got, read_whole, write_whole};
pub use words::words_of;
