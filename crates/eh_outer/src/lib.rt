//! What lies outside the program: a store of files, a sink of bytes, and modules of other languages.
//!
//! Each is a trait whose ghost members say what it means. `MemStore` and `MemSink` are the first two in memory, `Once` and
//! `Runs` the third.
#![tactic(auto)]

mod mem_sink;
mod mem_store;
mod module;
mod once;
mod refusals;
mod runs;
mod schedule;
mod sink;
mod store;
mod tokens;

pub use mem_sink::MemSink;
pub use mem_store::MemStore;
pub use module::{Module, Reply};
pub use once::Once;
pub use refusals::{Refusal, Refusals};
pub use runs::Runs;
pub use sink::{Sink, SinkError};
pub use std::alloc::AllocError as NoMemory;
pub use store::{RefusalKind, Store, StoreError};
