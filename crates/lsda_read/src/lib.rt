//! Reads the exception table of a function where it lies in memory. A table is judged whole
//! when it is opened; after that its sites, chains, type entries and lists are given without a
//! further refusal. Memory is taken where what was judged is kept, and for the numbers that a table
//! names.
#![tactic(auto)]

mod action;
mod chain;
mod chain_walk;
mod demands;
mod entry;
mod error;
mod field;
mod filter;
mod head;
mod head_fields;
mod keys;
mod known;
mod list;
mod list_walk;
mod lsda;
mod named;
mod refusal;
mod shape;
mod site;
mod sites;
mod table;
mod table_walk;

pub use chain::Chain;
pub use demands::Demands;
pub use error::TableError;
pub use list::SpecList;
pub use lsda::Lsda;
pub use named::Numbers;
pub use shape::Shape;
pub use sites::Sites;
