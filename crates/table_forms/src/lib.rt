//! What exception tables, frame information and its header table mean, as definitions over plain
//! lists of bytes and segments, for the crates that read, write, look up and check them; and why
//! one is refused.
#![tactic(auto)]

mod found;
mod law;
mod reason;
mod refusal;

pub use found::{Action, Next, Row, Rule, Site, Verdict};
pub use law::a_chain_loops_where_it_repeats;
pub use reason::Reason;
pub use refusal::{Refusal, joined, refused, unless};
