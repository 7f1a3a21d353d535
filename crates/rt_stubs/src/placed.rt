// The runtime's own functions with their places.
use eh_bytes::Emitted;

/// The runtime's own functions, and the address of the first word of each.
#[derive(Drop)]
pub struct Stubs {
    pub emitted: Emitted,
    pub start: u64,
    pub terminate: u64,
    pub end_catch: u64,
    pub call_unexpected: u64,
}
