// Why a table is refused.
use table_forms::Reason;
use thiserror::Error;

/// Why an exception table is refused.
#[derive(Clone, Copy, Debug, PartialEq, Eq, Error)]
#[error("exception table refused: {} at {place}", .reason.number())]
pub struct TableError {
    pub reason: Reason,
    /// Where it stands in the file. A place that passes 2^64 - 1 is 2^64 - 1.
    pub place: u64,
    /// A second value where two differ. In an exception table it is always 0.
    pub other: u64,
}
