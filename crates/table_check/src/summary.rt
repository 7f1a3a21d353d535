// How much a clean image has.

/// How many CIEs, FDEs, FDEs that name an exception table, and call sites a clean image has; the
/// sites of a table count once for each FDE that names it.
#[derive(Clone, Copy, Debug, Drop, PartialEq, Eq)]
pub struct Summary {
    pub cies: u64,
    pub frames: u64,
    pub tables: u64,
    pub sites: u64,
}
