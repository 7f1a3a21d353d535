// The list form of an exception table, which its writer takes.

/// The table of a function: its sites, the chains of filters that they name, the types and the
/// lists of a specification.
///
/// A filter 0 is a cleanup, and a filter i above 0 names type i, counted from 1. A filter -j names
/// the list whose first byte is byte j - 1, where the lists stand one after the other, each as its
/// indices in the shortest ULEB128 and a 0 behind them.
#[derive(Debug, Drop, PartialEq, Eq)]
pub struct LsdaList {
    pub sites: Vec<ListSite>,
    /// The filters of each chain, in the order in which they are tried.
    pub chains: Vec<Vec<i64>>,
    /// The value of each type; 0 is `catch (...)`.
    pub types: Vec<u64>,
    /// The type indices of each list, counted from 1.
    pub lists: Vec<Vec<u64>>,
}

/// A call site. Its places count from the start of its function.
#[derive(Clone, Copy, Debug, PartialEq, Eq)]
pub struct ListSite {
    pub start: u64,
    pub length: u64,
    /// The landing pad; 0 is none.
    pub pad: u64,
    /// The number of its chain; without one it is a cleanup alone.
    pub chain: Option<u32>,
}
