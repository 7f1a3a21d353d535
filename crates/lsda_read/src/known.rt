// What is known of the records of a table that were judged.
ghost use Rattle.std.specs.Prelude.{◌≡◌, None};
ghost use Rattle.std.specs.BTreeMap.{IsEmpty};

use std::alloc::Global;
use std::collections::BTreeMap;
use table_forms::Refusal;

/// How a chain ends: in a way that refuses nothing at a site, outside of the action table, or at a
/// record that it met before.
#[derive(Clone, Copy, Drop)]
pub enum ChainEnd {
    Ended,
    Outside,
    Repeated,
}

/// What a list from one of its indices on refuses where it is named: an entry outside of the types,
/// and that no 0 ends it.
#[derive(Clone, Copy, Drop)]
pub struct ListEnd {
    pub outside: bool,
    pub cut: bool,
}

/// What is refused so far, and what the chains of the records and the lists of the indices that
/// were met add to it.
#[derive(Drop)]
pub struct Known {
    pub least: Option<Refusal>,
    pub chains: BTreeMap<u128, ChainEnd>,
    pub lists: BTreeMap<usize, ListEnd>,
}

impl Known {
    /// Nothing is known.
    pub fn new(alloc: Global) -> Known
        ensures least { result.least ≡ None }
        ensures chains { IsEmpty result.chains }
        ensures lists { IsEmpty result.lists }
    {
        Known {
            least: None,
            chains: BTreeMap::new(alloc),
            lists: BTreeMap::new(alloc),
        }
    }
}
