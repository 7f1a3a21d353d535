// A fold over call frame instructions on its way.
use arrayvec::ArrayVec;
use table_forms::Rule;

/// A row that can be remembered.
#[derive(Clone, Copy, Drop)]
pub struct State {
    pub cfa_register: u8,
    pub cfa_offset: i64,
    pub rules: [Rule; 64],
}

/// The location, the row, the rows remembered, the last of them first to be restored, the rules
/// that `restore` gives back, and whether the fold has stopped.
#[derive(Drop)]
pub struct Folding {
    pub location: u64,
    pub row: State,
    pub states: ArrayVec<State, 16>,
    pub initial: [Rule; 64],
    pub stopped: bool,
}
