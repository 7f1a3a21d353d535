// What the tables give.

/// A call site of an exception table: its addresses from `start` up to `end`, the address of its
/// landing pad or 0, and its action or 0.
#[derive(Clone, Copy, Debug, PartialEq, Eq)]
pub struct Site {
    pub start: u64,
    pub end: u64,
    pub pad: u64,
    pub action: u64,
}

/// What becomes of an exception in a frame: nothing, or a landing pad at an address is entered. A
/// pad where the exception stops is given a selector, which is the filter that stopped it.
#[derive(Clone, Copy, Debug, PartialEq, Eq)]
pub enum Verdict {
    Nothing,
    Cleanup(u64),
    /// A handler.
    Handler(u64, i64),
    /// An exception specification that does not allow it.
    Spec(u64, i64),
    /// The program ends.
    Terminate,
}

/// How the value of a register in the frame outward is found (DWARF 5, 6.4.1).
#[derive(Clone, Copy, Debug, PartialEq, Eq)]
pub enum Rule {
    /// No rule.
    Unspecified,
    Undefined,
    Same,
    /// It is stored at this offset from the canonical frame address.
    Offset(i64),
    /// It is the canonical frame address and this offset.
    ValOffset(i64),
    /// It is in another register.
    Register(u8),
}

/// A row of the call frame information: the canonical frame address as a register and an offset,
/// and the rules of registers 0 to 31, x0 to x31, and 32 to 63, f0 to f31.
#[derive(Debug, Drop, PartialEq, Eq)]
pub struct Row {
    pub cfa_register: u8,
    pub cfa_offset: i64,
    pub rules: [Rule; 64],
}

/// Where a chain of action records goes on.
#[derive(Clone, Copy, Debug, PartialEq, Eq)]
pub enum Next {
    /// Nowhere: the displacement is 0.
    Ends,
    /// Before the first byte of the segment.
    Leaves,
    /// At the record of this place in the segment.
    Goes(u128),
}

/// What stands at a place of the action table.
#[derive(Clone, Copy, Debug, PartialEq, Eq)]
pub enum Action {
    /// A record with this filter.
    Record(i64, Next),
    /// No record that lies whole in the table.
    Outside,
    /// A number that is out of range, at this place in the segment.
    Ranged(u128),
}
