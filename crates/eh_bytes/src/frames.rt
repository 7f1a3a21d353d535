// The list forms of frame information and of its header table, which their writers take.

/// A range of addresses: its first one, and how many they are.
#[derive(Clone, Copy, Debug, PartialEq, Eq)]
pub struct Region64 {
    pub start: u64,
    pub length: u64,
}

/// The frames of some functions, and whether their entries name exception tables.
#[derive(Debug, Drop, PartialEq, Eq)]
pub struct FrameList {
    pub lsda: bool,
    pub fdes: Vec<ListFde>,
}

/// The frame of the function in a region.
#[derive(Debug, Drop, PartialEq, Eq)]
pub struct ListFde {
    pub region: Region64,
    /// The address of its exception table; 0 is none.
    pub lsda: u64,
    /// The changes of the frame, in the order of their locations.
    pub moves: Vec<FrameMove>,
}

/// A change of the frame from a location on.
#[derive(Clone, Copy, Debug, PartialEq, Eq)]
pub struct FrameMove {
    pub location: u64,
    pub change: FrameChange,
}

/// What changes in a frame.
#[derive(Clone, Copy, Debug, PartialEq, Eq)]
pub enum FrameChange {
    /// The canonical frame address is x2 and this offset.
    Cfa(i64),
    /// The register is saved at this offset from the canonical frame address.
    Saved(u8, i64),
    /// The register has no value in the frame outward.
    Undefined(u8),
}

/// A row of the header table: the first location of a frame entry, and the entry's address.
#[derive(Clone, Copy, Debug, PartialEq, Eq)]
pub struct HdrRow {
    pub location: u64,
    pub fde: u64,
}
