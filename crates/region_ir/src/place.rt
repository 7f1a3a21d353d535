// Slots and places.

/// What a slot of a function is for.
#[derive(Debug, Drop, Clone, Copy, PartialEq, Eq)]
pub enum SlotKind {
    /// An int variable.
    Int,
    /// A reference, or another address.
    Address,
    Object,
    /// Any other value.
    Help,
}

/// A slot with its size in bytes.
#[derive(Debug, Drop, Clone, Copy, PartialEq, Eq)]
pub struct Slot {
    pub kind: SlotKind,
    pub size: u32,
}

/// Where a place begins: at a slot, at the address that a slot holds, or at a global.
#[derive(Drop, Clone, Copy, PartialEq, Eq)]
pub enum Root {
    Slot(u32),
    Through(u32),
    Global(u32),
}

/// A place, so many bytes behind where it begins.
#[derive(Drop, Clone, Copy, PartialEq, Eq)]
pub struct Place {
    pub root: Root,
    pub offset: u32,
}
