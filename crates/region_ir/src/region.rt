// Regions.
use crate::operation::{Cleanup, RegionOp};
use crate::value::Value;

/// A clause of a try block: its type, none for `catch (...)`, and the slot that gets the exception object's address.
#[derive(Drop, PartialEq, Eq)]
#[cycle(regions)]
pub struct Clause {
    pub ty: Option<u32>,
    pub object: u32,
    pub body: Region,
}

/// A part of a function in which cleanups, handlers, barriers and exits are explicit.
#[derive(Drop, PartialEq, Eq)]
#[cycle(regions)]
pub enum Region {
    Seq(Vec<Region>),
    Op(RegionOp),
    Branch(Value, Box<Region>, Box<Region>),
    Loop(Value, Box<Region>),
    Protect(Box<Region>, Cleanup),
    Catch(Box<Region>, Vec<Clause>),
    /// An exception specification, by the types that it lists.
    Limit(Box<Region>, Vec<u32>),
    Barrier(Box<Region>),
    /// Goes to the end of the region with this number that holds it, the innermost being 1.
    Leave(u32),
}
