// Linear code and its tables.
use cxx_ast::text::Text;
use eh_bytes::TypeRow;
use region_ir::operation::RegionOp;
use region_ir::place::Slot;
use region_ir::value::Value;

/// One operation of linear code.
#[derive(Drop)]
pub enum LinearOp {
    Op(RegionOp),
    Label(u32),
    Jump(u32),
    /// Jumps where the value is 0.
    JumpZero(Value, u32),
    /// Begins a landing pad: the slots that get the object's address and the selector.
    Pad(u32, u32),
    /// Jumps where the slot holds the filter.
    JumpFilter(u32, i64, u32),
    /// Gives back the object of a slot.
    Free(u32),
    /// Goes on with what the pad interrupted, whose object's address a slot holds.
    Resume(u32),
    /// Passes the object and the selector to the runtime.
    Unexpected(u32, u32),
    /// Gives the value of a slot.
    Return(Option<u32>),
}

/// A call site: the operations from a place up to another, their landing pad, and its chain of filters.
#[derive(Drop, PartialEq, Eq)]
pub struct CodeSite {
    pub start: u32,
    pub end: u32,
    pub pad: Option<u32>,
    pub filters: Vec<i64>,
}

/// A function. A type is 0 for `catch (...)`, else one more than its number; lists hold indices of types.
#[derive(Drop)]
pub struct FuncCode {
    pub name: Text,
    pub params: u32,
    pub slots: Vec<Slot>,
    pub ops: Vec<LinearOp>,
    pub sites: Vec<CodeSite>,
    pub types: Vec<u32>,
    pub lists: Vec<Vec<u64>>,
    pub frame: u32,
}

/// A program. Functions and types are named by their numbers.
#[derive(Drop)]
pub struct UnitCode {
    pub functions: Vec<FuncCode>,
    pub types: Vec<TypeRow>,
    pub globals: Vec<i32>,
    pub tokens: u32,
    pub main: u32,
}
