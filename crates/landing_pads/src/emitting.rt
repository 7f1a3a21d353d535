// What a function's code is made with.
use crate::filters::Tables;
use std::alloc::Global;

/// A function's tables, the slots for what its landing pads get, and the slot for where an exit goes on.
#[derive(Drop)]
pub struct Emitting<'a> {
    pub alloc: Global,
    pub tables: &'a Tables,
    pub object: u32,
    pub selector: u32,
    pub way: u32,
}
