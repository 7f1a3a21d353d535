// Programs of regions.
use crate::place::Slot;
use crate::region::Region;
use cxx_ast::text::Text;
use eh_bytes::TypeRow;

/// A function. Its first slots hold its arguments, and one may hold its result.
#[derive(Drop)]
pub struct RegionFunc {
    pub name: Text,
    pub params: u32,
    pub slots: Vec<Slot>,
    pub result: Option<u32>,
    pub body: Region,
}

/// A program. Functions and types are named by their numbers.
#[derive(Drop)]
pub struct Regions {
    pub functions: Vec<RegionFunc>,
    pub types: Vec<TypeRow>,
    pub globals: Vec<i32>,
    pub tokens: u32,
    pub main: u32,
}
