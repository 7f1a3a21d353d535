// Programs.
use crate::declaration::{ClassDecl, Decl, Func};

/// The tree of a source, its number of tokens, and its length in bytes.
#[derive(Drop)]
pub struct Program {
    pub decls: Vec<Decl>,
    pub tokens: u32,
    pub length: u32,
}

/// A program that breaks no rule, with every name bound, its classes (`std::bad_exception` first), the first values of its globals,
/// the functions that it defines, and the number of `main` among them.
#[derive(Drop)]
pub struct Checked {
    pub program: Program,
    pub classes: Vec<ClassDecl>,
    pub globals: Vec<i32>,
    pub functions: Vec<Func>,
    pub main: u32,
}
