// Statements and handlers.
use crate::expression::{Expr, Lvalue};
use crate::name::Name;
use crate::types::{Param, Ty};

/// A handler. It has no type for `catch (...)`. The place is that of the first token after `catch (`.
#[derive(Drop)]
#[cycle(tree)]
pub struct Handler {
    pub ty: Option<Ty>,
    pub name: Option<Name>,
    pub body: Vec<Stmt>,
    pub place: u32,
}

/// A statement, or a declaration of a local variable. A `u32` is the place of the keyword.
#[derive(Drop)]
#[cycle(tree)]
pub enum Stmt {
    Block(Vec<Stmt>),
    Empty,
    If(Expr, Box<Stmt>, Option<Box<Stmt>>),
    While(Expr, Box<Stmt>),
    Return(u32, Option<Expr>),
    Break(u32),
    Continue(u32),
    Throw(u32, Option<Expr>),
    Try(Vec<Stmt>, Vec<Handler>),
    Assign(Lvalue, Expr),
    /// A call whose value is not used.
    Call(Expr),
    /// An int, with its first value where there is one.
    LocalInt(Name, Option<Expr>),
    /// A reference, and what it refers to.
    LocalRef(Param, Lvalue),
    /// A class, the object's name, and the arguments of its constructor.
    LocalObject(Name, Name, Vec<Expr>),
}
