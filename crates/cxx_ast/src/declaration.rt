// Declarations.
use crate::expression::Expr;
use crate::name::Name;
use crate::statement::Stmt;
use crate::types::{Param, Ty};

/// `name(arguments)` before the body of a constructor.
#[derive(Drop)]
pub struct Init {
    pub name: Name,
    pub args: Vec<Expr>,
}

#[derive(Drop, Clone, Copy, PartialEq, Eq)]
pub enum FuncKind {
    /// A function of no class.
    Plain,
    Method,
    Constructor,
    Destructor,
}

/// An exception specification.
#[derive(Drop)]
pub enum Spec {
    /// `throw(types)`.
    Throw(Vec<Ty>),
    /// `noexcept`, with the place of the word. It is true where the word stands alone, and else as it says.
    Noexcept(u32, bool),
}

/// A function, or its declaration alone, which has no body. Constructors and destructors have the result `Void`.
#[derive(Drop)]
pub struct Func {
    pub name: Name,
    pub kind: FuncKind,
    pub result: Ty,
    pub params: Vec<Param>,
    /// Its exception specification, where there is one.
    pub spec: Option<Spec>,
    pub inits: Vec<Init>,
    pub body: Option<Vec<Stmt>>,
    /// How many tokens it has, from its result type, or from its name where it has none, to its end.
    pub tokens: u32,
}

/// A class, with its data members in order, and its member functions in order.
#[derive(Drop)]
pub struct ClassDecl {
    pub name: Name,
    pub base: Option<Name>,
    pub members: Vec<Param>,
    pub funcs: Vec<Func>,
}

#[derive(Drop)]
pub enum Decl {
    Class(ClassDecl),
    /// A global int, with its first value.
    Global(Name, i32),
    Func(Func),
}
