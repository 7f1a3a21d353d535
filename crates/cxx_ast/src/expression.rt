// Expressions.
use crate::name::Name;

/// `a.b.c`, at least one name.
#[derive(Drop)]
pub struct Lvalue {
    pub path: Vec<Name>,
}

/// An operator before its operand: `-` and `!`.
#[derive(Drop, Clone, Copy, PartialEq, Eq)]
pub enum UnaryOp {
    Minus,
    Not,
}

/// An operator between its operands.
#[derive(Drop, Clone, Copy, PartialEq, Eq)]
pub enum BinaryOp {
    Add,
    Subtract,
    Multiply,
    Divide,
    Remainder,
    Less,
    Greater,
    LessEqual,
    GreaterEqual,
    Equal,
    NotEqual,
    And,
    Or,
}

/// An expression. A `u32` is the place of the first token, where no name below has it.
#[derive(Drop)]
pub enum Expr {
    Number(i32, u32),
    Path(Lvalue),
    Paren(Box<Expr>, u32),
    Unary(UnaryOp, Box<Expr>, u32),
    Binary(BinaryOp, Box<Expr>, Box<Expr>),
    /// A call, with what is called behind the object that it is called on, where there is one; or a construction.
    Call(Lvalue, Vec<Expr>),
    /// A call of `std::` and the name, with the place of `std`.
    StdCall(Name, Vec<Expr>, u32),
}
