// Values and arguments.
use crate::place::Place;
use cxx_ast::expression::{BinaryOp, UnaryOp};
use cxx_ast::name::Builtin;

/// What can be called: a function by its number, or a built-in function.
#[derive(Drop, Clone, Copy, PartialEq, Eq)]
pub enum Callee {
    Func(u32),
    Builtin(Builtin),
}

/// A value. A call stands only at the top of an operation.
#[derive(Drop, PartialEq, Eq)]
#[cycle(values)]
pub enum Value {
    Number(i32),
    Load(Place),
    Unary(UnaryOp, Box<Value>),
    Binary(BinaryOp, Box<Value>, Box<Value>),
    Call(Callee, Vec<Arg>),
}

/// An int, the address of a place, or the function that is given to `set_terminate` or `set_unexpected`.
#[derive(Drop, PartialEq, Eq)]
#[cycle(values)]
pub enum Arg {
    Int(Value),
    Address(Place),
    Handler(u32),
}
