// Expressions with the number of levels below them.
ghost use Rattle.std.specs.Prelude.{ℕ, ◌≡◌, ◌≤◌, ◌<◌, ◌+◌, IfOk, IfErr, length, max, map, List, [], ◌∷◌, ◌++◌};
ghost use Rattle.cxx_ast.specs.Depth.{below_expression, below_expressions};
ghost use Rattle.cxx_ast.specs.Limits.{most_depth};
ghost use Rattle.cxx_ast.specs.Plain.{number, path, paren, unary, binary, call, std_call, block, try};
ghost use Rattle.cxx_ast.specs.View.{expression_of, expressions_of, statement_of};
ghost use Rattle.cxx_parser.specs.Stored.{statements_from, handlers_from, caught_of};
ghost use Rattle.cxx_parser.specs.declared.error.ParseError.TheVariants.{NoMemory as OutOfMemory};

use crate::error::ParseError;
use cxx_ast::expression::{BinaryOp, Expr, Lvalue, UnaryOp};
use cxx_ast::name::Name;
use cxx_ast::statement::{Handler, Stmt};
use cxx_ast::types::Ty;
use std::alloc::Global;

// An expression, and the number of levels below it.
#[derive(Drop)]
pub struct Measured {
    pub expr: Expr,
    pub levels: u32,
    pub ghost measured: { levels ≡ below_expression (expression_of expr) },
}

// Arguments, and the number of levels below what holds them.
#[derive(Drop)]
pub struct Arguments {
    pub list: Vec<Expr>,
    pub levels: u32,
    pub ghost measured: { levels ≡ below_expressions (expressions_of list.items) },
}

pub fn number(value: i32, place: u32) -> Measured
    ensures { expression_of result.expr ≡ number value place }
{
    Measured {
        expr: Expr::Number(value, place),
        levels: 0,
    }
}

pub fn path(names: Vec<Name>) -> Measured
    ensures { expression_of result.expr ≡ path names.items }
{
    Measured {
        expr: Expr::Path(Lvalue { path: names }),
        levels: 0,
    }
}

pub fn paren(alloc: Global, inner: Measured, place: u32) -> Result<Measured, ParseError>
    requires { inner.levels < most_depth }
    ensures gives { IfOk result (λ e. expression_of e.expr ≡ paren (expression_of inner.expr) place) }
    ensures only { IfErr result (λ e. e ≡ OutOfMemory) }
{
    Ok(Measured {
        expr: Expr::Paren(Box::new(alloc, inner.expr)?, place),
        levels: inner.levels + 1,
    })
}

pub fn unary(
    alloc: Global,
    op: UnaryOp,
    inner: Measured,
    place: u32,
) -> Result<Measured, ParseError>
    requires { inner.levels < most_depth }
    ensures gives { IfOk result (λ e. expression_of e.expr ≡ unary op (expression_of inner.expr) place) }
    ensures only { IfErr result (λ e. e ≡ OutOfMemory) }
{
    Ok(Measured {
        expr: Expr::Unary(op, Box::new(alloc, inner.expr)?, place),
        levels: inner.levels + 1,
    })
}

pub fn binary(
    alloc: Global,
    op: BinaryOp,
    left: Measured,
    right: Measured,
) -> Result<Measured, ParseError>
    requires left { left.levels < most_depth }
    requires right { right.levels < most_depth }
    ensures gives { IfOk result (λ e. expression_of e.expr ≡ binary op (expression_of left.expr) (expression_of right.expr)) }
    ensures levels { IfOk result (λ e. e.levels ≡ max left.levels right.levels + 1) }
    ensures only { IfErr result (λ e. e ≡ OutOfMemory) }
{
    let levels = left.levels.max(right.levels) + 1;
    Ok(Measured {
        expr: Expr::Binary(
            op,
            Box::new(alloc, left.expr)?,
            Box::new(alloc, right.expr)?,
        ),
        levels,
    })
}

#[tactic(auto, using(crate::proofs::Rows::rows))]
pub fn call(names: Vec<Name>, args: Arguments) -> Measured
    ensures { expression_of result.expr ≡ call names.items (expressions_of args.list.items) }
{
    Measured {
        expr: Expr::Call(Lvalue { path: names }, args.list),
        levels: args.levels,
    }
}

#[tactic(auto, using(crate::proofs::Rows::rows))]
pub fn std_call(name: Name, args: Arguments, place: u32) -> Measured
    ensures { expression_of result.expr ≡ std_call name (expressions_of args.list.items) place }
{
    Measured {
        expr: Expr::StdCall(name, args.list, place),
        levels: args.levels,
    }
}

// Adds an argument behind the others.
#[tactic(auto, using(crate::proofs::Rows::levels))]
pub fn with_argument(args: Arguments, last: Measured) -> Result<Arguments, ParseError>
    requires { last.levels ≤ most_depth }
    ensures gives { IfOk result (λ all. all.list.items ≡ args.list.items ++ last.expr ∷ []) }
    ensures levels { IfOk result (λ all. all.levels ≡ max args.levels (last.levels + 1)) }
    ensures only { IfErr result (λ e. e ≡ OutOfMemory) }
{
    let mut list = args.list;
    list.push(last.expr)?;
    Ok(Arguments {
        list,
        levels: args.levels.max(last.levels + 1),
    })
}

pub fn no_arguments(alloc: Global) -> Arguments
    ensures list { result.list.items ≡ [] }
    ensures levels { result.levels ≡ 0 }
{
    Arguments {
        list: Vec::new(alloc),
        levels: 0,
    }
}

#[tactic(auto, using(crate::proofs::Rows::statement_rows))]
pub fn block(body: Vec<Stmt>) -> Stmt
    ensures { statement_of result ≡ block (statements_from (map statement_of body.items)) }
{
    Stmt::Block(body)
}

#[tactic(auto, using(crate::proofs::Rows::statement_rows))]
pub fn try_block(body: Vec<Stmt>, handlers: Vec<Handler>) -> Stmt
    ensures { statement_of result ≡ try (statements_from (map statement_of body.items)) (handlers_from (map caught_of handlers.items)) }
{
    Stmt::Try(body, handlers)
}

#[tactic(auto, using(crate::proofs::Rows::statement_rows))]
pub fn handler(ty: Option<Ty>, name: Option<Name>, body: Vec<Stmt>, place: u32) -> Handler
    ensures { caught_of result ≡ record { type = ty; name = name; body = statements_from (map statement_of body.items); place = place } }
{
    Handler {
        ty,
        name,
        body,
        place,
    }
}
