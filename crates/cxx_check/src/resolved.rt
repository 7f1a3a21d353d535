// Expressions with their names bound.
ghost use Rattle.std.specs.Prelude.{◌≡◌, IfOk};
ghost use Rattle.cxx_ast.specs.Plain.{paren, unary, binary, call, std_call};
ghost use Rattle.cxx_ast.specs.Resolve.{resolve_expression, resolve_expressions, resolve_value};
ghost use Rattle.cxx_ast.specs.View.{expression_of, expressions_of, option_of};

use crate::NoMemory;
use crate::bound::{bind, resolve_path, std_bound};
use crate::held::{beside, boxed, put};
use cxx_ast::expression::{BinaryOp, Expr, Lvalue, UnaryOp};
use cxx_ast::name::Name;
use cxx_rules::{Environment, Scope};
use std::alloc::Global;

// An expression in parentheses.
fn paren_of(alloc: Global, inner: Expr, place: u32) -> Result<Expr, NoMemory>
    ensures { IfOk result (λ e. expression_of e ≡ paren (expression_of inner) place) }
{
    let inner = boxed(alloc, inner)?;
    Ok(Expr::Paren(inner, place))
}

// A unary expression.
fn unary_of(alloc: Global, op: UnaryOp, inner: Expr, place: u32) -> Result<Expr, NoMemory>
    ensures { IfOk result (λ e. expression_of e ≡ unary op (expression_of inner) place) }
{
    let inner = boxed(alloc, inner)?;
    Ok(Expr::Unary(op, inner, place))
}

// A binary expression.
fn binary_of(alloc: Global, op: BinaryOp, a: Expr, b: Expr) -> Result<Expr, NoMemory>
    ensures { IfOk result (λ e. expression_of e ≡ binary op (expression_of a) (expression_of b)) }
{
    let (b, a) = beside(b, boxed(alloc, a))?;
    let (a, b) = beside(a, boxed(alloc, b))?;
    Ok(Expr::Binary(op, a, b))
}

// A call.
#[tactic(auto, using(cxx_ast::proofs::Rows::rows))]
fn call_of(names: Vec<Name>, args: Vec<Expr>) -> Expr
    ensures { expression_of result ≡ call names.items (expressions_of args.items) }
{
    Expr::Call(Lvalue { path: names }, args)
}

// A call of `std::` something.
#[tactic(auto, using(cxx_ast::proofs::Rows::rows))]
fn std_call_of(name: Name, args: Vec<Expr>, place: u32) -> Expr
    ensures { expression_of result ≡ std_call name (expressions_of args.items) place }
{
    Expr::StdCall(name, args, place)
}

/// An expression.
#[tactic(auto, using(cxx_ast::proofs::Rows::rows))]
#[cycle(resolved)]
pub fn resolve_expression<'t>(
    alloc: Global,
    env: &Environment<'t>,
    scope: &Scope<'t>,
    e: &Expr,
) -> Result<Expr, NoMemory>
    ensures { IfOk result (λ r. expression_of r ≡ resolve_expression env.now scope.now (expression_of e.now)) }
{
    match e {
        Expr::Number(value, place) => Ok(Expr::Number(*value, *place)),
        Expr::Path(lvalue) => {
            let path = resolve_path(alloc, env, scope, lvalue.path.as_slice())?;
            Ok(Expr::Path(Lvalue { path }))
        }
        Expr::Paren(inner, place) => {
            let inside = resolve_expression(alloc, env, scope, inner)?;
            paren_of(alloc, inside, *place)
        }
        Expr::Unary(op, inner, place) => {
            let inside = resolve_expression(alloc, env, scope, inner)?;
            unary_of(alloc, *op, inside, *place)
        }
        Expr::Binary(op, a, b) => {
            let left = resolve_expression(alloc, env, scope, a)?;
            let (left, right) = beside(left, resolve_expression(alloc, env, scope, b))?;
            binary_of(alloc, *op, left, right)
        }
        Expr::Call(callee, args) => {
            let names = resolve_path(alloc, env, scope, callee.path.as_slice())?;
            let given = resolve_expressions(alloc, env, scope, args.as_slice());
            let (names, given) = beside(names, given)?;
            Ok(call_of(names, given))
        }
        Expr::StdCall(name, args, place) => {
            let callee = bind(alloc, name, std_bound(name.text.as_bytes()))?;
            let given = resolve_expressions(alloc, env, scope, args.as_slice());
            let (callee, given) = beside(callee, given)?;
            Ok(std_call_of(callee, given, *place))
        }
    }
}

/// Expressions one by one.
#[tactic(auto, using(crate::proofs::JoinedLaws::joined_push, crate::proofs::JoinedLaws::joined_all))]
#[cycle(resolved)]
pub fn resolve_expressions<'t>(
    alloc: Global,
    env: &Environment<'t>,
    scope: &Scope<'t>,
    es: &[Expr],
) -> Result<Vec<Expr>, NoMemory>
    ensures { IfOk result (λ r. expressions_of r.items ≡ resolve_expressions env.now scope.now (expressions_of es.now)) }
{
    let mut given = Vec::new(alloc);
    for e in es {
        let bound = resolve_expression(alloc, env, scope, e)?;
        put(bound, &mut given)?;
    }
    Ok(given)
}

/// An expression, where there is one.
pub fn resolve_value<'t>(
    alloc: Global,
    env: &Environment<'t>,
    scope: &Scope<'t>,
    e: &Option<Expr>,
) -> Result<Option<Expr>, NoMemory>
    ensures { IfOk result (λ r. option_of expression_of r ≡ resolve_value env.now scope.now (option_of expression_of e.now)) }
{
    match e {
        None => Ok(None),
        Some(e) => Ok(Some(resolve_expression(alloc, env, scope, e)?)),
    }
}
