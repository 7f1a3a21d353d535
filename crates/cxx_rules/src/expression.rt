// The types of expressions, and what is broken in them.
ghost use Rattle.std.specs.Prelude.{◌≡◌, ℤ, IfOk, None};
ghost use Rattle.cxx_ast.specs.Environment.{Scope as Place};
ghost use Rattle.cxx_ast.specs.Plain.{Expression, Expressions, number, path, paren, unary, binary, call, std_call};
ghost use Rattle.cxx_ast.specs.View.{expression_of, expressions_of};
ghost use Rattle.cxx_ast.specs.ExpressionRules.{is_int, unary_kind, binary_kind, judged, all_judged, thrown_kind_found, operand_found, thrown_found};
ghost use Rattle.cxx_rules.specs.KindOf.{kind_of};
ghost use Rattle.cxx_rules.specs.Seen.{judgement_seen, judgements_seen, value_seen};

use crate::NoMemory;
use crate::environment::Environment;
use crate::found::Found;
use crate::judgement::{Judged, Target, Valued};
use crate::kind::Kind;
use crate::lvalue::{first_place, reached};
use crate::object_call::{names_valued, std_valued};
use crate::reference::int_found;
use crate::scope::Scope;
use cxx_ast::expression::{BinaryOp, Expr, UnaryOp};
use cxx_ast::name::Name;
use std::alloc::Global;

// An int or a truth value.
fn is_int(kind: Kind) -> bool
    ensures { result ≡ is_int (kind_of kind) }
{
    matches!(kind, Kind::Int | Kind::Truth)
}

// The type of a unary expression.
fn unary_kind(op: UnaryOp) -> Kind
    ensures { kind_of result ≡ unary_kind op }
{
    match op {
        UnaryOp::Minus => Kind::Int,
        UnaryOp::Not => Kind::Truth,
    }
}

// The type of a binary expression.
fn binary_kind(op: BinaryOp) -> Kind
    ensures { kind_of result ≡ binary_kind op }
{
    match op {
        BinaryOp::Add
        | BinaryOp::Subtract
        | BinaryOp::Multiply
        | BinaryOp::Divide
        | BinaryOp::Remainder => Kind::Int,
        _ => Kind::Truth,
    }
}

// A path as an expression.
fn path_judged<'t>(env: &Environment<'t>, scope: &Scope<'t>, names: &'t [Name]) -> Judged<'t>
    ensures { result ≡ judgement_seen env.now (judged env.now scope.now (path names.now)) }
{
    let r = reached(env, scope, names);
    let target = Target::new(names, r.is_const());
    Judged::new(r.kind(), r.found(), first_place(names), Some(target))
}

// An expression in parentheses.
fn paren_judged<'t>(_env: &Environment<'t>, inner: &Judged<'_>, place: u32) -> Judged<'t>
    ensures { (e : Expression) (scope : Place) → inner.now ≡ judgement_seen _env.now (judged _env.now scope e) → result ≡ judgement_seen _env.now (judged _env.now scope (paren e place)) }
{
    Judged::new(inner.kind(), inner.found(), place, None)
}

// A unary expression.
fn unary_judged<'t>(
    env: &Environment<'t>,
    op: UnaryOp,
    inner: &Judged<'_>,
    place: u32,
) -> Judged<'t>
    ensures { (e : Expression) (scope : Place) → inner.now ≡ judgement_seen env.now (judged env.now scope e) → result ≡ judgement_seen env.now (judged env.now scope (unary op e place)) }
{
    let kind = if is_int(inner.kind()) {
        unary_kind(op)
    } else {
        Kind::Nothing
    };
    Judged::new(kind, int_found(env, inner), place, None)
}

// A binary expression.
#[tactic(auto, using(crate::proofs::FoundLaws::findings))]
fn binary_judged<'t>(
    env: &Environment<'t>,
    op: BinaryOp,
    a: &Judged<'_>,
    b: &Judged<'_>,
) -> Judged<'t>
    ensures { (x y : Expression) (scope : Place) → a.now ≡ judgement_seen env.now (judged env.now scope x) → b.now ≡ judgement_seen env.now (judged env.now scope y) → result ≡ judgement_seen env.now (judged env.now scope (binary op x y)) }
{
    let kind = if is_int(a.kind()) && is_int(b.kind()) {
        binary_kind(op)
    } else {
        Kind::Nothing
    };
    let found = int_found(env, a).and(int_found(env, b));
    Judged::new(kind, found, a.place(), None)
}

/// What is no lvalue.
pub fn no_lvalue<'t>(place: u32, value: &Valued) -> Judged<'t>
    ensures { result ≡ record { kind = value.now.kind; found = value.now.found; place = place; target = None } }
{
    Judged::new(value.kind(), value.found(), place, None)
}

// A call as an expression.
fn call_judged<'t>(
    env: &Environment<'t>,
    scope: &Scope<'t>,
    names: &[Name],
    given: &[Judged<'_>],
) -> Judged<'t>
    ensures { (es : Expressions) → given.now ≡ judgements_seen env.now (all_judged env.now scope.now es) → result ≡ judgement_seen env.now (judged env.now scope.now (call names.now es)) }
{
    no_lvalue(
        first_place(names),
        &names_valued(env, scope, false, names, given),
    )
}

// A call of `std::` something as an expression.
fn std_call_judged<'t>(
    env: &Environment<'t>,
    scope: &Scope<'t>,
    name: &Name,
    given: &[Judged<'_>],
    place: u32,
) -> Judged<'t>
    ensures { (es : Expressions) → given.now ≡ judgements_seen env.now (all_judged env.now scope.now es) → result ≡ judgement_seen env.now (judged env.now scope.now (std_call name.now es place)) }
{
    no_lvalue(place, &std_valued(env, scope, false, place, name, given))
}

// A literal as an expression.
#[tactic(auto, using(crate::proofs::FoundLaws::findings))]
fn number_judged<'t>(_env: &Environment<'t>, place: u32) -> Judged<'t>
    ensures { (n : ℤ) (scope : Place) → result ≡ judgement_seen _env.now (judged _env.now scope (number n place)) }
{
    Judged::new(Kind::Int, Found::nothing(), place, None)
}

/// An expression.
#[tactic(auto, using(cxx_ast::proofs::Rows::rows))]
#[cycle(expressions)]
pub fn judged<'t>(
    alloc: Global,
    env: &Environment<'t>,
    scope: &Scope<'t>,
    e: &'t Expr,
) -> Result<Judged<'t>, NoMemory>
    ensures { IfOk result (λ j. j ≡ judgement_seen env.now (judged env.now scope.now (expression_of e.now))) }
{
    match e {
        Expr::Number(_, place) => Ok(number_judged(env, *place)),
        Expr::Path(lvalue) => Ok(path_judged(env, scope, lvalue.path.as_slice())),
        Expr::Paren(inner, place) => {
            let inside = judged(alloc, env, scope, inner)?;
            Ok(paren_judged(env, &inside, *place))
        }
        Expr::Unary(op, inner, place) => {
            let inside = judged(alloc, env, scope, inner)?;
            Ok(unary_judged(env, *op, &inside, *place))
        }
        Expr::Binary(op, a, b) => {
            let left = judged(alloc, env, scope, a)?;
            let right = judged(alloc, env, scope, b)?;
            Ok(binary_judged(env, *op, &left, &right))
        }
        Expr::Call(callee, args) => {
            call(alloc, env, scope, callee.path.as_slice(), args.as_slice())
        }
        Expr::StdCall(name, args, place) => {
            std_call(alloc, env, scope, name, args.as_slice(), *place)
        }
    }
}

// A call with its arguments.
#[cycle(expressions)]
fn call<'t>(
    alloc: Global,
    env: &Environment<'t>,
    scope: &Scope<'t>,
    names: &[Name],
    args: &'t [Expr],
) -> Result<Judged<'t>, NoMemory>
    ensures { IfOk result (λ j. j ≡ judgement_seen env.now (judged env.now scope.now (call names.now (expressions_of args.now)))) }
{
    let given = all_judged(alloc, env, scope, args)?;
    Ok(call_judged(env, scope, names, given.as_slice()))
}

// A call of `std::` something with its arguments.
#[cycle(expressions)]
fn std_call<'t>(
    alloc: Global,
    env: &Environment<'t>,
    scope: &Scope<'t>,
    name: &Name,
    args: &'t [Expr],
    place: u32,
) -> Result<Judged<'t>, NoMemory>
    ensures { IfOk result (λ j. j ≡ judgement_seen env.now (judged env.now scope.now (std_call name.now (expressions_of args.now) place))) }
{
    let given = all_judged(alloc, env, scope, args)?;
    Ok(std_call_judged(env, scope, name, given.as_slice(), place))
}

/// Expressions one by one.
#[cycle(expressions)]
pub fn all_judged<'t>(
    alloc: Global,
    env: &Environment<'t>,
    scope: &Scope<'t>,
    es: &'t [Expr],
) -> Result<Vec<Judged<'t>>, NoMemory>
    ensures { IfOk result (λ js. js.items ≡ judgements_seen env.now (all_judged env.now scope.now (expressions_of es.now))) }
{
    let mut given = Vec::new(alloc);
    for e in es {
        given.push(judged(alloc, env, scope, e)?)?;
    }
    Ok(given)
}
