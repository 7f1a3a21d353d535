// The operand of throw.
ghost use Rattle.std.specs.Prelude.{◌≡◌, ℕ, false, IfOk};
ghost use Rattle.cxx_ast.specs.Environment.{Environment as Known, class_kind};
ghost use Rattle.cxx_ast.specs.ExpressionRules.{judged, all_judged, operand_found, thrown_kind_found, thrown_found};
ghost use Rattle.cxx_ast.specs.Plain.{Expressions, call, std_call};
ghost use Rattle.cxx_ast.specs.Reference.{Judgement};
ghost use Rattle.cxx_ast.specs.View.{expression_of, expressions_of, option_of};
ghost use Rattle.cxx_ast.specs.StatementRules.{throw_found};
ghost use Rattle.cxx_rules.specs.KindOf.{kind_of};
ghost use Rattle.cxx_rules.specs.Seen.{judgement_seen, judgements_seen};
ghost use Rattle.cxx_rules.specs.Summary.{seen};

use crate::NoMemory;
use crate::environment::Environment;
use crate::expression::{all_judged, judged, no_lvalue};
use crate::found::Found;
use crate::judgement::Judged;
use crate::kind::Kind;
use crate::lvalue::first_place;
use crate::object_call::{names_valued, std_valued};
use crate::rule::Rule;
use crate::scope::Scope;
use cxx_ast::expression::Expr;
use cxx_ast::name::Name;
use std::alloc::Global;

// An object that is thrown is a construction or an lvalue.
#[tactic(auto, using(crate::proofs::FoundLaws::findings))]
fn thrown_object(built: bool, operand: &Judged<'_>) -> Found
    ensures { (env : Known) (j : Judgement) (k : ℕ) → operand.now ≡ judgement_seen env j → result ≡ seen env (thrown_kind_found built j (class_kind k)) }
{
    if built {
        return Found::nothing();
    }
    match operand.target() {
        Some(_) => Found::nothing(),
        None => Found::broken(Rule::TypeMismatch, operand.place()),
    }
}

// What is thrown has a type that may be thrown.
#[tactic(auto, using(crate::proofs::FoundLaws::findings))]
fn thrown_kind_found(built: bool, operand: &Judged<'_>, kind: Kind) -> Found
    ensures { (env : Known) (j : Judgement) → operand.now ≡ judgement_seen env j → result ≡ seen env (thrown_kind_found built j (kind_of kind)) }
{
    match kind {
        Kind::Int => Found::nothing(),
        Kind::Nothing => Found::nothing(),
        Kind::Class(_) => thrown_object(built, operand),
        Kind::Truth => Found::broken(Rule::TypeMismatch, operand.place()),
        Kind::Void => Found::broken(Rule::TypeMismatch, operand.place()),
    }
}

// An operand of throw.
#[tactic(auto, using(crate::proofs::FoundLaws::findings))]
fn operand_found(_env: &Environment<'_>, built: bool, operand: &Judged<'_>) -> Found
    ensures { (j : Judgement) → operand.now ≡ judgement_seen _env.now j → result ≡ seen _env.now (operand_found built j) }
{
    operand
        .found()
        .and(thrown_kind_found(built, operand, operand.kind()))
}

// An operand that is no call.
fn plain_operand<'t>(
    alloc: Global,
    env: &Environment<'t>,
    scope: &Scope<'t>,
    e: &'t Expr,
) -> Result<Found, NoMemory>
    ensures { IfOk result (λ f. f ≡ seen env.now (operand_found false (judged env.now scope.now (expression_of e.now)))) }
{
    let operand = judged(alloc, env, scope, e)?;
    Ok(operand_found(env, false, &operand))
}

// A call as the operand of throw.
fn call_operand<'t>(
    env: &Environment<'t>,
    scope: &Scope<'t>,
    names: &[Name],
    given: &[Judged<'_>],
) -> Found
    ensures { (es : Expressions) → given.now ≡ judgements_seen env.now (all_judged env.now scope.now es) → result ≡ seen env.now (thrown_found env.now scope.now (call names.now es)) }
{
    let value = names_valued(env, scope, true, names, given);
    operand_found(env, true, &no_lvalue(first_place(names), &value))
}

// A call of `std::` something as the operand of throw.
fn std_call_operand<'t>(
    env: &Environment<'t>,
    scope: &Scope<'t>,
    name: &Name,
    given: &[Judged<'_>],
    place: u32,
) -> Found
    ensures { (es : Expressions) → given.now ≡ judgements_seen env.now (all_judged env.now scope.now es) → result ≡ seen env.now (thrown_found env.now scope.now (std_call name.now es place)) }
{
    let value = std_valued(env, scope, true, place, name, given);
    operand_found(env, true, &no_lvalue(place, &value))
}

// A call as the operand of throw, with its arguments.
fn call_thrown<'t>(
    alloc: Global,
    env: &Environment<'t>,
    scope: &Scope<'t>,
    names: &[Name],
    args: &'t [Expr],
) -> Result<Found, NoMemory>
    ensures { IfOk result (λ f. f ≡ seen env.now (thrown_found env.now scope.now (call names.now (expressions_of args.now)))) }
{
    let given = all_judged(alloc, env, scope, args)?;
    Ok(call_operand(env, scope, names, given.as_slice()))
}

// A call of `std::` something as the operand of throw, with its arguments.
fn std_call_thrown<'t>(
    alloc: Global,
    env: &Environment<'t>,
    scope: &Scope<'t>,
    name: &Name,
    args: &'t [Expr],
    place: u32,
) -> Result<Found, NoMemory>
    ensures { IfOk result (λ f. f ≡ seen env.now (thrown_found env.now scope.now (std_call name.now (expressions_of args.now) place))) }
{
    let given = all_judged(alloc, env, scope, args)?;
    Ok(std_call_operand(env, scope, name, given.as_slice(), place))
}

// The operand of throw, which alone may be a construction.
#[tactic(auto, using(cxx_ast::proofs::Rows::rows))]
fn thrown_found<'t>(
    alloc: Global,
    env: &Environment<'t>,
    scope: &Scope<'t>,
    e: &'t Expr,
) -> Result<Found, NoMemory>
    ensures { IfOk result (λ f. f ≡ seen env.now (thrown_found env.now scope.now (expression_of e.now))) }
{
    match e {
        Expr::Call(callee, args) => {
            call_thrown(alloc, env, scope, callee.path.as_slice(), args.as_slice())
        }
        Expr::StdCall(name, args, place) => {
            std_call_thrown(alloc, env, scope, name, args.as_slice(), *place)
        }
        Expr::Number(_, _) => plain_operand(alloc, env, scope, e),
        Expr::Path(_) => plain_operand(alloc, env, scope, e),
        Expr::Paren(_, _) => plain_operand(alloc, env, scope, e),
        Expr::Unary(_, _, _) => plain_operand(alloc, env, scope, e),
        Expr::Binary(_, _, _) => plain_operand(alloc, env, scope, e),
    }
}

/// What a throw throws.
#[tactic(auto, using(crate::proofs::FoundLaws::findings))]
pub fn throw_found<'t>(
    alloc: Global,
    env: &Environment<'t>,
    scope: &Scope<'t>,
    e: &'t Option<Expr>,
) -> Result<Found, NoMemory>
    ensures { IfOk result (λ f. f ≡ seen env.now (throw_found env.now scope.now (option_of expression_of e.now))) }
{
    match e {
        None => Ok(Found::nothing()),
        Some(e) => thrown_found(alloc, env, scope, e),
    }
}
