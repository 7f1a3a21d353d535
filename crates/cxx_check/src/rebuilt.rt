// Statements with their names bound.
ghost use Rattle.std.specs.Prelude.{◌≡◌, IfOk, OnOk};
ghost use Rattle.cxx_ast.specs.Locals.{scope_behind};
ghost use Rattle.cxx_ast.specs.Plain.{block, if_else, while, no_else, else_do, local_int, local_ref, local_object};
ghost use Rattle.cxx_ast.specs.Resolve.{resolve_statement, resolve_param};
ghost use Rattle.cxx_ast.specs.View.{expression_of, expressions_of, statement_of, statements_of, option_of};

use crate::NoMemory;
use crate::bound::{bind, bind_some, numbered, resolve_class, resolve_path, resolve_type};
use crate::held::beside;
use crate::resolved::{resolve_expressions, resolve_value};
use cxx_ast::expression::{Expr, Lvalue};
use cxx_ast::name::{Bound, Name};
use cxx_ast::statement::Stmt;
use cxx_ast::types::Param;
use cxx_rules::{Environment, Kind, Scope, class_of_name, declare_param};
use std::alloc::Global;

/// A block.
#[tactic(auto, using(cxx_ast::proofs::Rows::statement_rows))]
pub fn block_of(ss: Vec<Stmt>) -> Stmt
    ensures { statement_of result ≡ block (statements_of ss.items) }
{
    Stmt::Block(ss)
}

/// An `if` without `else`.
pub fn if_of(test: Expr, body: Box<Stmt>) -> Stmt
    ensures { statement_of result ≡ if_else (expression_of test) (statement_of body.value) no_else }
{
    Stmt::If(test, body, None)
}

/// An `if` with its `else`.
pub fn if_else_of(test: Expr, body: Box<Stmt>, other: Box<Stmt>) -> Stmt
    ensures { statement_of result ≡ if_else (expression_of test) (statement_of body.value) (else_do (statement_of other.value)) }
{
    Stmt::If(test, body, Some(other))
}

/// A loop.
pub fn while_of(test: Expr, body: Box<Stmt>) -> Stmt
    ensures { statement_of result ≡ while (expression_of test) (statement_of body.value) }
{
    Stmt::While(test, body)
}

/// A parameter with its number.
pub fn resolve_param<'t>(
    alloc: Global,
    env: &Environment<'t>,
    scope: &Scope<'t>,
    param: &Param,
) -> Result<Param, NoMemory>
    ensures { IfOk result (λ p. p ≡ resolve_param env.now scope.now param.now) }
{
    let number = Bound::Local(numbered(scope.next())?);
    let ty = resolve_type(alloc, env, scope, &param.ty)?;
    let name = bind_some(alloc, &param.name, number)?;
    Ok(Param { ty, name })
}

// A local int with its number.
fn int_bound<'t>(
    alloc: Global,
    env: &Environment<'t>,
    scope: &Scope<'t>,
    name: &Name,
    e: &Option<Expr>,
) -> Result<Stmt, NoMemory>
    ensures { IfOk result (λ s. statement_of s ≡ resolve_statement env.now scope.now (local_int name.now (option_of expression_of e.now))) }
{
    let number = Bound::Local(numbered(scope.next())?);
    let bound = bind(alloc, name, number)?;
    let value = resolve_value(alloc, env, scope, e)?;
    Ok(Stmt::LocalInt(bound, value))
}

/// A local int, which is declared.
pub fn local_int<'t>(
    alloc: Global,
    env: &Environment<'t>,
    scope: &mut Scope<'t>,
    name: &'t Name,
    e: &Option<Expr>,
) -> Result<Stmt, NoMemory>
    ensures rebuilt { IfOk result (λ s. statement_of s ≡ resolve_statement env.now scope.old (local_int name.now (option_of expression_of e.now))) }
    ensures scope { OnOk result (scope.new ≡ scope_behind env.now scope.old (local_int name.now (option_of expression_of e.now))) }
{
    let rebuilt = int_bound(alloc, env, scope, name, e)?;
    let (rebuilt, ()) = beside(rebuilt, scope.declare(name, Kind::Int, false))?;
    Ok(rebuilt)
}

// A local reference with its number.
fn ref_bound<'t>(
    alloc: Global,
    env: &Environment<'t>,
    scope: &Scope<'t>,
    param: &Param,
    names: &[Name],
) -> Result<Stmt, NoMemory>
    ensures { IfOk result (λ s. statement_of s ≡ resolve_statement env.now scope.now (local_ref param.now names.now)) }
{
    let bound = resolve_param(alloc, env, scope, param)?;
    let path = resolve_path(alloc, env, scope, names)?;
    Ok(Stmt::LocalRef(bound, Lvalue { path }))
}

/// A local reference, which is declared.
pub fn local_ref<'t>(
    alloc: Global,
    env: &Environment<'t>,
    scope: &mut Scope<'t>,
    param: &'t Param,
    names: &[Name],
) -> Result<Stmt, NoMemory>
    ensures rebuilt { IfOk result (λ s. statement_of s ≡ resolve_statement env.now scope.old (local_ref param.now names.now)) }
    ensures scope { OnOk result (scope.new ≡ scope_behind env.now scope.old (local_ref param.now names.now)) }
{
    let rebuilt = ref_bound(alloc, env, scope, param, names)?;
    let (rebuilt, ()) = beside(rebuilt, declare_param(env, scope, param))?;
    Ok(rebuilt)
}

// A local object with its number.
fn object_bound<'t>(
    alloc: Global,
    env: &Environment<'t>,
    scope: &Scope<'t>,
    class: &Name,
    name: &Name,
    args: &[Expr],
) -> Result<Stmt, NoMemory>
    ensures { IfOk result (λ s. statement_of s ≡ resolve_statement env.now scope.now (local_object class.now name.now (expressions_of args.now))) }
{
    let number = Bound::Local(numbered(scope.next())?);
    let of_class = resolve_class(alloc, env, scope, class)?;
    let bound = bind(alloc, name, number)?;
    let given = resolve_expressions(alloc, env, scope, args)?;
    Ok(Stmt::LocalObject(of_class, bound, given))
}

/// A local object, which is declared.
pub fn local_object<'t>(
    alloc: Global,
    env: &Environment<'t>,
    scope: &mut Scope<'t>,
    class: &Name,
    name: &'t Name,
    args: &[Expr],
) -> Result<Stmt, NoMemory>
    ensures rebuilt { IfOk result (λ s. statement_of s ≡ resolve_statement env.now scope.old (local_object class.now name.now (expressions_of args.now))) }
    ensures scope { OnOk result (scope.new ≡ scope_behind env.now scope.old (local_object class.now name.now (expressions_of args.now))) }
{
    let rebuilt = object_bound(alloc, env, scope, class, name, args)?;
    let kind = class_of_name(env, scope, class);
    let (rebuilt, ()) = beside(rebuilt, scope.declare(name, kind, false))?;
    Ok(rebuilt)
}
