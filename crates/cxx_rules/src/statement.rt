// What is broken in statements and handlers.
ghost use Rattle.std.specs.Prelude.{◌≡◌, ◌+◌, ◌++◌, false, IfOk, OnOk};
ghost use Rattle.cxx_ast.specs.Environment.{Scope as Place};
ghost use Rattle.cxx_ast.specs.ExpressionRules.{judged};
ghost use Rattle.cxx_ast.specs.Locals.{inner, in_a_loop, after, locals_in, locals_of, locals_caught, caught_count, handler_scope, scope_behind};
ghost use Rattle.cxx_ast.specs.Plain.{while};
ghost use Rattle.cxx_ast.specs.Reference.{int_found};
ghost use Rattle.cxx_ast.specs.StatementRules.{caught_found, catches_all, statement_found, statements_found, handlers_found};
ghost use Rattle.cxx_ast.specs.View.{expression_of, statement_of, statements_of, handlers_of};
ghost use Rattle.cxx_rules.specs.Summary.{seen};
ghost use Rattle.cxx_rules.specs.Walk.{handler_found, scope_after};

use crate::NoMemory;
use crate::environment::Environment;
use crate::found::Found;
use crate::rule::Rule;
use crate::scope::Scope;
use crate::simple::{
    assign_found, evaluated_found, jump_found, local_int, local_object, local_ref, return_found,
    wanted_int,
};
use crate::thrown::throw_found;
use crate::types::{is_const, type_found, type_kind};
use cxx_ast::expression::Expr;
use cxx_ast::name::Name;
use cxx_ast::statement::{Handler, Stmt};
use cxx_ast::types::Ty;
use std::alloc::Global;

/// A statement, which may declare a variable.
#[tactic(auto, using(cxx_ast::proofs::Rows::statement_rows, crate::proofs::FoundLaws::findings))]
#[cycle(statements)]
pub fn statement<'t>(
    alloc: Global,
    env: &Environment<'t>,
    scope: &mut Scope<'t>,
    s: &'t Stmt,
) -> Result<Found, NoMemory>
    ensures found { IfOk result (λ f. f ≡ seen env.now (statement_found env.now scope.old (statement_of s.now))) }
    ensures scope { OnOk result (scope.new ≡ scope_behind env.now scope.old (statement_of s.now)) }
{
    match s {
        Stmt::Block(ss) => block(alloc, env, scope, ss.as_slice()),
        Stmt::Empty => Ok(Found::nothing()),
        Stmt::If(e, body, None) => guarded(alloc, env, scope, body, e),
        Stmt::If(e, body, Some(other)) => {
            let first = guarded(alloc, env, scope, body, e)?;
            let second = branch(alloc, env, scope, other)?;
            Ok(first.and(second))
        }
        Stmt::While(e, body) => while_loop(alloc, env, scope, body, e),
        Stmt::Return(place, e) => return_found(alloc, env, scope, *place, e),
        Stmt::Break(place) => Ok(jump_found(env, scope, *place)),
        Stmt::Continue(place) => Ok(jump_found(env, scope, *place)),
        Stmt::Throw(_, e) => throw_found(alloc, env, scope, e),
        Stmt::Try(ss, hs) => {
            let tried = block(alloc, env, scope, ss.as_slice())?;
            let handled = handlers(alloc, env, scope, hs.as_slice())?;
            Ok(tried.and(handled))
        }
        Stmt::Assign(l, e) => assign_found(alloc, env, scope, l.path.as_slice(), e),
        Stmt::Call(e) => evaluated_found(alloc, env, scope, e),
        Stmt::LocalInt(name, e) => local_int(alloc, env, scope, name, e),
        Stmt::LocalRef(param, l) => local_ref(env, scope, param, l.path.as_slice()),
        Stmt::LocalObject(class, name, args) => {
            local_object(alloc, env, scope, class, name, args.as_slice())
        }
    }
}

// A test and the statement that it guards.
#[tactic(auto, using(crate::proofs::FoundLaws::findings))]
#[cycle(statements)]
fn guarded<'t>(
    alloc: Global,
    env: &Environment<'t>,
    scope: &mut Scope<'t>,
    body: &'t Stmt,
    test: &'t Expr,
) -> Result<Found, NoMemory>
    ensures found { IfOk result (λ f. f ≡ seen env.now (int_found (judged env.now scope.old (expression_of test.now)) ++ statement_found env.now scope.old (statement_of body.now))) }
    ensures scope { OnOk result (scope.new ≡ after (locals_in (statement_of body.now)) scope.old) }
{
    let wanted = wanted_int(alloc, env, scope, test)?;
    let inside = branch(alloc, env, scope, body)?;
    Ok(wanted.and(inside))
}

// A test and the statement that is done while it holds.
#[tactic(auto, using(crate::proofs::FoundLaws::findings))]
#[cycle(statements)]
fn while_loop<'t>(
    alloc: Global,
    env: &Environment<'t>,
    scope: &mut Scope<'t>,
    body: &'t Stmt,
    test: &'t Expr,
) -> Result<Found, NoMemory>
    ensures found { IfOk result (λ f. f ≡ seen env.now (statement_found env.now scope.old (while (expression_of test.now) (statement_of body.now)))) }
    ensures scope { OnOk result (scope.new ≡ after (locals_in (statement_of body.now)) scope.old) }
{
    let wanted = wanted_int(alloc, env, scope, test)?;
    let inside = loop_body(alloc, env, scope, body)?;
    Ok(wanted.and(inside))
}

// The statements of a block that is a scope of its own.
#[tactic(auto, using(crate::proofs::ScopeLaws::block_left))]
#[cycle(statements)]
fn block<'t>(
    alloc: Global,
    env: &Environment<'t>,
    scope: &mut Scope<'t>,
    ss: &'t [Stmt],
) -> Result<Found, NoMemory>
    ensures found { IfOk result (λ f. f ≡ seen env.now (statements_found env.now (inner scope.old) (statements_of ss.now))) }
    ensures scope { OnOk result (scope.new ≡ after (locals_of (statements_of ss.now)) scope.old) }
{
    scope.open(alloc)?;
    let found = statements(alloc, env, scope, ss)?;
    scope.close();
    Ok(found)
}

// A statement whose variables are not in reach behind it.
#[tactic(auto, using(crate::proofs::ScopeLaws::statement_left))]
#[cycle(statements)]
fn branch<'t>(
    alloc: Global,
    env: &Environment<'t>,
    scope: &mut Scope<'t>,
    s: &'t Stmt,
) -> Result<Found, NoMemory>
    ensures found { IfOk result (λ f. f ≡ seen env.now (statement_found env.now scope.old (statement_of s.now))) }
    ensures scope { OnOk result (scope.new ≡ after (locals_in (statement_of s.now)) scope.old) }
{
    let mark = scope.mark();
    let found = statement(alloc, env, scope, s)?;
    scope.rewind(mark);
    Ok(found)
}

// The statement of a loop.
#[cycle(statements)]
fn loop_body<'t>(
    alloc: Global,
    env: &Environment<'t>,
    scope: &mut Scope<'t>,
    s: &'t Stmt,
) -> Result<Found, NoMemory>
    ensures found { IfOk result (λ f. f ≡ seen env.now (statement_found env.now (in_a_loop scope.old) (statement_of s.now))) }
    ensures scope { OnOk result (scope.new ≡ after (locals_in (statement_of s.now)) scope.old) }
{
    let in_loop = scope.in_loop();
    scope.set_in_loop(true);
    let found = branch(alloc, env, scope, s)?;
    scope.set_in_loop(in_loop);
    Ok(found)
}

/// The statements of a block.
#[tactic(auto, using(crate::proofs::WalkLaws::statements_behind_is))]
#[cycle(statements)]
pub fn statements<'t>(
    alloc: Global,
    env: &Environment<'t>,
    scope: &mut Scope<'t>,
    ss: &'t [Stmt],
) -> Result<Found, NoMemory>
    ensures found { IfOk result (λ f. f ≡ seen env.now (statements_found env.now scope.old (statements_of ss.now))) }
    ensures scope { OnOk result (scope.new ≡ scope_after env.now scope.old (statements_of ss.now)) }
{
    let mut found = Found::nothing();
    for s in ss {
        found = found.and(statement(alloc, env, scope, s)?);
    }
    Ok(found)
}

// The type of what a handler catches.
#[tactic(auto, using(crate::proofs::FoundLaws::findings))]
fn caught_found<'t>(env: &Environment<'t>, scope: &Scope<'t>, ty: &Option<Ty>) -> Found
    ensures { result ≡ seen env.now (caught_found env.now scope.now ty.now) }
{
    match ty {
        None => Found::nothing(),
        Some(ty) => type_found(env, scope, ty),
    }
}

/// Declares what a handler catches, in a scope that was opened for it.
pub fn declare_caught<'t>(
    env: &Environment<'t>,
    scope: &mut Scope<'t>,
    ty: &Option<Ty>,
    name: &'t Option<Name>,
) -> Result<(), NoMemory>
    ensures { (outer : Place) → scope.old ≡ inner outer → OnOk result (scope.new ≡ handler_scope env.now ty.now name.now outer) }
{
    match ty {
        None => Ok(()),
        Some(ty) => {
            let kind = type_kind(env, scope, ty);
            match name {
                None => scope.skip(),
                Some(name) => scope.declare(name, kind, is_const(ty)),
            }
        }
    }
}

// The block of a handler, with its parameter.
#[tactic(auto, using(crate::proofs::ScopeLaws::handler_left))]
#[cycle(statements)]
fn handler_block<'t>(
    alloc: Global,
    env: &Environment<'t>,
    scope: &mut Scope<'t>,
    ty: &Option<Ty>,
    name: &'t Option<Name>,
    ss: &'t [Stmt],
) -> Result<Found, NoMemory>
    ensures found { IfOk result (λ f. f ≡ seen env.now (statements_found env.now (handler_scope env.now ty.now name.now scope.old) (statements_of ss.now))) }
    ensures scope { OnOk result (scope.new ≡ after (caught_count ty.now + locals_of (statements_of ss.now)) scope.old) }
{
    scope.open(alloc)?;
    declare_caught(env, scope, ty, name)?;
    let found = statements(alloc, env, scope, ss)?;
    scope.close();
    Ok(found)
}

// A handler, where one before catches all or none does.
#[tactic(auto, using(crate::proofs::FoundLaws::findings))]
#[cycle(statements)]
fn handler<'t>(
    alloc: Global,
    env: &Environment<'t>,
    scope: &mut Scope<'t>,
    behind_all: bool,
    h: &'t Handler,
) -> Result<Found, NoMemory>
    ensures found { IfOk result (λ f. f ≡ seen env.now (handler_found env.now scope.old behind_all h.now.ty h.now.name (statements_of h.now.body.items) h.now.place)) }
    ensures scope { OnOk result (scope.new ≡ after (caught_count h.now.ty + locals_of (statements_of h.now.body.items)) scope.old) }
{
    let order = Found::broken_if(behind_all, Rule::HandlerOrder, h.place);
    let caught = caught_found(env, scope, &h.ty);
    let inside = handler_block(alloc, env, scope, &h.ty, &h.name, h.body.as_slice())?;
    Ok(order.and(caught).and(inside))
}

// Handlers in order.
#[tactic(auto, using(crate::proofs::WalkLaws::handlers_behind_is))]
#[cycle(statements)]
fn handlers<'t>(
    alloc: Global,
    env: &Environment<'t>,
    scope: &mut Scope<'t>,
    hs: &'t [Handler],
) -> Result<Found, NoMemory>
    ensures found { IfOk result (λ f. f ≡ seen env.now (handlers_found env.now scope.old false (handlers_of hs.now))) }
    ensures scope { OnOk result (scope.new ≡ after (locals_caught (handlers_of hs.now)) scope.old) }
{
    let mut found = Found::nothing();
    let mut behind_all = false;
    for h in hs {
        found = found.and(handler(alloc, env, scope, behind_all, h)?);
        behind_all = behind_all || h.ty.is_none();
    }
    Ok(found)
}
