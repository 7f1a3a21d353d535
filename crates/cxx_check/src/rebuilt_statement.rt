// Statements and handlers with their names bound.
ghost use Rattle.std.specs.Prelude.{◌≡◌, ◌+◌, [], ◌∷◌, IfOk, OnOk};
ghost use Rattle.cxx_ast.specs.Locals.{inner, after, locals_in, locals_of, locals_caught, caught_count, handler_scope, scope_behind};
ghost use Rattle.cxx_ast.specs.declared.name.Bound.TheVariants.{Local};
ghost use Rattle.cxx_ast.specs.Plain.{try, no_handlers, handler_then};
ghost use Rattle.cxx_ast.specs.Resolve.{resolve_statement, resolve_statements, resolve_handlers, resolve_caught, bind_some};
ghost use Rattle.cxx_ast.specs.View.{statement_of, statements_of, handlers_of};
ghost use Rattle.cxx_rules.specs.Walk.{scope_after};

use crate::NoMemory;
use crate::bound::{bind_some, numbered, resolve_path, resolve_type};
use crate::held::{beside, boxed, put};
use crate::rebuilt::{block_of, if_else_of, if_of, local_int, local_object, local_ref, while_of};
use crate::resolved::{resolve_expression, resolve_value};
use cxx_ast::expression::Lvalue;
use cxx_ast::name::{Bound, Name};
use cxx_ast::statement::{Handler, Stmt};
use cxx_ast::types::Ty;
use cxx_rules::{Environment, Scope, declare_caught};
use std::alloc::Global;

// A try block with its handlers.
#[tactic(auto, using(cxx_ast::proofs::Rows::statement_rows))]
fn try_of(ss: Vec<Stmt>, hs: Vec<Handler>) -> Stmt
    ensures { statement_of result ≡ try (statements_of ss.items) (handlers_of hs.items) }
{
    Stmt::Try(ss, hs)
}

/// A statement, which may declare a variable.
#[tactic(auto, using(cxx_ast::proofs::Rows::statement_rows))]
#[cycle(rebuilt)]
pub fn resolve_statement<'t>(
    alloc: Global,
    env: &Environment<'t>,
    scope: &mut Scope<'t>,
    s: &'t Stmt,
) -> Result<Stmt, NoMemory>
    ensures rebuilt { IfOk result (λ r. statement_of r ≡ resolve_statement env.now scope.old (statement_of s.now)) }
    ensures scope { OnOk result (scope.new ≡ scope_behind env.now scope.old (statement_of s.now)) }
{
    match s {
        Stmt::Block(ss) => Ok(block_of(resolve_block(alloc, env, scope, ss.as_slice())?)),
        Stmt::Empty => Ok(Stmt::Empty),
        Stmt::If(e, body, None) => {
            let test = resolve_expression(alloc, env, scope, e)?;
            let (test, first) = beside(test, resolve_branch(alloc, env, scope, body))?;
            Ok(if_of(test, first))
        }
        Stmt::If(e, body, Some(other)) => {
            let test = resolve_expression(alloc, env, scope, e)?;
            let (test, first) = beside(test, resolve_branch(alloc, env, scope, body))?;
            let second = resolve_branch(alloc, env, scope, other);
            let ((test, first), second) = beside((test, first), second)?;
            Ok(if_else_of(test, first, second))
        }
        Stmt::While(e, body) => {
            let test = resolve_expression(alloc, env, scope, e)?;
            let (test, inside) = beside(test, resolve_branch(alloc, env, scope, body))?;
            Ok(while_of(test, inside))
        }
        Stmt::Return(place, e) => Ok(Stmt::Return(*place, resolve_value(alloc, env, scope, e)?)),
        Stmt::Break(place) => Ok(Stmt::Break(*place)),
        Stmt::Continue(place) => Ok(Stmt::Continue(*place)),
        Stmt::Throw(place, e) => Ok(Stmt::Throw(*place, resolve_value(alloc, env, scope, e)?)),
        Stmt::Try(ss, hs) => {
            let tried = resolve_block(alloc, env, scope, ss.as_slice())?;
            let caught = resolve_handlers(alloc, env, scope, hs.as_slice());
            let (tried, caught) = beside(tried, caught)?;
            Ok(try_of(tried, caught))
        }
        Stmt::Assign(l, e) => {
            let path = resolve_path(alloc, env, scope, l.path.as_slice())?;
            let (path, value) = beside(path, resolve_expression(alloc, env, scope, e))?;
            Ok(Stmt::Assign(Lvalue { path }, value))
        }
        Stmt::Call(e) => Ok(Stmt::Call(resolve_expression(alloc, env, scope, e)?)),
        Stmt::LocalInt(name, e) => local_int(alloc, env, scope, name, e),
        Stmt::LocalRef(param, l) => local_ref(alloc, env, scope, param, l.path.as_slice()),
        Stmt::LocalObject(class, name, args) => {
            local_object(alloc, env, scope, class, name, args.as_slice())
        }
    }
}

// The statements of a block that is a scope of its own.
#[tactic(auto, using(cxx_rules::proofs::ScopeLaws::block_left))]
#[cycle(rebuilt)]
fn resolve_block<'t>(
    alloc: Global,
    env: &Environment<'t>,
    scope: &mut Scope<'t>,
    ss: &'t [Stmt],
) -> Result<Vec<Stmt>, NoMemory>
    ensures rebuilt { IfOk result (λ r. statements_of r.items ≡ resolve_statements env.now (inner scope.old) (statements_of ss.now)) }
    ensures scope { OnOk result (scope.new ≡ after (locals_of (statements_of ss.now)) scope.old) }
{
    scope.open(alloc)?;
    let rebuilt = resolve_all(alloc, env, scope, ss)?;
    scope.close();
    Ok(rebuilt)
}

// A statement whose variables are not in reach behind it.
#[tactic(auto, using(cxx_rules::proofs::ScopeLaws::statement_left))]
#[cycle(rebuilt)]
fn resolve_branch<'t>(
    alloc: Global,
    env: &Environment<'t>,
    scope: &mut Scope<'t>,
    s: &'t Stmt,
) -> Result<Box<Stmt>, NoMemory>
    ensures rebuilt { IfOk result (λ r. statement_of r.value ≡ resolve_statement env.now scope.old (statement_of s.now)) }
    ensures scope { OnOk result (scope.new ≡ after (locals_in (statement_of s.now)) scope.old) }
{
    let mark = scope.mark();
    let rebuilt = resolve_statement(alloc, env, scope, s)?;
    scope.rewind(mark);
    boxed(alloc, rebuilt)
}

/// The statements of a block.
#[tactic(auto, using(crate::proofs::JoinedLaws::statements_push, crate::proofs::JoinedLaws::statements_all))]
#[cycle(rebuilt)]
pub fn resolve_all<'t>(
    alloc: Global,
    env: &Environment<'t>,
    scope: &mut Scope<'t>,
    ss: &'t [Stmt],
) -> Result<Vec<Stmt>, NoMemory>
    ensures rebuilt { IfOk result (λ r. statements_of r.items ≡ resolve_statements env.now scope.old (statements_of ss.now)) }
    ensures scope { OnOk result (scope.new ≡ scope_after env.now scope.old (statements_of ss.now)) }
{
    let mut rebuilt = Vec::new(alloc);
    for s in ss {
        let next = resolve_statement(alloc, env, scope, s)?;
        put(next, &mut rebuilt)?;
    }
    Ok(rebuilt)
}

// What a handler catches.
fn resolve_caught<'t>(
    alloc: Global,
    env: &Environment<'t>,
    scope: &Scope<'t>,
    ty: &Option<Ty>,
) -> Result<Option<Ty>, NoMemory>
    ensures { IfOk result (λ t. t ≡ resolve_caught env.now scope.now ty.now) }
{
    match ty {
        None => Ok(None),
        Some(ty) => Ok(Some(resolve_type(alloc, env, scope, ty)?)),
    }
}

// The block of a handler, with its parameter.
#[tactic(auto, using(cxx_rules::proofs::ScopeLaws::handler_left))]
#[cycle(rebuilt)]
fn resolve_handler_block<'t>(
    alloc: Global,
    env: &Environment<'t>,
    scope: &mut Scope<'t>,
    ty: &Option<Ty>,
    name: &'t Option<Name>,
    ss: &'t [Stmt],
) -> Result<Vec<Stmt>, NoMemory>
    ensures rebuilt { IfOk result (λ r. statements_of r.items ≡ resolve_statements env.now (handler_scope env.now ty.now name.now scope.old) (statements_of ss.now)) }
    ensures scope { OnOk result (scope.new ≡ after (caught_count ty.now + locals_of (statements_of ss.now)) scope.old) }
{
    scope.open(alloc)?;
    declare_caught(env, scope, ty, name)?;
    let rebuilt = resolve_all(alloc, env, scope, ss)?;
    scope.close();
    Ok(rebuilt)
}

// A handler without its block.
fn resolve_caught_as<'t>(
    alloc: Global,
    env: &Environment<'t>,
    scope: &Scope<'t>,
    h: &Handler,
) -> Result<(Option<Ty>, Option<Name>), NoMemory>
    ensures { IfOk result (λ c. (c.0 ≡ resolve_caught env.now scope.now h.now.ty) × (c.1 ≡ bind_some h.now.name (Local scope.now.next))) }
{
    let number = Bound::Local(numbered(scope.next())?);
    let ty = resolve_caught(alloc, env, scope, &h.ty)?;
    let name = bind_some(alloc, &h.name, number)?;
    Ok((ty, name))
}

// A handler.
#[cycle(rebuilt)]
fn resolve_handler<'t>(
    alloc: Global,
    env: &Environment<'t>,
    scope: &mut Scope<'t>,
    h: &'t Handler,
) -> Result<Handler, NoMemory>
    ensures rebuilt { IfOk result (λ r. handlers_of (r ∷ []) ≡ handler_then (resolve_caught env.now scope.old h.now.ty) (bind_some h.now.name (Local scope.old.next)) (resolve_statements env.now (handler_scope env.now h.now.ty h.now.name scope.old) (statements_of h.now.body.items)) h.now.place no_handlers) }
    ensures scope { OnOk result (scope.new ≡ after (caught_count h.now.ty + locals_of (statements_of h.now.body.items)) scope.old) }
{
    let caught = resolve_caught_as(alloc, env, scope, h)?;
    let body = resolve_handler_block(alloc, env, scope, &h.ty, &h.name, h.body.as_slice());
    let ((ty, name), body) = beside(caught, body)?;
    Ok(Handler {
        ty,
        name,
        body,
        place: h.place,
    })
}

// Handlers in order.
#[tactic(auto, using(crate::proofs::JoinedLaws::handlers_push, crate::proofs::JoinedLaws::handlers_all))]
#[cycle(rebuilt)]
fn resolve_handlers<'t>(
    alloc: Global,
    env: &Environment<'t>,
    scope: &mut Scope<'t>,
    hs: &'t [Handler],
) -> Result<Vec<Handler>, NoMemory>
    ensures rebuilt { IfOk result (λ r. handlers_of r.items ≡ resolve_handlers env.now scope.old (handlers_of hs.now)) }
    ensures scope { OnOk result (scope.new ≡ after (locals_caught (handlers_of hs.now)) scope.old) }
{
    let mut rebuilt = Vec::new(alloc);
    for h in hs {
        let next = resolve_handler(alloc, env, scope, h)?;
        put(next, &mut rebuilt)?;
    }
    Ok(rebuilt)
}
