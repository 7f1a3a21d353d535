// What stands behind the heads of functions: initialisers and bodies, with their names bound, and what is broken there.
ghost use Rattle.std.specs.Prelude.{◌≡◌, Option, IfOk, map, length, Some};
ghost use Rattle.cxx_ast.specs.Environment.{Environment as Known, Scope as Place};
ghost use Rattle.cxx_ast.specs.Plain.{Function};
ghost use Rattle.cxx_ast.specs.Locals.{declare_params};
ghost use Rattle.cxx_ast.specs.Lookup.{own_meaning};
ghost use Rattle.cxx_ast.specs.Declare.{function_scope};
ghost use Rattle.cxx_ast.specs.FunctionRules.{limits_found, definition_found};
ghost use Rattle.cxx_ast.specs.Resolve.{resolve_initialiser, resolve_body};
ghost use Rattle.cxx_ast.specs.View.{initialiser_of, statements_of, function_of};
ghost use Rattle.cxx_check.specs.FunctionParts.{initialiser_bound, inside_scope, inside_found};
ghost use Rattle.cxx_check.specs.InsideOf.{body_of, IsInside};
ghost use Rattle.cxx_rules.specs.Summary.{seen};

use crate::NoMemory;
use crate::bound::{bind, bound_of};
use crate::held::put;
use crate::rebuilt_statement::resolve_all;
use crate::resolved::resolve_expressions;
use crate::variables::are_too_large;
use cxx_ast::declaration::{Func, Init};
use cxx_ast::name::{Bound, Name};
use cxx_ast::statement::Stmt;
use cxx_rules::{
    Environment, Found, Meaning, Rule, Scope, body_found, declare_params, function_scope, look,
    own_meaning,
};
use std::alloc::Global;

/// The initialisers of a constructor and the body of a function, with their names bound.
#[derive(Drop)]
pub struct Inside {
    pub inits: Vec<Init>,
    pub body: Option<Vec<Stmt>>,
}

// What the name of an initialiser is bound to.
fn initialiser_bound<'t>(
    env: &Environment<'t>,
    scope: &Scope<'t>,
    name: &Name,
) -> Result<Bound, NoMemory>
    ensures { IfOk result (λ b. b ≡ initialiser_bound env.now scope.now name.now (own_meaning env.now scope.now name.now.text)) }
{
    match own_meaning(env, scope, name.text.as_bytes()) {
        Meaning::Unknown => bound_of(env, &look(env, scope, name)),
        own => bound_of(env, &own),
    }
}

// An initialiser.
fn resolve_initialiser<'t>(
    alloc: Global,
    env: &Environment<'t>,
    scope: &Scope<'t>,
    i: &Init,
) -> Result<Init, NoMemory>
    ensures { IfOk result (λ r. initialiser_of r ≡ resolve_initialiser env.now scope.now (initialiser_of i.now)) }
{
    let bound = initialiser_bound(env, scope, &i.name)?;
    let name = bind(alloc, &i.name, bound)?;
    let args = resolve_expressions(alloc, env, scope, i.args.as_slice())?;
    Ok(Init { name, args })
}

// Initialisers in order.
fn resolve_initialisers<'t>(
    alloc: Global,
    env: &Environment<'t>,
    scope: &Scope<'t>,
    inits: &[Init],
) -> Result<Vec<Init>, NoMemory>
    ensures { IfOk result (λ r. map initialiser_of r.items ≡ map (resolve_initialiser env.now scope.now) (map initialiser_of inits.now)) }
{
    let mut rebuilt = Vec::new(alloc);
    for i in inits {
        let bound = resolve_initialiser(alloc, env, scope, i)?;
        put(bound, &mut rebuilt)?;
    }
    Ok(rebuilt)
}

// A body, where there is one.
fn resolve_body<'t>(
    alloc: Global,
    env: &Environment<'t>,
    scope: &mut Scope<'t>,
    body: &'t Option<Vec<Stmt>>,
) -> Result<Option<Vec<Stmt>>, NoMemory>
    ensures { IfOk result (λ r. body_of r ≡ resolve_body env.now scope.old (body_of body.now)) }
{
    match body {
        None => Ok(None),
        Some(ss) => Ok(Some(resolve_all(alloc, env, scope, ss.as_slice())?)),
    }
}

// Where the initialisers and the body of a function stand, in a class or in none.
fn inside_scope<'t>(
    alloc: Global,
    env: &Environment<'t>,
    own: Option<usize>,
    f: &'t Func,
) -> Result<Scope<'t>, NoMemory>
    ensures { IfOk result (λ s. s ≡ inside_scope env.now own (function_of f.now)) }
{
    let mut scope = function_scope(alloc, env, own, &f.result)?;
    declare_params(env, &mut scope, f.params.as_slice())?;
    Ok(scope)
}

// The initialisers and the body of a function, where they stand.
fn resolve_parts<'t>(
    alloc: Global,
    env: &Environment<'t>,
    scope: &mut Scope<'t>,
    f: &'t Func,
) -> Result<Inside, NoMemory>
    ensures initialisers { IfOk result (λ r. map initialiser_of r.inits.items ≡ map (resolve_initialiser env.now scope.old) (function_of f.now).initialisers) }
    ensures body { IfOk result (λ r. body_of r.body ≡ resolve_body env.now scope.old (function_of f.now).body) }
{
    let inits = resolve_initialisers(alloc, env, scope, f.inits.as_slice())?;
    let body = resolve_body(alloc, env, scope, &f.body)?;
    Ok(Inside { inits, body })
}

/// What stands behind the head of a function, in a class or in none.
pub fn resolve_inside<'t>(
    alloc: Global,
    env: &Environment<'t>,
    own: Option<usize>,
    f: &'t Func,
) -> Result<Inside, NoMemory>
    ensures { IfOk result (λ r. IsInside env.now own (function_of f.now) r) }
{
    let mut scope = inside_scope(alloc, env, own, f)?;
    let inside = resolve_parts(alloc, env, &mut scope, f)?;
    Ok(inside)
}

// The limits of a function with a body.
#[tactic(auto, using(cxx_rules::proofs::FoundLaws::findings))]
fn limits_found(env: &Environment<'_>, f: &Func, inits: &[Init], body: &[Stmt]) -> Found
    ensures { (g : Function) → g.name.place ≡ f.now.name.place → g.tokens ≡ f.now.tokens → length g.parameters ≡ length f.now.params.items → g.initialisers ≡ map initialiser_of inits.now → g.body ≡ Some (statements_of body.now) → result ≡ seen env.now (limits_found env.now g) }
{
    let is_large = are_too_large(env, f.params.len(), inits, body);
    Found::broken_if(f.tokens > 2000, Rule::FunctionTooLong, f.name.place).and(Found::broken_if(
        is_large,
        Rule::FrameTooLarge,
        f.name.place,
    ))
}

// The limits hold for definitions.
#[tactic(auto, using(cxx_rules::proofs::FoundLaws::findings))]
fn definition_found(env: &Environment<'_>, f: &Func, inside: &Inside) -> Found
    ensures { (g : Function) → g.name.place ≡ f.now.name.place → g.tokens ≡ f.now.tokens → length g.parameters ≡ length f.now.params.items → g.initialisers ≡ map initialiser_of inside.now.inits.items → g.body ≡ body_of inside.now.body → result ≡ seen env.now (definition_found env.now g g.body) }
{
    match &inside.body {
        None => Found::nothing(),
        Some(body) => limits_found(env, f, inside.inits.as_slice(), body.as_slice()),
    }
}

// What stands behind the head of a function breaks, in a class or in none, where it is given with its names bound.
fn inside_found<'t>(
    alloc: Global,
    env: &Environment<'t>,
    own: Option<usize>,
    f: &'t Func,
    inside: &Inside,
) -> Result<Found, NoMemory>
    requires { IsInside env.now own (function_of f.now) inside.now }
    ensures { (head : Known) (place : Place) → IfOk result (λ found. found ≡ seen env.now (inside_found head place env.now own (function_of f.now))) }
{
    let found = body_found(alloc, env, own, f)?;
    Ok(found.and(definition_found(env, f, inside)))
}

/// What stands behind the head of a function breaks, in a class or in none.
pub fn behind_found<'t>(
    alloc: Global,
    env: &Environment<'t>,
    own: Option<usize>,
    f: &'t Func,
) -> Result<Found, NoMemory>
    ensures { (head : Known) (place : Place) → IfOk result (λ found. found ≡ seen env.now (inside_found head place env.now own (function_of f.now))) }
{
    let inside = resolve_inside(alloc, env, own, f)?;
    inside_found(alloc, env, own, f, &inside)
}
