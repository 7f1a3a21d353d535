// Statements that hold no other.
ghost use Rattle.std.specs.Prelude.{◌≡◌, List, Some, false, IfOk, OnOk};
ghost use Rattle.cxx_ast.specs.Lvalue.{Reached as Path};
ghost use Rattle.cxx_ast.specs.ExpressionRules.{judged};
ghost use Rattle.cxx_ast.specs.Locals.{declare_param, scope_behind};
ghost use Rattle.cxx_ast.specs.Plain.{assign, evaluate, local_int, local_ref, local_object, break};
ghost use Rattle.cxx_ast.specs.Reference.{Judgement, int_found};
ghost use Rattle.cxx_ast.specs.StatementRules.{twice_in, name_twice, start_found, return_found, assigned_found, object_found, statement_found};
ghost use Rattle.cxx_ast.specs.View.{expression_of, expressions_of, option_of};
ghost use Rattle.cxx_rules.specs.KindOf.{kind_of};
ghost use Rattle.cxx_rules.specs.Seen.{reached_seen, judgements_seen};
ghost use Rattle.cxx_rules.specs.Summary.{seen};

use crate::NoMemory;
use crate::construct::construction_found;
use crate::environment::Environment;
use crate::expression::{all_judged, judged};
use crate::found::Found;
use crate::judgement::{Judged, Reached};
use crate::kind::Kind;
use crate::lvalue::{first_place, reached};
use crate::reference::{all_found, binding_found, int_found};
use crate::rule::Rule;
use crate::scope::Scope;
use crate::types::{class_found, class_of_name, is_const, type_found, type_kind};
use cxx_ast::expression::Expr;
use cxx_ast::name::Name;
use cxx_ast::types::Param;
use std::alloc::Global;

/// An int that an expression gives.
pub fn wanted_int<'t>(
    alloc: Global,
    env: &Environment<'t>,
    scope: &Scope<'t>,
    e: &'t Expr,
) -> Result<Found, NoMemory>
    ensures { IfOk result (λ f. f ≡ seen env.now (int_found (judged env.now scope.now (expression_of e.now)))) }
{
    let value = judged(alloc, env, scope, e)?;
    Ok(int_found(env, &value))
}

// An int, where there is an expression.
#[tactic(auto, using(crate::proofs::FoundLaws::findings))]
fn start_found<'t>(
    alloc: Global,
    env: &Environment<'t>,
    scope: &Scope<'t>,
    e: &'t Option<Expr>,
) -> Result<Found, NoMemory>
    ensures { IfOk result (λ f. f ≡ seen env.now (start_found env.now scope.now (option_of expression_of e.now))) }
{
    match e {
        None => Ok(Found::nothing()),
        Some(e) => wanted_int(alloc, env, scope, e),
    }
}

// A value that is returned where none is wanted.
#[tactic(auto, using(crate::proofs::FoundLaws::findings))]
fn returned_in_vain<'t>(
    alloc: Global,
    env: &Environment<'t>,
    scope: &Scope<'t>,
    place: u32,
    e: &'t Expr,
) -> Result<Found, NoMemory>
    ensures { IfOk result (λ f. f ≡ seen env.now (return_found env.now scope.now false place (Some (expression_of e.now)))) }
{
    let value = judged(alloc, env, scope, e)?;
    Ok(Found::broken(Rule::ReturnForm, place).and(value.found()))
}

/// A return, by whether the function gives a value.
#[tactic(auto, using(crate::proofs::FoundLaws::findings))]
pub fn return_found<'t>(
    alloc: Global,
    env: &Environment<'t>,
    scope: &Scope<'t>,
    place: u32,
    e: &'t Option<Expr>,
) -> Result<Found, NoMemory>
    ensures { IfOk result (λ f. f ≡ seen env.now (return_found env.now scope.now scope.now.gives_value place (option_of expression_of e.now))) }
{
    if scope.gives_value() {
        match e {
            Some(e) => wanted_int(alloc, env, scope, e),
            None => Ok(Found::broken(Rule::ReturnForm, place)),
        }
    } else {
        match e {
            Some(e) => returned_in_vain(alloc, env, scope, place, e),
            None => Ok(Found::nothing()),
        }
    }
}

/// A break or a continue.
#[tactic(auto, using(crate::proofs::FoundLaws::findings))]
pub fn jump_found<'t>(env: &Environment<'t>, scope: &Scope<'t>, place: u32) -> Found
    ensures { result ≡ seen env.now (statement_found env.now scope.now (break place)) }
{
    Found::broken_if(!scope.in_loop(), Rule::LoopJump, place)
}

// What is assigned to.
#[tactic(auto, using(crate::proofs::FoundLaws::findings))]
fn assigned_found(env: &Environment<'_>, r: &Reached, place: u32) -> Found
    ensures { (path : Path) → r.now ≡ reached_seen env.now path → result ≡ seen env.now (assigned_found path place) }
{
    let write = Found::broken_if(r.is_const(), Rule::ConstWrite, place);
    match r.kind() {
        Kind::Nothing => r.found(),
        Kind::Int => r.found().and(write),
        _ => r
            .found()
            .and(Found::broken(Rule::TypeMismatch, place).and(write)),
    }
}

/// An assignment.
#[tactic(auto, using(crate::proofs::FoundLaws::findings))]
pub fn assign_found<'t>(
    alloc: Global,
    env: &Environment<'t>,
    scope: &Scope<'t>,
    names: &[Name],
    e: &'t Expr,
) -> Result<Found, NoMemory>
    ensures { IfOk result (λ f. f ≡ seen env.now (statement_found env.now scope.now (assign names.now (expression_of e.now)))) }
{
    let r = reached(env, scope, names);
    let target = assigned_found(env, &r, first_place(names));
    Ok(target.and(wanted_int(alloc, env, scope, e)?))
}

/// An expression that is evaluated.
pub fn evaluated_found<'t>(
    alloc: Global,
    env: &Environment<'t>,
    scope: &Scope<'t>,
    e: &'t Expr,
) -> Result<Found, NoMemory>
    ensures { IfOk result (λ f. f ≡ seen env.now (statement_found env.now scope.now (evaluate (expression_of e.now)))) }
{
    let value = judged(alloc, env, scope, e)?;
    Ok(value.found())
}

// A name stands twice in the innermost scope.
#[tactic(auto, using(crate::proofs::LocalLaws::twice))]
fn twice_in<'t>(_env: &Environment<'t>, scope: &Scope<'t>, name: &Name) -> Found
    ensures { result ≡ seen _env.now (twice_in name.now scope.now.locals) }
{
    Found::broken_if(
        scope.has(name.text.as_bytes()),
        Rule::Redeclared,
        name.place,
    )
}

/// A local int.
#[tactic(auto, using(crate::proofs::FoundLaws::findings))]
pub fn local_int<'t>(
    alloc: Global,
    env: &Environment<'t>,
    scope: &mut Scope<'t>,
    name: &'t Name,
    e: &'t Option<Expr>,
) -> Result<Found, NoMemory>
    ensures found { IfOk result (λ f. f ≡ seen env.now (statement_found env.now scope.old (local_int name.now (option_of expression_of e.now)))) }
    ensures scope { OnOk result (scope.new ≡ scope_behind env.now scope.old (local_int name.now (option_of expression_of e.now))) }
{
    let start = start_found(alloc, env, scope, e)?;
    let found = start.and(twice_in(env, scope, name));
    scope.declare(name, Kind::Int, false)?;
    Ok(found)
}

// The name of a reference, where it has one.
#[tactic(auto, using(crate::proofs::FoundLaws::findings))]
fn name_twice<'t>(env: &Environment<'t>, scope: &Scope<'t>, name: &Option<Name>) -> Found
    ensures { result ≡ seen env.now (name_twice name.now scope.now) }
{
    match name {
        None => Found::nothing(),
        Some(name) => twice_in(env, scope, name),
    }
}

/// Declares a parameter, with or without a name.
pub fn declare_param<'t>(
    env: &Environment<'t>,
    scope: &mut Scope<'t>,
    param: &'t Param,
) -> Result<(), NoMemory>
    ensures { OnOk result (scope.new ≡ declare_param env.now param.now scope.old) }
{
    let kind = type_kind(env, scope, &param.ty);
    match &param.name {
        None => scope.skip(),
        Some(name) => scope.declare(name, kind, is_const(&param.ty)),
    }
}

// What a local reference breaks.
#[tactic(auto, using(crate::proofs::FoundLaws::findings))]
fn local_ref_found<'t>(
    env: &Environment<'t>,
    scope: &Scope<'t>,
    param: &Param,
    names: &[Name],
) -> Found
    ensures { result ≡ seen env.now (statement_found env.now scope.now (local_ref param.now names.now)) }
{
    let r = reached(env, scope, names);
    let binding = binding_found(
        env,
        type_kind(env, scope, &param.ty),
        is_const(&param.ty),
        r.kind(),
        r.is_const(),
        first_place(names),
    );
    type_found(env, scope, &param.ty)
        .and(r.found())
        .and(binding)
        .and(name_twice(env, scope, &param.name))
}

/// A local reference.
pub fn local_ref<'t>(
    env: &Environment<'t>,
    scope: &mut Scope<'t>,
    param: &'t Param,
    names: &[Name],
) -> Result<Found, NoMemory>
    ensures found { IfOk result (λ f. f ≡ seen env.now (statement_found env.now scope.old (local_ref param.now names.now))) }
    ensures scope { OnOk result (scope.new ≡ scope_behind env.now scope.old (local_ref param.now names.now)) }
{
    let found = local_ref_found(env, scope, param, names);
    declare_param(env, scope, param)?;
    Ok(found)
}

// A local object, by its class.
fn object_found(
    env: &Environment<'_>,
    kind: Kind,
    called: u32,
    needs: u32,
    given: &[Judged<'_>],
) -> Found
    ensures { (js : List Judgement) → given.now ≡ judgements_seen env.now js → result ≡ seen env.now (object_found env.now (kind_of kind) called needs js) }
{
    match kind {
        Kind::Class(class) => construction_found(env, class, given, called, needs),
        _ => all_found(given),
    }
}

// What a local object breaks.
#[tactic(auto, using(crate::proofs::FoundLaws::findings))]
fn local_object_found<'t>(
    alloc: Global,
    env: &Environment<'t>,
    scope: &Scope<'t>,
    class: &Name,
    name: &Name,
    args: &'t [Expr],
) -> Result<Found, NoMemory>
    ensures { IfOk result (λ f. f ≡ seen env.now (statement_found env.now scope.now (local_object class.now name.now (expressions_of args.now)))) }
{
    let given = all_judged(alloc, env, scope, args)?;
    let kind = class_of_name(env, scope, class);
    let built = object_found(env, kind, class.place, name.place, given.as_slice());
    Ok(
        class_found(env, scope, class)
            .and(built)
            .and(twice_in(env, scope, name)),
    )
}

/// A local object.
pub fn local_object<'t>(
    alloc: Global,
    env: &Environment<'t>,
    scope: &mut Scope<'t>,
    class: &Name,
    name: &'t Name,
    args: &'t [Expr],
) -> Result<Found, NoMemory>
    ensures found { IfOk result (λ f. f ≡ seen env.now (statement_found env.now scope.old (local_object class.now name.now (expressions_of args.now)))) }
    ensures scope { OnOk result (scope.new ≡ scope_behind env.now scope.old (local_object class.now name.now (expressions_of args.now))) }
{
    let found = local_object_found(alloc, env, scope, class, name, args)?;
    scope.declare(name, class_of_name(env, scope, class), false)?;
    Ok(found)
}
