// What is broken in functions: in their parameters, their initialisers and their bodies.
ghost use Rattle.std.specs.Prelude.{◌≡◌, [], IfOk, OnOk, map};
ghost use Rattle.cxx_ast.specs.Environment.{Scope as Place};
ghost use Rattle.cxx_ast.specs.FunctionRules.{params_twice, initialisers_found, left_fields, left_base, initialised, building_found, building_of, body_found};
ghost use Rattle.cxx_ast.specs.Declare.{function_scope, is_int_kind};
ghost use Rattle.cxx_rules.specs.KindOf.{kind_of};
ghost use Rattle.cxx_ast.specs.Locals.{declare_params};
ghost use Rattle.cxx_ast.specs.View.{initialiser_of, function_of};
ghost use Rattle.cxx_rules.specs.Parts.{texts_now, param_found, param_seen, params_behind, initialisers_behind, named_behind, left_parts, class_building};
ghost use Rattle.cxx_rules.specs.Summary.{nothing_found, seen};

use crate::NoMemory;
use crate::class::ClassEntry;
use crate::environment::Environment;
use crate::found::Found;
use crate::initialiser::{initialiser_found, left_base, left_fields};
use crate::kind::Kind;
use crate::rule::Rule;
use crate::scope::Scope;
use crate::simple::declare_param;
use crate::statement::statements;
use crate::texts::Texts;
use crate::types::type_kind;
use cxx_ast::declaration::{Func, FuncKind, Init};
use cxx_ast::types::{Param, Ty};
use std::alloc::Global;

// A parameter behind those of some names.
#[tactic(auto, using(crate::proofs::FoundLaws::findings))]
fn param_found(_env: &Environment<'_>, before: &Texts, param: &Param) -> Found
    ensures { result ≡ seen _env.now (param_found before.now param.now) }
{
    match &param.name {
        None => Found::nothing(),
        Some(name) => {
            let twice = before.contains(name.text.as_bytes());
            Found::broken_if(twice, Rule::Redeclared, name.place)
        }
    }
}

// Takes the name of a parameter more.
fn see_param(alloc: Global, before: &mut Texts, param: &Param) -> Result<(), NoMemory>
    ensures { OnOk result (before.new ≡ param_seen before.old param.now) }
{
    match &param.name {
        None => Ok(()),
        Some(name) => before.add(alloc, name.text.as_bytes()),
    }
}

// Parameters behind those of some names, to which theirs are added.
fn each_param(
    alloc: Global,
    env: &Environment<'_>,
    before: &mut Texts,
    params: &[Param],
) -> Result<Found, NoMemory>
    ensures { IfOk result (λ f. f ≡ params_behind env.now nothing_found before.old params.now) }
{
    let mut found = Found::nothing();
    for param in params {
        found = found.and(param_found(env, before, param));
        see_param(alloc, before, param)?;
    }
    Ok(found)
}

/// Parameters that stand twice.
#[tactic(auto, using(crate::proofs::PartLaws::params_behind_is))]
pub fn params_twice(
    alloc: Global,
    env: &Environment<'_>,
    params: &[Param],
) -> Result<Found, NoMemory>
    ensures { IfOk result (λ f. f ≡ seen env.now (params_twice [] params.now)) }
{
    let mut before = Texts::new(alloc);
    each_param(alloc, env, &mut before, params)
}

/// Declares parameters in order.
pub fn declare_params<'t>(
    env: &Environment<'t>,
    scope: &mut Scope<'t>,
    params: &'t [Param],
) -> Result<(), NoMemory>
    ensures { OnOk result (scope.new ≡ declare_params env.now params.now scope.old) }
{
    for param in params {
        declare_param(env, scope, param)?;
    }
    Ok(())
}

// Initialisers behind those of some names, to which theirs are added.
fn each_initialiser<'t>(
    alloc: Global,
    env: &Environment<'t>,
    scope: &Scope<'t>,
    class: &ClassEntry<'t>,
    before: &mut Vec<&'t [u8]>,
    initialisers: &'t [Init],
) -> Result<Found, NoMemory>
    ensures found { IfOk result (λ f. f ≡ initialisers_behind env.now scope.now class.now nothing_found (texts_now before.old.items) (map initialiser_of initialisers.now)) }
    ensures before { OnOk result (texts_now before.new.items ≡ named_behind (texts_now before.old.items) (map initialiser_of initialisers.now)) }
{
    let mut found = Found::nothing();
    for i in initialisers {
        let part = initialiser_found(alloc, env, scope, class, before.as_slice(), i)?;
        found = found.and(part);
        before.insert(0, i.name.text.as_bytes())?;
    }
    Ok(found)
}

// The parts that a constructor does not initialise.
fn left_parts(env: &Environment<'_>, class: &ClassEntry<'_>, place: u32, names: &[&[u8]]) -> Found
    ensures { result ≡ left_parts env.now class.now place (texts_now names.now) }
{
    left_fields(env, place, names, class.fields()).and(left_base(env, place, names, class.base()))
}

// What a constructor does before its body.
fn class_building<'t>(
    alloc: Global,
    env: &Environment<'t>,
    scope: &Scope<'t>,
    class: &ClassEntry<'t>,
    f: &'t Func,
) -> Result<Found, NoMemory>
    ensures { IfOk result (λ found. found ≡ seen env.now (class_building env.now scope.now class.now (function_of f.now))) }
{
    let mut names = Vec::new(alloc);
    let place = f.name.place;
    let built = each_initialiser(alloc, env, scope, class, &mut names, f.inits.as_slice())?;
    Ok(built.and(left_parts(env, class, place, names.as_slice())))
}

// What a constructor of a class does before its body, where a class is given.
#[tactic(auto, using(crate::proofs::FoundLaws::findings))]
fn building_found<'t>(
    alloc: Global,
    env: &Environment<'t>,
    scope: &Scope<'t>,
    own: Option<usize>,
    f: &'t Func,
) -> Result<Found, NoMemory>
    ensures { IfOk result (λ found. found ≡ seen env.now (building_found env.now scope.now own (function_of f.now))) }
{
    match own {
        None => Ok(Found::nothing()),
        Some(k) => match env.class(k) {
            None => Ok(Found::nothing()),
            Some(class) => class_building(alloc, env, scope, class, f),
        },
    }
}

// A constructor's initialisers, which no other function has.
#[tactic(auto, using(crate::proofs::FoundLaws::findings))]
fn building_of<'t>(
    alloc: Global,
    env: &Environment<'t>,
    scope: &Scope<'t>,
    own: Option<usize>,
    f: &'t Func,
) -> Result<Found, NoMemory>
    ensures { IfOk result (λ found. found ≡ seen env.now (building_of env.now scope.now own (function_of f.now) f.now.kind)) }
{
    match f.kind {
        FuncKind::Constructor => building_found(alloc, env, scope, own, f),
        _ => Ok(Found::nothing()),
    }
}

// A body, in the scope of the parameters.
#[tactic(auto, using(crate::proofs::FoundLaws::findings))]
fn body_in<'t>(
    alloc: Global,
    env: &Environment<'t>,
    scope: &mut Scope<'t>,
    own: Option<usize>,
    f: &'t Func,
) -> Result<Found, NoMemory>
    ensures { IfOk result (λ found. found ≡ seen env.now (body_found env.now scope.old own (function_of f.now) (function_of f.now).body)) }
{
    match &f.body {
        None => Ok(Found::nothing()),
        Some(ss) => {
            let built = building_of(alloc, env, scope, own, f)?;
            Ok(built.and(statements(alloc, env, scope, ss.as_slice())?))
        }
    }
}

/// The body of a function of a class or of none, with a constructor's initialisers.
pub fn body_found<'t>(
    alloc: Global,
    env: &Environment<'t>,
    own: Option<usize>,
    f: &'t Func,
) -> Result<Found, NoMemory>
    ensures { IfOk result (λ found. found ≡ seen env.now (body_found env.now (declare_params env.now (function_of f.now).parameters (function_scope env.now own (function_of f.now).result)) own (function_of f.now) (function_of f.now).body)) }
{
    let mut scope = function_scope(alloc, env, own, &f.result)?;
    declare_params(env, &mut scope, f.params.as_slice())?;
    body_in(alloc, env, &mut scope, own, f)
}

/// The scope of a function's parameters.
pub fn function_scope<'t>(
    alloc: Global,
    env: &Environment<'t>,
    own: Option<usize>,
    outcome: &Ty,
) -> Result<Scope<'t>, NoMemory>
    ensures { IfOk result (λ s. s ≡ function_scope env.now own outcome.now) }
{
    let heads = Scope::outermost(alloc, None, None);
    let gives_value = is_int_kind(type_kind(env, &heads, outcome));
    Scope::function(alloc, own, gives_value)
}

// A type is int.
fn is_int_kind(kind: Kind) -> bool
    ensures { result ≡ is_int_kind (kind_of kind) }
{
    matches!(kind, Kind::Int)
}
