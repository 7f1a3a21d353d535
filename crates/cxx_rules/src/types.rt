// The types that a program names.
ghost use Rattle.std.specs.Prelude.{◌≡◌, IfOk, flat_map, map};
ghost use Rattle.cxx_ast.specs.Spelling.{is_bad_exception};
ghost use Rattle.cxx_ast.specs.TypeNames.{class_of_name, class_found, class_meant, class_wanted, type_kind, type_found, is_reference, is_const, passing, allowed_kinds, signature, specification_found, head_types_found};
ghost use Rattle.cxx_ast.specs.View.{function_of, option_of, specification_of};
ghost use Rattle.cxx_rules.specs.KindOf.{kind_of, kinds_of};
ghost use Rattle.cxx_rules.specs.MeaningOf.{meaning_of};
ghost use Rattle.cxx_rules.specs.Summary.{seen};

use crate::NoMemory;
use crate::entry::{Passing, Signature};
use crate::environment::Environment;
use crate::found::Found;
use crate::kind::Kind;
use crate::lookup::Meaning;
use crate::meaning::look;
use crate::rule::Rule;
use crate::scope::Scope;
use cxx_ast::declaration::{Func, Spec};
use cxx_ast::name::Name;
use cxx_ast::types::{Param, Ty};
use std::alloc::Global;

/// A class's name is `std::bad_exception`.
pub fn is_bad_exception(name: &Name) -> bool
    ensures { result ≡ is_bad_exception name.now }
{
    name.text.as_bytes() == b"std::bad_exception".as_slice()
}

// The class that a meaning is.
fn class_meant(meaning: &Meaning<'_, '_>) -> Kind
    ensures { kind_of result ≡ class_meant (meaning_of meaning.now) }
{
    match meaning {
        Meaning::Class(k) => Kind::Class(*k),
        _ => Kind::Nothing,
    }
}

// What is broken where a class is needed.
#[tactic(auto, using(crate::proofs::FoundLaws::findings))]
fn class_wanted(env: &Environment<'_>, place: u32, meaning: &Meaning<'_, '_>) -> Found
    ensures { result ≡ seen env.now (class_wanted place (meaning_of meaning.now)) }
{
    match meaning {
        Meaning::Unknown => Found::broken(Rule::UnknownName, place),
        Meaning::Class(_) => Found::nothing(),
        _ => Found::broken(Rule::TypeMismatch, place),
    }
}

/// The class that a type's name stands for.
pub fn class_of_name<'t>(env: &Environment<'t>, scope: &Scope<'t>, name: &Name) -> Kind
    ensures { kind_of result ≡ class_of_name env.now scope.now name.now }
{
    if is_bad_exception(name) {
        Kind::Class(0)
    } else {
        class_meant(&look(env, scope, name))
    }
}

/// What a type's name breaks.
#[tactic(auto, using(crate::proofs::FoundLaws::findings))]
pub fn class_found<'t>(env: &Environment<'t>, scope: &Scope<'t>, name: &Name) -> Found
    ensures { result ≡ seen env.now (class_found env.now scope.now name.now) }
{
    if is_bad_exception(name) {
        Found::nothing()
    } else {
        class_wanted(env, name.place, &look(env, scope, name))
    }
}

/// The type of what is declared so: of the object that a reference refers to.
pub fn type_kind<'t>(env: &Environment<'t>, scope: &Scope<'t>, ty: &Ty) -> Kind
    ensures { kind_of result ≡ type_kind env.now scope.now ty.now }
{
    match ty {
        Ty::Int | Ty::IntRef(_) => Kind::Int,
        Ty::Void => Kind::Void,
        Ty::Object(name) | Ty::ObjectRef(_, name) => class_of_name(env, scope, name),
    }
}

/// What a type breaks.
#[tactic(auto, using(crate::proofs::FoundLaws::findings))]
pub fn type_found<'t>(env: &Environment<'t>, scope: &Scope<'t>, ty: &Ty) -> Found
    ensures { result ≡ seen env.now (type_found env.now scope.now ty.now) }
{
    match ty {
        Ty::Object(name) | Ty::ObjectRef(_, name) => class_found(env, scope, name),
        _ => Found::nothing(),
    }
}

/// A type is that of a reference.
pub fn is_reference(ty: &Ty) -> bool
    ensures { result ≡ is_reference ty.now }
{
    matches!(ty, Ty::IntRef(_) | Ty::ObjectRef(_, _))
}

/// A type is that of a reference to const.
pub fn is_const(ty: &Ty) -> bool
    ensures { result ≡ is_const ty.now }
{
    match ty {
        Ty::IntRef(constant) | Ty::ObjectRef(constant, _) => *constant,
        _ => false,
    }
}

/// How a parameter takes its argument.
pub fn passing<'t>(env: &Environment<'t>, scope: &Scope<'t>, param: &Param) -> Passing
    ensures { result ≡ passing env.now scope.now param.now }
{
    let kind = type_kind(env, scope, &param.ty);
    Passing::new(kind, is_reference(&param.ty), is_const(&param.ty))
}

// The types of a list.
fn kinds<'t>(
    alloc: Global,
    env: &Environment<'t>,
    scope: &Scope<'t>,
    types: &[Ty],
) -> Result<Vec<Kind>, NoMemory>
    ensures { IfOk result (λ kinds. map kind_of kinds.items ≡ map (type_kind env.now scope.now) types.now) }
{
    let mut kinds = Vec::new(alloc);
    for ty in types {
        kinds.push(type_kind(env, scope, ty))?;
    }
    Ok(kinds)
}

// The types of what a function may throw, or none where it may throw all.
fn allowed_kinds<'t>(
    alloc: Global,
    env: &Environment<'t>,
    scope: &Scope<'t>,
    specification: &Option<Spec>,
) -> Result<Option<Vec<Kind>>, NoMemory>
    ensures { IfOk result (λ kinds. kinds_of kinds ≡ allowed_kinds env.now scope.now (option_of specification_of specification.now)) }
{
    match specification {
        None | Some(Spec::Noexcept(_, false)) => Ok(None),
        Some(Spec::Noexcept(_, true)) => Ok(Some(Vec::new(alloc))),
        Some(Spec::Throw(types)) => Ok(Some(kinds(alloc, env, scope, types.as_slice())?)),
    }
}

// How parameters take their arguments.
fn passings<'t>(
    alloc: Global,
    env: &Environment<'t>,
    scope: &Scope<'t>,
    params: &[Param],
) -> Result<Vec<Passing>, NoMemory>
    ensures { IfOk result (λ passings. passings.items ≡ map (passing env.now scope.now) params.now) }
{
    let mut passings = Vec::new(alloc);
    for param in params {
        passings.push(passing(env, scope, param))?;
    }
    Ok(passings)
}

/// A function as its callers see it.
pub fn signature<'t>(
    alloc: Global,
    env: &Environment<'t>,
    scope: &Scope<'t>,
    f: &'t Func,
) -> Result<Signature<'t>, NoMemory>
    ensures { IfOk result (λ s. s ≡ signature env.now scope.now (function_of f.now)) }
{
    let outcome = type_kind(env, scope, &f.result);
    let parameters = passings(alloc, env, scope, f.params.as_slice())?;
    let allowed = allowed_kinds(alloc, env, scope, &f.spec)?;
    Ok(Signature::new(
        &f.name,
        f.kind,
        outcome,
        parameters,
        allowed,
        f.body.is_some(),
    ))
}

// What types break.
fn types_found<'t>(env: &Environment<'t>, scope: &Scope<'t>, types: &[Ty]) -> Found
    ensures { result ≡ seen env.now (flat_map (type_found env.now scope.now) types.now) }
{
    let mut found = Found::nothing();
    for ty in types {
        found = found.and(type_found(env, scope, ty));
    }
    found
}

// What the types of parameters break.
fn params_found<'t>(env: &Environment<'t>, scope: &Scope<'t>, params: &[Param]) -> Found
    ensures { result ≡ seen env.now (flat_map (λ p. type_found env.now scope.now p.ty) params.now) }
{
    let mut found = Found::nothing();
    for param in params {
        found = found.and(type_found(env, scope, &param.ty));
    }
    found
}

// What the types of a specification break.
#[tactic(auto, using(crate::proofs::FoundLaws::findings))]
fn specification_found<'t>(
    env: &Environment<'t>,
    scope: &Scope<'t>,
    specification: &Option<Spec>,
) -> Found
    ensures { result ≡ seen env.now (specification_found env.now scope.now (option_of specification_of specification.now)) }
{
    match specification {
        None | Some(Spec::Noexcept(_, _)) => Found::nothing(),
        Some(Spec::Throw(types)) => types_found(env, scope, types.as_slice()),
    }
}

/// What the types of a function's head break.
#[tactic(auto, using(crate::proofs::FoundLaws::findings))]
pub fn head_types_found<'t>(env: &Environment<'t>, scope: &Scope<'t>, f: &Func) -> Found
    ensures { result ≡ seen env.now (head_types_found env.now scope.now (function_of f.now)) }
{
    params_found(env, scope, f.params.as_slice()).and(specification_found(env, scope, &f.spec))
}
