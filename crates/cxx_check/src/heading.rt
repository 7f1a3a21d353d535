// The heads of functions with their names bound, and copies of their parts.
ghost use Rattle.std.specs.Prelude.{◌≡◌, IfOk, map};
ghost use Rattle.cxx_ast.specs.Locals.{outermost};
ghost use Rattle.cxx_ast.specs.Resolve.{resolve_params, resolve_specification, resolve_type};
ghost use Rattle.cxx_ast.specs.View.{function_of};
ghost use Rattle.cxx_check.specs.HeadingOf.{some_specification, heading_of, heading_in, method_heading};

use crate::NoMemory;
use crate::bound::{copied, resolve_type};
use crate::held::put;
use crate::rebuilt::resolve_param;
use cxx_ast::declaration::{Func, Spec};
use cxx_ast::name::Name;
use cxx_ast::types::{Param, Ty};
use cxx_rules::{Environment, Scope, declare_param};
use std::alloc::Global;

/// The parameters of a function and its specification, with their names bound.
#[derive(Drop)]
pub struct Heading {
    pub params: Vec<Param>,
    pub spec: Option<Spec>,
}

// Parameters with their numbers.
fn resolve_params<'t>(
    alloc: Global,
    env: &Environment<'t>,
    scope: &mut Scope<'t>,
    params: &'t [Param],
) -> Result<Vec<Param>, NoMemory>
    ensures { IfOk result (λ r. r.items ≡ resolve_params env.now scope.old params.now) }
{
    let mut rebuilt = Vec::new(alloc);
    for param in params {
        let bound = resolve_param(alloc, env, scope, param)?;
        put(bound, &mut rebuilt)?;
        declare_param(env, scope, param)?;
    }
    Ok(rebuilt)
}

// Types in order.
fn resolve_types<'t>(
    alloc: Global,
    env: &Environment<'t>,
    scope: &Scope<'t>,
    types: &[Ty],
) -> Result<Vec<Ty>, NoMemory>
    ensures { IfOk result (λ r. r.items ≡ map (resolve_type env.now scope.now) types.now) }
{
    let mut rebuilt = Vec::new(alloc);
    for ty in types {
        let bound = resolve_type(alloc, env, scope, ty)?;
        put(bound, &mut rebuilt)?;
    }
    Ok(rebuilt)
}

// A specification, where there is one.
fn resolve_specification<'t>(
    alloc: Global,
    env: &Environment<'t>,
    scope: &Scope<'t>,
    spec: &Option<Spec>,
) -> Result<Option<Spec>, NoMemory>
    ensures { IfOk result (λ r. some_specification r ≡ resolve_specification env.now scope.now (some_specification spec.now)) }
{
    match spec {
        None => Ok(None),
        Some(Spec::Throw(types)) => {
            let types = resolve_types(alloc, env, scope, types.as_slice())?;
            Ok(Some(Spec::Throw(types)))
        }
        Some(Spec::Noexcept(place, holds)) => Ok(Some(Spec::Noexcept(*place, *holds))),
    }
}

// The head of a function, where its names are sought.
fn heading_at<'t>(
    alloc: Global,
    env: &Environment<'t>,
    scope: &mut Scope<'t>,
    f: &'t Func,
) -> Result<Heading, NoMemory>
    ensures { IfOk result (λ h. heading_of h ≡ heading_in env.now scope.old (function_of f.now)) }
{
    let spec = resolve_specification(alloc, env, scope, &f.spec)?;
    let params = resolve_params(alloc, env, scope, f.params.as_slice())?;
    Ok(Heading { params, spec })
}

/// The head of a function, whose names are sought in a class before a place, or outside of classes.
pub fn bound_head<'t>(
    alloc: Global,
    env: &Environment<'t>,
    own: Option<usize>,
    limit: Option<u32>,
    f: &'t Func,
) -> Result<Heading, NoMemory>
    ensures { IfOk result (λ h. heading_of h ≡ heading_in env.now (record outermost { own = own; limit = limit }) (function_of f.now)) }
{
    let mut scope = Scope::outermost(alloc, own, limit);
    let heading = heading_at(alloc, env, &mut scope, f)?;
    Ok(heading)
}

/// The heads of a class's functions in order.
pub fn bound_heads<'t>(
    alloc: Global,
    env: &Environment<'t>,
    class: usize,
    funcs: &'t [Func],
) -> Result<Vec<Heading>, NoMemory>
    ensures { IfOk result (λ r. map heading_of r.items ≡ map (method_heading env.now class) (map function_of funcs.now)) }
{
    let mut heads = Vec::new(alloc);
    for f in funcs {
        let head = bound_head(alloc, env, Some(class), Some(f.name.place), f)?;
        put(head, &mut heads)?;
    }
    Ok(heads)
}

/// A copy of a type.
pub fn copied_type(alloc: Global, ty: &Ty) -> Result<Ty, NoMemory>
    ensures { IfOk result (λ t. t ≡ ty.now) }
{
    match ty {
        Ty::Int => Ok(Ty::Int),
        Ty::Void => Ok(Ty::Void),
        Ty::Object(name) => Ok(Ty::Object(copied(alloc, name)?)),
        Ty::IntRef(constant) => Ok(Ty::IntRef(*constant)),
        Ty::ObjectRef(constant, name) => Ok(Ty::ObjectRef(*constant, copied(alloc, name)?)),
    }
}

/// Copies of types.
pub fn copied_types(alloc: Global, types: &[Ty]) -> Result<Vec<Ty>, NoMemory>
    ensures { IfOk result (λ r. r.items ≡ types.now) }
{
    let mut copies = Vec::new(alloc);
    for ty in types {
        let copy = copied_type(alloc, ty)?;
        put(copy, &mut copies)?;
    }
    Ok(copies)
}

/// A copy of a specification, where there is one.
pub fn copied_specification(alloc: Global, spec: &Option<Spec>) -> Result<Option<Spec>, NoMemory>
    ensures { IfOk result (λ r. some_specification r ≡ some_specification spec.now) }
{
    match spec {
        None => Ok(None),
        Some(Spec::Throw(types)) => {
            let types = copied_types(alloc, types.as_slice())?;
            Ok(Some(Spec::Throw(types)))
        }
        Some(Spec::Noexcept(place, holds)) => Ok(Some(Spec::Noexcept(*place, *holds))),
    }
}

// A copy of a name, where there is one.
fn copied_some(alloc: Global, name: &Option<Name>) -> Result<Option<Name>, NoMemory>
    ensures { IfOk result (λ n. n ≡ name.now) }
{
    match name {
        None => Ok(None),
        Some(name) => Ok(Some(copied(alloc, name)?)),
    }
}

// A copy of a parameter.
fn copied_param(alloc: Global, param: &Param) -> Result<Param, NoMemory>
    ensures { IfOk result (λ p. p ≡ param.now) }
{
    let ty = copied_type(alloc, &param.ty)?;
    let name = copied_some(alloc, &param.name)?;
    Ok(Param { ty, name })
}

// Copies of parameters.
fn copied_params(alloc: Global, params: &[Param]) -> Result<Vec<Param>, NoMemory>
    ensures { IfOk result (λ r. r.items ≡ params.now) }
{
    let mut copies = Vec::new(alloc);
    for param in params {
        let copy = copied_param(alloc, param)?;
        put(copy, &mut copies)?;
    }
    Ok(copies)
}

/// A copy of a head.
pub fn copied_heading(alloc: Global, heading: &Heading) -> Result<Heading, NoMemory>
    ensures { IfOk result (λ h. heading_of h ≡ heading_of heading.now) }
{
    let params = copied_params(alloc, heading.params.as_slice())?;
    let spec = copied_specification(alloc, &heading.spec)?;
    Ok(Heading { params, spec })
}
