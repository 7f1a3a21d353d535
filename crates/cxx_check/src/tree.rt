// Classes and functions with their names bound.
ghost use Rattle.std.specs.Prelude.{◌≡◌, [], ◌∷◌, ℕ, Option, IfOk, map, length};
ghost use Rattle.cxx_ast.specs.declared.name.Bound.TheVariants.{Free};
ghost use Rattle.cxx_ast.specs.Declare.{function_scope};
ghost use Rattle.cxx_ast.specs.Environment.{Environment as Known, Scope as Place};
ghost use Rattle.cxx_ast.specs.Resolve.{bind, resolve_function};
ghost use Rattle.cxx_ast.specs.View.{function_of};
ghost use Rattle.cxx_check.specs.HeadingOf.{heading_of, heading_in, method_heading};
ghost use Rattle.cxx_check.specs.InsideOf.{IsInside};
ghost use Rattle.cxx_check.specs.TreeParts.{base_tree, fields_tree, methods_tree};

use crate::NoMemory;
use crate::bound::{bind, bind_some, numbered, resolve_class, resolve_type};
use crate::class_head::name_of;
use crate::heading::{Heading, copied_heading, copied_type};
use crate::held::put;
use crate::inside::{Inside, resolve_inside};
use cxx_ast::declaration::Func;
use cxx_ast::name::{Bound, Name};
use cxx_ast::types::{Param, Ty};
use cxx_rules::{Environment, Scope};
use std::alloc::Global;

// What stands before the initialisers and the body of a function, with its own name bound.
#[derive(Drop)]
struct Front {
    name: Name,
    result: Ty,
    heading: Heading,
}

// The front of a function by its head.
fn front_of(alloc: Global, bound: Bound, heading: &Heading, f: &Func) -> Result<Front, NoMemory>
    ensures name { IfOk result (λ r. r.name ≡ bind f.now.name bound) }
    ensures outcome { IfOk result (λ r. r.result ≡ f.now.result) }
    ensures heading { IfOk result (λ r. heading_of r.heading ≡ heading_of heading.now) }
{
    let name = bind(alloc, &f.name, bound)?;
    let outcome = copied_type(alloc, &f.result)?;
    let heading = copied_heading(alloc, heading)?;
    Ok(Front {
        name,
        result: outcome,
        heading,
    })
}

// A function of its head and what stands behind it, with its own name bound.
fn function_tree(
    alloc: Global,
    bound: Bound,
    heading: &Heading,
    inside: Inside,
    f: &Func,
) -> Result<Func, NoMemory>
    ensures { (head : Known) (place : Place) (env : Known) (own : Option ℕ) → heading_of heading.now ≡ heading_in head place (function_of f.now) → IsInside env own (function_of f.now) inside → IfOk result (λ r. function_of r ≡ resolve_function head place env (function_scope env own (function_of f.now).result) bound (function_of f.now)) }
{
    let front = front_of(alloc, bound, heading, f)?;
    Ok(Func {
        name: front.name,
        kind: f.kind,
        result: front.result,
        params: front.heading.params,
        spec: front.heading.spec,
        inits: inside.inits,
        body: inside.body,
        tokens: f.tokens,
    })
}

/// A function by its head, in a class or in none, with its own name bound.
pub fn function_under<'t>(
    alloc: Global,
    env: &Environment<'t>,
    own: Option<usize>,
    bound: Bound,
    heading: &Heading,
    f: &'t Func,
) -> Result<Func, NoMemory>
    ensures { (head : Known) (place : Place) → heading_of heading.now ≡ heading_in head place (function_of f.now) → IfOk result (λ r. function_of r ≡ resolve_function head place env.now (function_scope env.now own (function_of f.now).result) bound (function_of f.now)) }
{
    let inside = resolve_inside(alloc, env, own, f)?;
    function_tree(alloc, bound, heading, inside, f)
}

/// A base, where the class is known by its name.
pub fn base_tree<'t>(
    alloc: Global,
    env: &Environment<'t>,
    base: &Option<Name>,
) -> Result<Option<Name>, NoMemory>
    ensures { IfOk result (λ b. b ≡ base_tree env.now base.now) }
{
    match base {
        None => Ok(None),
        Some(name) => {
            let scope = Scope::outermost(alloc, None, None);
            let bound = resolve_class(alloc, env, &scope, name)?;
            Ok(Some(bound))
        }
    }
}

// A data member.
fn field_tree<'t>(
    alloc: Global,
    env: &Environment<'t>,
    class: usize,
    i: usize,
    nameless: &'t Name,
    member: &'t Param,
) -> Result<Param, NoMemory>
    requires { nameless.now ≡ record { text = []; place = 0; bound = Free } }
    ensures { IfOk result (λ r. r ∷ [] ≡ fields_tree env.now class i (member.now ∷ [])) }
{
    let place = name_of(nameless, member).place;
    let scope = Scope::outermost(alloc, Some(class), Some(place));
    let bound = Bound::Field(numbered(class)?, numbered(i)?);
    let ty = resolve_type(alloc, env, &scope, &member.ty)?;
    let name = bind_some(alloc, &member.name, bound)?;
    Ok(Param { ty, name })
}

/// The data members of a class, where the names of its parts are known.
pub fn fields_tree<'t>(
    alloc: Global,
    env: &Environment<'t>,
    class: usize,
    nameless: &'t Name,
    members: &'t [Param],
) -> Result<Vec<Param>, NoMemory>
    requires { nameless.now ≡ record { text = []; place = 0; bound = Free } }
    ensures { IfOk result (λ r. r.items ≡ fields_tree env.now class 0 members.now) }
{
    let mut rebuilt = Vec::new(alloc);
    for (i, member) in members.iter().enumerate() {
        let field = field_tree(alloc, env, class, i, nameless, member)?;
        put(field, &mut rebuilt)?;
    }
    Ok(rebuilt)
}

// A function of a class by its head.
fn method_tree<'t>(
    alloc: Global,
    env: &Environment<'t>,
    class: usize,
    i: usize,
    heading: &Heading,
    f: &'t Func,
) -> Result<Func, NoMemory>
    ensures { (head : Known) → heading_of heading.now ≡ method_heading head class (function_of f.now) → IfOk result (λ r. function_of r ∷ [] ≡ methods_tree head env.now class i (function_of f.now ∷ [])) }
{
    let bound = Bound::Method(numbered(class)?, numbered(i)?);
    function_under(alloc, env, Some(class), bound, heading, f)
}

/// The functions of a class by their heads, where the class is known.
pub fn methods_tree<'t>(
    alloc: Global,
    env: &Environment<'t>,
    class: usize,
    headings: &[Heading],
    funcs: &'t [Func],
) -> Result<Vec<Func>, NoMemory>
    requires { length headings.now ≡ length funcs.now }
    ensures { (head : Known) → map heading_of headings.now ≡ map (method_heading head class) (map function_of funcs.now) → IfOk result (λ r. map function_of r.items ≡ methods_tree head env.now class 0 (map function_of funcs.now)) }
{
    let mut rebuilt = Vec::new(alloc);
    for (i, f) in funcs.iter().enumerate() {
        let method = method_tree(alloc, env, class, i, &headings[i], f)?;
        put(method, &mut rebuilt)?;
    }
    Ok(rebuilt)
}
