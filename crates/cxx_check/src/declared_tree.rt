// Declarations with their names bound.
ghost use Rattle.std.specs.Prelude.{◌≡◌, ◌∷◌, [], IfOk, OnOk, map};
ghost use Rattle.cxx_ast.specs.declared.name.Bound.TheVariants.{Free};
ghost use Rattle.cxx_ast.specs.Checked.{resolve_declaration, resolve_declarations, classes_of, globals_of, functions_of, bad_exception};
ghost use Rattle.cxx_ast.specs.Declare.{declare_behind};
ghost use Rattle.cxx_ast.specs.Locals.{outermost};
ghost use Rattle.cxx_ast.specs.Plain.{class_declaration, global_declaration, function_declaration};
ghost use Rattle.cxx_ast.specs.View.{class_of, function_of, declaration_of};
ghost use Rattle.cxx_check.specs.HeadingOf.{heading_of, heading_in};

use crate::NoMemory;
use crate::bound::{bind, numbered};
use crate::class_tree::class_tree;
use crate::heading::{Heading, bound_head};
use crate::held::put;
use crate::parts::Parts;
use crate::tree::function_under;
use cxx_ast::declaration::{ClassDecl, Decl, Func};
use cxx_ast::name::{Bound, Name};
use cxx_rules::{Environment, Scope, signature};
use std::alloc::Global;

// A function of no class is known from here on.
fn declare_function<'t>(
    alloc: Global,
    env: &mut Environment<'t>,
    f: &'t Func,
) -> Result<(), NoMemory>
    ensures { OnOk result (env.new ≡ declare_behind env.old (function_declaration (function_of f.now))) }
{
    let scope = Scope::outermost(alloc, None, None);
    let s = signature(alloc, env, &scope, f)?;
    env.add_signature(alloc, s)
}

// The head of a function of no class, which is known from here on.
fn function_heading<'t>(
    alloc: Global,
    env: &mut Environment<'t>,
    f: &'t Func,
) -> Result<Heading, NoMemory>
    ensures env { OnOk result (env.new ≡ declare_behind env.old (function_declaration (function_of f.now))) }
    ensures heading { IfOk result (λ h. heading_of h ≡ heading_in env.old outermost (function_of f.now)) }
{
    let heading = bound_head(alloc, env, None, None, f)?;
    declare_function(alloc, env, f)?;
    Ok(heading)
}

// A function of no class, which is known from here on.
fn function_bound<'t>(
    alloc: Global,
    env: &mut Environment<'t>,
    f: &'t Func,
) -> Result<Decl, NoMemory>
    ensures env { OnOk result (env.new ≡ declare_behind env.old (function_declaration (function_of f.now))) }
    ensures decl { IfOk result (λ d. declaration_of d ≡ resolve_declaration env.old (function_declaration (function_of f.now))) }
{
    let number = numbered(env.function_number(f.name.text.as_bytes()))?;
    let heading = function_heading(alloc, env, f)?;
    let tree = function_under(alloc, env, None, Bound::Func(number), &heading, f)?;
    Ok(Decl::Func(tree))
}

// A global, which is known from here on.
fn global_bound(
    alloc: Global,
    env: &mut Environment<'_>,
    name: &Name,
    value: i32,
) -> Result<Decl, NoMemory>
    ensures env { OnOk result (env.new ≡ declare_behind env.old (global_declaration name.now value)) }
    ensures decl { IfOk result (λ d. declaration_of d ≡ resolve_declaration env.old (global_declaration name.now value)) }
{
    let number = numbered(env.globals())?;
    env.add_global(alloc, name.text.as_bytes())?;
    let bound = bind(alloc, name, Bound::Global(number))?;
    Ok(Decl::Global(bound, value))
}

// A class as a declaration, which is known from here on.
fn class_bound<'t>(
    alloc: Global,
    env: &mut Environment<'t>,
    nameless: &'t Name,
    class: &'t ClassDecl,
) -> Result<Decl, NoMemory>
    requires { nameless.now ≡ record { text = []; place = 0; bound = Free } }
    ensures env { OnOk result (env.new ≡ declare_behind env.old (class_declaration (class_of class.now))) }
    ensures decl { IfOk result (λ d. declaration_of d ≡ resolve_declaration env.old (class_declaration (class_of class.now))) }
{
    let tree = class_tree(alloc, env, nameless, class)?;
    Ok(Decl::Class(tree))
}

// A declaration, which is known from here on.
fn declaration_bound<'t>(
    alloc: Global,
    env: &mut Environment<'t>,
    nameless: &'t Name,
    d: &'t Decl,
) -> Result<Decl, NoMemory>
    requires { nameless.now ≡ record { text = []; place = 0; bound = Free } }
    ensures env { OnOk result (env.new ≡ declare_behind env.old (declaration_of d.now)) }
    ensures decl { IfOk result (λ r. declaration_of r ≡ resolve_declaration env.old (declaration_of d.now)) }
{
    match d {
        Decl::Class(c) => class_bound(alloc, env, nameless, c),
        Decl::Global(name, value) => global_bound(alloc, env, name, *value),
        Decl::Func(f) => function_bound(alloc, env, f),
    }
}

/// Declarations in order, which are known from here on.
pub fn declarations_bound<'t>(
    alloc: Global,
    env: &mut Environment<'t>,
    nameless: &'t Name,
    decls: &'t [Decl],
) -> Result<Vec<Decl>, NoMemory>
    requires { nameless.now ≡ record { text = []; place = 0; bound = Free } }
    ensures { IfOk result (λ r. map declaration_of r.items ≡ resolve_declarations env.old (map declaration_of decls.now)) }
{
    let mut rebuilt = Vec::new(alloc);
    for d in decls {
        let next = declaration_bound(alloc, env, nameless, d)?;
        put(next, &mut rebuilt)?;
    }
    Ok(rebuilt)
}

/// The classes, globals and functions of declarations, which are known from here on, behind the class `std::bad_exception`.
pub fn parts_bound<'t>(
    alloc: Global,
    env: &mut Environment<'t>,
    nameless: &'t Name,
    decls: &'t [Decl],
) -> Result<Parts, NoMemory>
    requires { nameless.now ≡ record { text = []; place = 0; bound = Free } }
    ensures classes { IfOk result (λ p. map class_of p.classes.items ≡ bad_exception ∷ classes_of (resolve_declarations env.old (map declaration_of decls.now))) }
    ensures globals { IfOk result (λ p. p.globals.items ≡ globals_of (resolve_declarations env.old (map declaration_of decls.now))) }
    ensures functions { IfOk result (λ p. map function_of p.functions.items ≡ functions_of (resolve_declarations env.old (map declaration_of decls.now))) }
{
    let mut parts = Parts::new(alloc)?;
    for d in decls {
        let next = declaration_bound(alloc, env, nameless, d)?;
        parts.add(next)?;
    }
    Ok(parts)
}
