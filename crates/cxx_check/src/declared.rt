// Declarations of globals and functions, and the walk over all declarations.
ghost use Rattle.std.specs.Prelude.{◌≡◌, [], ◌&&◌, IfOk, OnOk, map, Some, None};
ghost use Rattle.cxx_ast.specs.declared.name.Bound.TheVariants.{Free};
ghost use Rattle.cxx_ast.specs.Broken.{function_name_found, declaration_found, declarations_found};
ghost use Rattle.cxx_ast.specs.Declare.{declare_behind};
ghost use Rattle.cxx_ast.specs.Locals.{outermost};
ghost use Rattle.cxx_ast.specs.Lookup.{entry_of};
ghost use Rattle.cxx_ast.specs.Plain.{function_declaration};
ghost use Rattle.cxx_ast.specs.TypeNames.{signature};
ghost use Rattle.cxx_ast.specs.View.{function_of, declaration_of};
ghost use Rattle.cxx_check.specs.FunctionParts.{head_found};
ghost use Rattle.cxx_check.specs.Whole.{again_found, global_found};
ghost use Rattle.cxx_rules.specs.Known.{with_global};
ghost use Rattle.cxx_rules.specs.Summary.{both, seen};

use crate::NoMemory;
use crate::class::class;
use crate::class_head::function_head;
use crate::inside::behind_found;
use cxx_ast::declaration::{Decl, Func};
use cxx_ast::name::Name;
use cxx_rules::{Environment, Found, Rule, Signature, Thing};
use std::alloc::Global;

// A function behind other declarations of it.
#[tactic(auto, using(cxx_rules::proofs::FoundLaws::findings))]
fn again_found(env: &Environment<'_>, s: &Signature<'_>) -> Found
    ensures { result ≡ seen env.now (again_found env.now s.now) }
{
    let place = s.name().place;
    let differs = env.signatures().differs_from(s);
    let twice = s.is_defined() && env.signatures().defines(s.name().text.as_bytes());
    Found::broken_if(differs, Rule::SpecificationMismatch, place).and(Found::broken_if(
        twice,
        Rule::Redeclared,
        place,
    ))
}

// The name of a function.
#[tactic(auto, using(cxx_rules::proofs::FoundLaws::findings))]
fn name_found(env: &Environment<'_>, s: &Signature<'_>) -> Found
    ensures { result ≡ seen env.now (function_name_found env.now s.now (entry_of env.now s.now.name.text)) }
{
    match env.thing(s.name().text.as_bytes()) {
        None => Found::nothing(),
        Some(Thing::Function) => again_found(env, s),
        Some(Thing::Class(_)) => Found::broken(Rule::Redeclared, s.name().place),
        Some(Thing::Global(_)) => Found::broken(Rule::Redeclared, s.name().place),
    }
}

// The head of a function of no class, which is known from here on.
fn head_known<'t>(alloc: Global, env: &mut Environment<'t>, f: &'t Func) -> Result<Found, NoMemory>
    ensures env { OnOk result (env.new ≡ declare_behind env.old (function_declaration (function_of f.now))) }
    ensures found { IfOk result (λ found. found ≡ both (seen env.old (function_name_found env.old (signature env.old outermost (function_of f.now)) (entry_of env.old f.now.name.text))) (seen env.old (head_found env.old outermost (function_of f.now)))) }
{
    let head = function_head(alloc, env, None, None, f)?;
    let named = name_found(env, &head.signature);
    env.add_signature(alloc, head.signature)?;
    Ok(named.and(head.found))
}

// A function of no class, which is known from here on.
fn function<'t>(alloc: Global, env: &mut Environment<'t>, f: &'t Func) -> Result<Found, NoMemory>
    ensures env { OnOk result (env.new ≡ declare_behind env.old (function_declaration (function_of f.now))) }
    ensures found { IfOk result (λ found. found ≡ seen env.old (declaration_found env.old (function_declaration (function_of f.now)))) }
{
    let head = head_known(alloc, env, f)?;
    let behind = behind_found(alloc, env, None, f)?;
    Ok(head.and(behind))
}

// A global, which is known from here on.
#[tactic(auto, using(cxx_rules::proofs::FoundLaws::findings))]
fn global(alloc: Global, env: &mut Environment<'_>, name: &Name) -> Result<Found, NoMemory>
    ensures env { OnOk result (env.new ≡ with_global env.old name.now.text) }
    ensures found { IfOk result (λ found. found ≡ seen env.old (global_found env.old name.now)) }
{
    let text = name.text.as_bytes();
    let found = Found::broken_if(env.is_taken(text), Rule::Redeclared, name.place);
    env.add_global(alloc, text)?;
    Ok(found)
}

// A declaration, which is known from here on.
fn declaration<'t>(
    alloc: Global,
    env: &mut Environment<'t>,
    nameless: &'t Name,
    d: &'t Decl,
) -> Result<Found, NoMemory>
    requires { nameless.now ≡ record { text = []; place = 0; bound = Free } }
    ensures env { OnOk result (env.new ≡ declare_behind env.old (declaration_of d.now)) }
    ensures found { IfOk result (λ found. found ≡ seen env.old (declaration_found env.old (declaration_of d.now))) }
{
    match d {
        Decl::Class(c) => class(alloc, env, nameless, c),
        Decl::Global(name, _) => global(alloc, env, name),
        Decl::Func(f) => function(alloc, env, f),
    }
}

/// Declarations in order, which are known from here on.
pub fn declarations<'t>(
    alloc: Global,
    env: &mut Environment<'t>,
    nameless: &'t Name,
    decls: &'t [Decl],
) -> Result<Found, NoMemory>
    requires { nameless.now ≡ record { text = []; place = 0; bound = Free } }
    ensures env { OnOk result (env.new.definitions ≡ env.old.definitions) }
    ensures found { IfOk result (λ found. found ≡ seen env.old (declarations_found env.old (map declaration_of decls.now))) }
{
    let mut found = Found::nothing();
    for d in decls {
        let next = declaration(alloc, env, nameless, d)?;
        found = found.and(next);
    }
    Ok(found)
}
