// Names that are declared once only, anywhere.
ghost use Rattle.std.specs.Prelude.{◌≡◌, ◌∷◌, IfOk, map, flat_map, codes};
ghost use Rattle.cxx_ast.specs.DeclaredNames.{names_declared, class_names, is_builtin, once_found, once_only_found};
ghost use Rattle.cxx_ast.specs.Lookup.{builtin_named};
ghost use Rattle.cxx_ast.specs.View.{declaration_of};
ghost use Rattle.cxx_check.specs.Once.{is_once_more, once_in};
ghost use Rattle.cxx_check.specs.OwnParts.{names_now};
ghost use Rattle.cxx_check.specs.PlacesOf.{Hold};
ghost use Rattle.cxx_rules.specs.Summary.{seen};

use crate::NoMemory;
use crate::declared_names::names_declared;
use crate::own::places_of;
use crate::places::Places;
use cxx_ast::declaration::Decl;
use cxx_ast::name::Name;
use cxx_rules::{Environment, Found, Meaning, Rule, Texts, builtin_named};
use std::alloc::Global;

// The names of the classes, behind `main`.
fn special_names(alloc: Global, decls: &[Decl]) -> Result<Texts, NoMemory>
    ensures { IfOk result (λ texts. texts ≡ codes "main" ∷ class_names (map declaration_of decls.now)) }
{
    let mut texts = Texts::new(alloc);
    texts.add(alloc, b"main".as_slice())?;
    for d in decls {
        if let Decl::Class(c) = d {
            texts.add(alloc, c.name.text.as_bytes())?;
        }
    }
    Ok(texts)
}

// A built-in function has a name.
fn is_builtin(text: &[u8]) -> bool
    ensures { result ≡ is_builtin (builtin_named text.now) }
{
    match builtin_named(text) {
        Meaning::Unknown => false,
        _ => true,
    }
}

// A name is a built-in function's, or the second of a name that stands once only.
fn is_once_more(special: &Texts, places: &Places, all: &[&Name], name: &Name) -> bool
    requires { Hold places.now (names_now all.now) }
    ensures { result ≡ is_once_more special.now (names_now all.now) name.now }
{
    let text = name.text.as_bytes();
    if is_builtin(text) {
        return true;
    }
    special.contains(text) && places.has_before(name)
}

// A name that is declared once more.
#[tactic(auto, using(cxx_rules::proofs::FoundLaws::findings))]
fn once_in(
    _env: &Environment<'_>,
    special: &Texts,
    places: &Places,
    all: &[&Name],
    name: &Name,
) -> Found
    requires { Hold places.now (names_now all.now) }
    ensures { result ≡ seen _env.now (once_in special.now (names_now all.now) name.now) }
{
    let is_more = is_once_more(special, places, all, name);
    Found::broken_if(is_more, Rule::Redeclared, name.place)
}

// Names that are declared once more.
fn once_found(env: &Environment<'_>, special: &Texts, places: &Places, all: &[&Name]) -> Found
    requires { Hold places.now (names_now all.now) }
    ensures { result ≡ seen env.now (once_found special.now (names_now all.now) (names_now all.now)) }
{
    let mut found = Found::nothing();
    for name in all {
        found = found.and(once_in(env, special, places, all, name));
    }
    found
}

// The names of a program that are declared once more, by those that are declared once only.
fn names_found(
    alloc: Global,
    env: &Environment<'_>,
    special: &Texts,
    decls: &[Decl],
) -> Result<Found, NoMemory>
    ensures { IfOk result (λ found. found ≡ seen env.now (once_found special.now (flat_map names_declared (map declaration_of decls.now)) (flat_map names_declared (map declaration_of decls.now)))) }
{
    let names = names_declared(alloc, decls)?;
    let places = places_of(alloc, names.as_slice())?;
    Ok(once_found(env, special, &places, names.as_slice()))
}

/// The names that a program declares more than once though they are declared once only.
pub fn once_only_found(
    alloc: Global,
    env: &Environment<'_>,
    decls: &[Decl],
) -> Result<Found, NoMemory>
    ensures { IfOk result (λ found. found ≡ seen env.now (once_only_found (map declaration_of decls.now))) }
{
    let special = special_names(alloc, decls)?;
    names_found(alloc, env, &special, decls)
}
