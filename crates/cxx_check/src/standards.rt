// What a program breaks by the choice of the standard.
ghost use Rattle.std.specs.Prelude.{◌≡◌, IfOk, flat_map, map};
ghost use Rattle.cxx_ast.specs.FunctionRules.{has_text};
ghost use Rattle.cxx_ast.specs.Standards.{new_keywords, keyword_found, noexcept_found, noexcepts_found, standard_found};
ghost use Rattle.cxx_ast.specs.View.{function_of, declaration_of, option_of, specification_of};
ghost use Rattle.cxx_check.specs.OwnParts.{names_now};
ghost use Rattle.cxx_rules.specs.Summary.{seen};

use crate::NoMemory;
use crate::declared_names::names_declared;
use cxx_ast::declaration::{Decl, Func, Spec};
use cxx_ast::name::Name;
use cxx_ast::standard::Std;
use cxx_rules::{Environment, Found, Rule};
use std::alloc::Global;

// A text is a keyword that the later standard adds.
fn is_new_keyword(text: &[u8]) -> bool
    ensures { result ≡ has_text text.now new_keywords }
{
    b"alignas".as_slice() == text
        || b"alignof".as_slice() == text
        || b"char16_t".as_slice() == text
        || b"char32_t".as_slice() == text
        || b"constexpr".as_slice() == text
        || b"decltype".as_slice() == text
        || b"noexcept".as_slice() == text
        || b"nullptr".as_slice() == text
        || b"static_assert".as_slice() == text
        || b"thread_local".as_slice() == text
}

// A declared name.
#[tactic(auto, using(cxx_rules::proofs::FoundLaws::findings))]
fn keyword_found(_env: &Environment<'_>, name: &Name) -> Found
    ensures { result ≡ seen _env.now (keyword_found name.now) }
{
    let is_keyword = is_new_keyword(name.text.as_bytes());
    Found::broken_if(is_keyword, Rule::NewKeyword, name.place)
}

// Declared names.
fn keywords_found(env: &Environment<'_>, names: &[&Name]) -> Found
    ensures { result ≡ seen env.now (flat_map keyword_found (names_now names.now)) }
{
    let mut found = Found::nothing();
    for name in names {
        found = found.and(keyword_found(env, name));
    }
    found
}

// A specification.
#[tactic(auto, using(cxx_rules::proofs::FoundLaws::findings))]
fn noexcept_found(_env: &Environment<'_>, spec: &Option<Spec>) -> Found
    ensures { result ≡ seen _env.now (noexcept_found (option_of specification_of spec.now)) }
{
    match spec {
        None | Some(Spec::Throw(_)) => Found::nothing(),
        Some(Spec::Noexcept(place, _)) => Found::broken(Rule::NoexceptIn03, *place),
    }
}

// The specifications of a class's functions.
fn methods_found(env: &Environment<'_>, funcs: &[Func]) -> Found
    ensures { result ≡ seen env.now (flat_map (λ f. noexcept_found f.specification) (map function_of funcs.now)) }
{
    let mut found = Found::nothing();
    for f in funcs {
        found = found.and(noexcept_found(env, &f.spec));
    }
    found
}

// The specifications of a declaration.
#[tactic(auto, using(cxx_rules::proofs::FoundLaws::findings))]
fn declaration_found(env: &Environment<'_>, d: &Decl) -> Found
    ensures { result ≡ seen env.now (noexcepts_found (declaration_of d.now)) }
{
    match d {
        Decl::Class(c) => methods_found(env, c.funcs.as_slice()),
        Decl::Global(_, _) => Found::nothing(),
        Decl::Func(f) => noexcept_found(env, &f.spec),
    }
}

// The specifications of declarations.
fn noexcepts_found(env: &Environment<'_>, decls: &[Decl]) -> Found
    ensures { result ≡ seen env.now (flat_map noexcepts_found (map declaration_of decls.now)) }
{
    let mut found = Found::nothing();
    for d in decls {
        found = found.and(declaration_found(env, d));
    }
    found
}

/// What a program breaks by a standard alone: under the later one a declared name that is a keyword of it, and under the earlier
/// one a specification that it does not have.
pub fn standard_found(
    alloc: Global,
    env: &Environment<'_>,
    standard: Std,
    decls: &[Decl],
) -> Result<Found, NoMemory>
    ensures { IfOk result (λ found. found ≡ seen env.now (standard_found standard (map declaration_of decls.now))) }
{
    match standard {
        Std::Cxx03 => Ok(noexcepts_found(env, decls)),
        Std::Cxx11 => {
            let names = names_declared(alloc, decls)?;
            Ok(keywords_found(env, names.as_slice()))
        }
    }
}
