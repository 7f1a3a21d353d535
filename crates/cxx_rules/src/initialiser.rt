// The initialisers of a constructor, and the parts that it leaves to their default constructors.
ghost use Rattle.std.specs.Prelude.{◌≡◌, ◌∷◌, List, IfOk};
ghost use Rattle.cxx_ast.specs.Environment.{Scope as Place};
ghost use Rattle.cxx_ast.specs.ExpressionRules.{all_judged};
ghost use Rattle.cxx_ast.specs.Finding.{breaks};
ghost use Rattle.cxx_ast.specs.Plain.{Expressions};
ghost use Rattle.cxx_ast.specs.Rule.{arity, initialiser_list};
ghost use Rattle.cxx_ast.specs.FunctionRules.{has_text, part_kind, is_called, base_part, named_part, int_part_found, part_found, initialiser_found, class_text, left_part, left_base};
ghost use Rattle.cxx_ast.specs.Reference.{Judgement, all_found};
ghost use Rattle.cxx_ast.specs.View.{expressions_of, initialiser_of};
ghost use Rattle.cxx_rules.specs.KindOf.{kind_of, kind_in};
ghost use Rattle.cxx_rules.specs.Parts.{texts_now, left_behind};
ghost use Rattle.cxx_rules.specs.Seen.{judgements_seen};
ghost use Rattle.cxx_rules.specs.Summary.{nothing_found, seen};

use crate::NoMemory;
use crate::class::ClassEntry;
use crate::construct::{construction_found, has_default};
use crate::entry::Field;
use crate::environment::Environment;
use crate::expression::all_judged;
use crate::found::Found;
use crate::judgement::Judged;
use crate::kind::Kind;
use crate::reference::{all_found, int_found};
use crate::rule::Rule;
use crate::scope::Scope;
use cxx_ast::declaration::Init;
use cxx_ast::name::Name;
use std::alloc::Global;

// A list of texts has one.
fn has_text(text: &[u8], texts: &[&[u8]]) -> bool
    ensures { result ≡ has_text text.now (texts_now texts.now) }
{
    for t in texts {
        if *t == text {
            return true;
        }
    }
    false
}

// The type of the data member with a name.
fn part_kind(text: &[u8], fields: &[Field<'_>]) -> Option<Kind>
    ensures { kind_in result ≡ part_kind text.now fields.now }
{
    for f in fields {
        if f.name().text.as_bytes() == text {
            return Some(f.kind());
        }
    }
    None
}

// A class has a name.
fn is_called(env: &Environment<'_>, text: &[u8], class: usize) -> bool
    ensures { result ≡ is_called env.now text.now class }
{
    match env.class(class) {
        None => false,
        Some(c) => c.name() == text,
    }
}

// The base, where it has the name.
fn base_part(env: &Environment<'_>, text: &[u8], base: Option<usize>) -> Option<Kind>
    ensures { kind_in result ≡ base_part env.now text.now base }
{
    match base {
        None => None,
        Some(b) => {
            if is_called(env, text, b) {
                Some(Kind::Class(b))
            } else {
                None
            }
        }
    }
}

// The type of the own member or of the direct base with a name.
fn named_part(env: &Environment<'_>, class: &ClassEntry<'_>, text: &[u8]) -> Option<Kind>
    ensures { kind_in result ≡ named_part env.now class.now text.now }
{
    match part_kind(text, class.fields()) {
        Some(kind) => Some(kind),
        None => base_part(env, text, class.base()),
    }
}

// What is broken where an int has not one initialiser.
#[tactic(auto, using(crate::proofs::ConstructLaws::broken_then))]
fn wrong_count(env: &Environment<'_>, place: u32, given: &[Judged<'_>]) -> Found
    ensures { (js : List Judgement) → given.now ≡ judgements_seen env.now js → result ≡ seen env.now (breaks arity place ∷ all_found js) }
{
    Found::broken(Rule::Arity, place).and(all_found(given))
}

// An int has one initialiser.
fn int_part_found(env: &Environment<'_>, place: u32, given: &[Judged<'_>]) -> Found
    ensures { (js : List Judgement) → given.now ≡ judgements_seen env.now js → result ≡ seen env.now (int_part_found place js) }
{
    match given {
        [one] => int_found(env, one),
        _ => wrong_count(env, place, given),
    }
}

// The arguments of a part.
fn part_found(env: &Environment<'_>, place: u32, given: &[Judged<'_>], kind: Kind) -> Found
    ensures { (js : List Judgement) → given.now ≡ judgements_seen env.now js → result ≡ seen env.now (part_found env.now place js (kind_of kind)) }
{
    match kind {
        Kind::Int => int_part_found(env, place, given),
        Kind::Class(class) => construction_found(env, class, given, place, place),
        _ => all_found(given),
    }
}

// An initialiser that names no part.
#[tactic(auto, using(crate::proofs::ConstructLaws::broken_then))]
fn no_part(env: &Environment<'_>, place: u32, given: &[Judged<'_>]) -> Found
    ensures { (js : List Judgement) → given.now ≡ judgements_seen env.now js → result ≡ seen env.now (breaks initialiser_list place ∷ all_found js) }
{
    Found::broken(Rule::InitialiserList, place).and(all_found(given))
}

// An initialiser of a part, behind those of some names.
#[tactic(auto, using(crate::proofs::FoundLaws::findings))]
fn initialised(
    env: &Environment<'_>,
    class: &ClassEntry<'_>,
    before: &[&[u8]],
    name: &Name,
    given: &[Judged<'_>],
) -> Found
    ensures { (scope : Place) (es : Expressions) → given.now ≡ judgements_seen env.now (all_judged env.now scope es) → result ≡ seen env.now (initialiser_found env.now scope class.now (texts_now before.now) (record { name = name.now; arguments = es })) }
{
    let text = name.text.as_bytes();
    match named_part(env, class, text) {
        None => no_part(env, name.place, given),
        Some(kind) => {
            let twice = Found::broken_if(has_text(text, before), Rule::InitialiserList, name.place);
            twice.and(part_found(env, name.place, given, kind))
        }
    }
}

/// An initialiser behind those of some names.
pub fn initialiser_found<'t>(
    alloc: Global,
    env: &Environment<'t>,
    scope: &Scope<'t>,
    class: &ClassEntry<'t>,
    before: &[&[u8]],
    i: &'t Init,
) -> Result<Found, NoMemory>
    ensures { IfOk result (λ f. f ≡ seen env.now (initialiser_found env.now scope.now class.now (texts_now before.now) (initialiser_of i.now))) }
{
    let given = all_judged(alloc, env, scope, i.args.as_slice())?;
    Ok(initialised(env, class, before, &i.name, given.as_slice()))
}

// A part of class type that is not initialised and needs arguments.
#[tactic(auto, using(crate::proofs::FoundLaws::findings))]
fn left_part(env: &Environment<'_>, place: u32, is_initialised: bool, kind: Kind) -> Found
    ensures { result ≡ seen env.now (left_part env.now place is_initialised (kind_of kind)) }
{
    match kind {
        Kind::Class(class) => Found::broken_if(
            !is_initialised && !has_default(env, class),
            Rule::NoDefault,
            place,
        ),
        _ => Found::nothing(),
    }
}

/// The data members that a constructor does not initialise.
pub fn left_fields(
    env: &Environment<'_>,
    place: u32,
    names: &[&[u8]],
    fields: &[Field<'_>],
) -> Found
    ensures { result ≡ left_behind env.now place (texts_now names.now) nothing_found fields.now }
{
    let mut found = Found::nothing();
    for f in fields {
        let is_initialised = has_text(f.name().text.as_bytes(), names);
        found = found.and(left_part(env, place, is_initialised, f.kind()));
    }
    found
}

// The base that a constructor does not initialise, by its name.
fn base_initialised(env: &Environment<'_>, names: &[&[u8]], base: usize) -> bool
    ensures { result ≡ has_text (class_text env.now base) (texts_now names.now) }
{
    match env.class(base) {
        None => has_text(b"".as_slice(), names),
        Some(c) => has_text(c.name(), names),
    }
}

/// The base that a constructor does not initialise.
#[tactic(auto, using(crate::proofs::FoundLaws::findings))]
pub fn left_base(env: &Environment<'_>, place: u32, names: &[&[u8]], base: Option<usize>) -> Found
    ensures { result ≡ seen env.now (left_base env.now place (texts_now names.now) base) }
{
    match base {
        None => Found::nothing(),
        Some(b) => left_part(env, place, base_initialised(env, names, b), Kind::Class(b)),
    }
}
