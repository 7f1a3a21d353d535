// Which constructor builds an object.
ghost use Rattle.std.specs.Prelude.{◌≡◌, List, [], ◌∷◌, ◌++◌, option_map, find, Some, None};
ghost use Rattle.cxx_ast.specs.Environment.{Environment as Known, class_kind};
ghost use Rattle.cxx_ast.specs.Finding.{breaks};
ghost use Rattle.cxx_ast.specs.Rule.{not_lvalue};
ghost use Rattle.cxx_ast.specs.Construct.{are_copy_parameters, is_constructor_kind, is_constructor, is_constructor_with, declares_constructor, constructor_parameters, has_default, by_number_found, single_found, construction_found};
ghost use Rattle.cxx_ast.specs.Reference.{Judgement};
ghost use Rattle.cxx_rules.specs.Seen.{judgement_seen, judgements_seen};
ghost use Rattle.cxx_rules.specs.Summary.{seen};

use crate::entry::{Passing, Signature};
use crate::environment::Environment;
use crate::found::Found;
use crate::judgement::Judged;
use crate::kind::Kind;
use crate::member::derives;
use crate::reference::{all_found, arguments_found};
use crate::rule::Rule;
use cxx_ast::declaration::FuncKind;

/// The parameters of a copy constructor of a class: one, a reference to a const object of the class.
pub fn are_copy_parameters(class: usize, parameters: &[Passing]) -> bool
    ensures { result ≡ are_copy_parameters class parameters.now }
{
    match parameters {
        [p] => p.is_reference() && p.is_const() && p.kind().is(Kind::Class(class)),
        _ => false,
    }
}

// A constructor, as its kind says.
fn is_constructor_kind(form: FuncKind) -> bool
    ensures { result ≡ is_constructor_kind form }
{
    matches!(form, FuncKind::Constructor)
}

// A constructor of a class, which has the class's name.
fn is_constructor(text: &[u8], signature: &Signature<'_>) -> bool
    ensures { result ≡ is_constructor text.now signature.now }
{
    is_constructor_kind(signature.form()) && signature.name().text.as_bytes() == text
}

// A constructor of a class with so many parameters, and not the copy constructor.
fn is_constructor_with(class: usize, text: &[u8], count: usize, signature: &Signature<'_>) -> bool
    ensures { result ≡ is_constructor_with class text.now count signature.now }
{
    is_constructor(text, signature)
        && signature.parameters().len() == count
        && !are_copy_parameters(class, signature.parameters())
}

/// A class declares a constructor.
pub fn declares_constructor(text: &[u8], functions: &[Signature<'_>]) -> bool
    ensures { result ≡ declares_constructor text.now functions.now }
{
    for f in functions {
        if is_constructor(text, f) {
            return true;
        }
    }
    false
}

/// The constructor of a class with so many parameters that is not the copy constructor.
pub fn constructor_with<'a, 't>(
    class: usize,
    text: &[u8],
    count: usize,
    functions: &'a [Signature<'t>],
) -> Option<&'a Signature<'t>>
    ensures { option_map (λ s. s.now) result ≡ find (is_constructor_with class text.now count) functions.now }
{
    functions
        .iter()
        .find(|s| is_constructor_with(class, text, count, s))
}

// The constructor that so many arguments select.
fn constructor_parameters<'e>(
    env: &'e Environment<'_>,
    class: usize,
    count: usize,
) -> Option<&'e [Passing]>
    ensures { option_map (λ p. p.now) result ≡ constructor_parameters env.now class count }
{
    match env.class(class) {
        None => None,
        Some(c) => match constructor_with(class, c.name(), count, c.functions()) {
            None => None,
            Some(s) => Some(s.parameters()),
        },
    }
}

/// An object of a class needs no arguments.
pub fn has_default(env: &Environment<'_>, class: usize) -> bool
    ensures { result ≡ has_default env.now class }
{
    match env.class(class) {
        None => true,
        Some(c) => c.has_default(),
    }
}

// The constructor with the number of arguments.
#[tactic(auto, using(crate::proofs::FoundLaws::findings))]
fn by_number_found(env: &Environment<'_>, class: usize, given: &[Judged<'_>], called: u32) -> Found
    ensures { (js : List Judgement) → given.now ≡ judgements_seen env.now js → result ≡ seen env.now (by_number_found env.now class js called) }
{
    match constructor_parameters(env, class, given.len()) {
        None => Found::broken(Rule::Arity, called).and(all_found(given)),
        Some(parameters) => arguments_found(env, parameters, given),
    }
}

// What is broken where a single argument is an object.
#[tactic(auto, using(crate::proofs::FoundLaws::findings))]
fn copied_found(given: &Judged<'_>) -> Found
    ensures { (env : Known) (j : Judgement) → given.now ≡ judgement_seen env j → result ≡ seen env (j.found ++ elim j.target [ Some t ↦ [] | None ↦ breaks not_lvalue j.place ∷ [] ]) }
{
    match given.target() {
        Some(_) => given.found(),
        None => given
            .found()
            .and(Found::broken(Rule::NotLvalue, given.place())),
    }
}

// A single argument that is an object, also given as a list.
fn object_found(
    env: &Environment<'_>,
    class: usize,
    from: usize,
    one: &Judged<'_>,
    given: &[Judged<'_>],
    called: u32,
) -> Found
    ensures { (j : Judgement) → one.now ≡ judgement_seen env.now j → given.now ≡ judgements_seen env.now (j ∷ []) → result ≡ seen env.now (single_found env.now class j called (class_kind from)) }
{
    if derives(env, from, class) {
        copied_found(one)
    } else {
        by_number_found(env, class, given, called)
    }
}

// A single argument, also given as a list.
fn single_found(
    env: &Environment<'_>,
    class: usize,
    one: &Judged<'_>,
    given: &[Judged<'_>],
    called: u32,
) -> Found
    ensures { (j : Judgement) → one.now ≡ judgement_seen env.now j → given.now ≡ judgements_seen env.now (j ∷ []) → result ≡ seen env.now (single_found env.now class j called j.kind) }
{
    match one.kind() {
        Kind::Nothing => one.found(),
        Kind::Class(from) => object_found(env, class, from, one, given, called),
        Kind::Int | Kind::Truth | Kind::Void => by_number_found(env, class, given, called),
    }
}

/// An object of a class is built of arguments: `Arity` stands at the first place, `NoDefault` at the second.
#[tactic(auto, using(crate::proofs::FoundLaws::findings))]
pub fn construction_found(
    env: &Environment<'_>,
    class: usize,
    given: &[Judged<'_>],
    called: u32,
    needs: u32,
) -> Found
    ensures { (js : List Judgement) → given.now ≡ judgements_seen env.now js → result ≡ seen env.now (construction_found env.now class js called needs) }
{
    match given {
        [] => Found::broken_if(!has_default(env, class), Rule::NoDefault, needs),
        [one] => single_found(env, class, one, given, called),
        _ => by_number_found(env, class, given, called),
    }
}
