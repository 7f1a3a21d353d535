// References and const, and arguments.
ghost use Rattle.std.specs.Prelude.{◌≡◌, List, Option, option_map};
ghost use Rattle.cxx_ast.specs.Environment.{Environment as Known};
ghost use Rattle.cxx_ast.specs.Reference.{Judgement, binds, binding_found, would_convert, no_lvalue_found, int_wanted, int_found, all_found, arguments_found};
ghost use Rattle.cxx_ast.specs.Calls.{ints_found};
ghost use Rattle.cxx_rules.specs.Given.{bound_by, argument_seen, arguments_behind, int_seen, ints_behind, all_behind};
ghost use Rattle.cxx_rules.specs.KindOf.{kind_of};
ghost use Rattle.cxx_rules.specs.Seen.{judgement_seen, judgements_seen};
ghost use Rattle.cxx_rules.specs.Summary.{nothing_found, seen};

use crate::entry::Passing;
use crate::environment::Environment;
use crate::found::Found;
use crate::judgement::{Judged, Target};
use crate::kind::Kind;
use crate::member::derives;
use crate::rule::Rule;

// A reference to the first type binds to the second.
fn binds(env: &Environment<'_>, wanted: Kind, kind: Kind) -> bool
    ensures { result ≡ binds env.now (kind_of wanted) (kind_of kind) }
{
    match (wanted, kind) {
        (Kind::Int, Kind::Int) => true,
        (Kind::Class(from), Kind::Class(class)) => derives(env, class, from),
        _ => false,
    }
}

/// What is broken where a reference binds to an lvalue of a type at a place.
#[tactic(auto, using(crate::proofs::FoundLaws::findings))]
pub fn binding_found(
    env: &Environment<'_>,
    wanted: Kind,
    is_const: bool,
    kind: Kind,
    through_const: bool,
    place: u32,
) -> Found
    ensures { result ≡ seen env.now (binding_found env.now (kind_of wanted) is_const (kind_of kind) through_const place) }
{
    match (wanted, kind) {
        (Kind::Nothing, _) | (_, Kind::Nothing) => Found::nothing(),
        _ => {
            let mismatch = Found::broken_if(!binds(env, wanted, kind), Rule::TypeMismatch, place);
            let write = Found::broken_if(through_const && !is_const, Rule::ConstWrite, place);
            mismatch.and(write)
        }
    }
}

// A value would convert to the type that a reference has.
fn would_convert(env: &Environment<'_>, wanted: Kind, kind: Kind) -> bool
    ensures { result ≡ would_convert env.now (kind_of wanted) (kind_of kind) }
{
    match (wanted, kind) {
        (Kind::Int, Kind::Truth) => true,
        _ => binds(env, wanted, kind),
    }
}

// What is broken where an argument is no lvalue.
#[tactic(auto, using(crate::proofs::FoundLaws::findings))]
fn no_lvalue_found(env: &Environment<'_>, wanted: Kind, kind: Kind, place: u32) -> Found
    ensures { result ≡ seen env.now (no_lvalue_found env.now (kind_of wanted) (kind_of kind) place) }
{
    match (wanted, kind) {
        (Kind::Nothing, _) | (_, Kind::Nothing) => Found::nothing(),
        _ => {
            let mismatch = Found::broken_if(
                !would_convert(env, wanted, kind),
                Rule::TypeMismatch,
                place,
            );
            Found::broken(Rule::NotLvalue, place).and(mismatch)
        }
    }
}

// What is broken where an expression of a type is bound to a parameter.
fn bound_by(
    env: &Environment<'_>,
    parameter: &Passing,
    kind: Kind,
    place: u32,
    target: Option<&Target<'_>>,
) -> Found
    ensures { result ≡ seen env.now (bound_by env.now parameter.now (kind_of kind) place (option_map (λ t. t.now) target.entry)) }
{
    match target {
        None => no_lvalue_found(env, parameter.kind(), kind, place),
        Some(t) => binding_found(
            env,
            parameter.kind(),
            parameter.is_const(),
            kind,
            t.is_const(),
            place,
        ),
    }
}

// An int is needed, to which a truth value converts.
#[tactic(auto, using(crate::proofs::FoundLaws::findings))]
fn int_wanted(env: &Environment<'_>, kind: Kind, place: u32) -> Found
    ensures { result ≡ seen env.now (int_wanted (kind_of kind) place) }
{
    match kind {
        Kind::Void | Kind::Class(_) => Found::broken(Rule::TypeMismatch, place),
        _ => Found::nothing(),
    }
}

// An argument.
fn argument(env: &Environment<'_>, parameter: &Passing, given: &Judged<'_>) -> Found
    ensures { result ≡ argument_seen env.now parameter.now given.now }
{
    let kind = given.kind();
    let place = given.place();
    let used = if parameter.is_reference() {
        bound_by(env, parameter, kind, place, given.target())
    } else {
        int_wanted(env, kind, place)
    };
    given.found().and(used)
}

// Arguments one by one.
#[tactic(auto, using(crate::proofs::GivenLaws::arguments_end))]
fn each_argument(env: &Environment<'_>, parameters: &[Passing], given: &[Judged<'_>]) -> Found
    ensures { result ≡ arguments_behind env.now nothing_found parameters.now given.now }
{
    let mut found = Found::nothing();
    let count = parameters.len().min(given.len());
    for i in 0..count {
        found = found.and(argument(env, &parameters[i], &given[i]));
    }
    found
}

/// Arguments, as many as there are parameters.
#[tactic(auto, using(crate::proofs::GivenLaws::arguments_by))]
pub fn arguments_found(env: &Environment<'_>, parameters: &[Passing], given: &[Judged<'_>]) -> Found
    ensures { (js : List Judgement) → given.now ≡ judgements_seen env.now js → result ≡ seen env.now (arguments_found env.now parameters.now js) }
{
    each_argument(env, parameters, given)
}

/// An expression where an int is needed.
#[tactic(auto, using(crate::proofs::GivenLaws::int_by))]
pub fn int_found(env: &Environment<'_>, given: &Judged<'_>) -> Found
    ensures seen { result ≡ int_seen env.now given.now }
    ensures found { (j : Judgement) → given.now ≡ judgement_seen env.now j → result ≡ seen env.now (int_found j) }
{
    given
        .found()
        .and(int_wanted(env, given.kind(), given.place()))
}

// Ints one by one.
fn each_int(env: &Environment<'_>, given: &[Judged<'_>]) -> Found
    ensures { result ≡ ints_behind env.now nothing_found given.now }
{
    let mut found = Found::nothing();
    for one in given {
        found = found.and(int_found(env, one));
    }
    found
}

/// Each expression is an int.
#[tactic(auto, using(crate::proofs::GivenLaws::ints_by))]
pub fn ints_found(env: &Environment<'_>, given: &[Judged<'_>]) -> Found
    ensures { (js : List Judgement) → given.now ≡ judgements_seen env.now js → result ≡ seen env.now (ints_found js) }
{
    each_int(env, given)
}

// What is broken in expressions, one by one.
fn each_found(given: &[Judged<'_>]) -> Found
    ensures { result ≡ all_behind nothing_found given.now }
{
    let mut found = Found::nothing();
    for one in given {
        found = found.and(one.found());
    }
    found
}

/// What is broken in expressions alone.
#[tactic(auto, using(crate::proofs::GivenLaws::all_by))]
pub fn all_found(given: &[Judged<'_>]) -> Found
    ensures { (env : Known) (js : List Judgement) → given.now ≡ judgements_seen env js → result ≡ seen env (all_found js) }
{
    each_found(given)
}
