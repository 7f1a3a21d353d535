// Calls.
ghost use Rattle.std.specs.Prelude.{◌≡◌, Bool, List, [], ◌∷◌};
ghost use Rattle.cxx_ast.specs.Environment.{Scope as Place, a_function};
ghost use Rattle.cxx_ast.specs.Calls.{broken_call, if_sound, call_valued, ints_valued, builtin_ints, builtin_kind, builtin_valued, construction_valued, meant_valued};
ghost use Rattle.cxx_rules.specs.CallParts.{IsNoFunction, named_valued};
ghost use Rattle.cxx_rules.specs.MeaningOf.{meaning_of};
ghost use Rattle.cxx_ast.specs.Finding.{Finding, breaks};
ghost use Rattle.cxx_ast.specs.Reference.{Judgement};
ghost use Rattle.cxx_rules.specs.KindOf.{kind_of};
ghost use Rattle.cxx_rules.specs.Numbered.{number_of};
ghost use Rattle.cxx_rules.specs.Seen.{judgements_seen, value_seen};
ghost use Rattle.cxx_rules.specs.Summary.{seen};

use crate::construct::construction_found;
use crate::entry::Signature;
use crate::environment::Environment;
use crate::found::Found;
use crate::handler::{handler_found, is_main, used};
use crate::judgement::{Judged, Valued};
use crate::kind::Kind;
use crate::lookup::Meaning;
use crate::reference::{all_found, arguments_found, ints_found};
use crate::rule::Rule;
use crate::scope::Scope;
use cxx_ast::name::{Builtin, Name};

// A call behind what was found of its names.
#[tactic(auto, using(crate::proofs::FoundLaws::findings))]
pub fn broken_behind(_env: &Environment<'_>, found: Found, given: &[Judged<'_>]) -> Valued
    ensures { (fs : List Finding) (js : List Judgement) → found ≡ seen _env.now fs → given.now ≡ judgements_seen _env.now js → result ≡ value_seen _env.now (broken_call fs js) }
{
    Valued::new(Kind::Nothing, found.and(all_found(given)))
}

/// A call that breaks a rule itself.
#[tactic(auto, using(crate::proofs::FoundLaws::findings))]
pub fn broken_call(env: &Environment<'_>, rule: Rule, place: u32, given: &[Judged<'_>]) -> Valued
    ensures { (js : List Judgement) → given.now ≡ judgements_seen env.now js → result ≡ value_seen env.now (broken_call (breaks (number_of rule) place ∷ []) js) }
{
    broken_behind(env, Found::broken(rule, place), given)
}

// A type, where no rule is broken.
#[tactic(auto, using(crate::proofs::FoundLaws::sound_of_summary))]
fn if_sound(_env: &Environment<'_>, kind: Kind, found: Found) -> Valued
    ensures { (fs : List Finding) → found ≡ seen _env.now fs → result ≡ value_seen _env.now (if_sound (kind_of kind) fs) }
{
    let kind = if found.is_sound { kind } else { Kind::Nothing };
    Valued::new(kind, found)
}

/// The call of a function.
pub fn call_valued(
    env: &Environment<'_>,
    signature: &Signature<'_>,
    place: u32,
    given: &[Judged<'_>],
) -> Valued
    ensures { (js : List Judgement) → given.now ≡ judgements_seen env.now js → result ≡ value_seen env.now (call_valued env.now signature.now place js) }
{
    if given.len() == signature.parameters().len() {
        let found = arguments_found(env, signature.parameters(), given);
        if_sound(env, signature.result(), found)
    } else {
        broken_call(env, Rule::Arity, place, given)
    }
}

// How many ints a built-in function takes.
fn builtin_ints(builtin: Builtin) -> usize
    ensures { result ≡ builtin_ints builtin }
{
    match builtin {
        Builtin::WriteInt | Builtin::Exit | Builtin::Cancel => 1,
        Builtin::Module => 2,
        _ => 0,
    }
}

// What a built-in function gives.
fn builtin_kind(builtin: Builtin) -> Kind
    ensures { kind_of result ≡ builtin_kind builtin }
{
    match builtin {
        Builtin::ReadByte | Builtin::Module => Kind::Int,
        Builtin::Uncaught => Kind::Truth,
        _ => Kind::Void,
    }
}

// A built-in function that takes ints.
fn ints_valued(env: &Environment<'_>, builtin: Builtin, place: u32, given: &[Judged<'_>]) -> Valued
    ensures { (js : List Judgement) → given.now ≡ judgements_seen env.now js → result ≡ value_seen env.now (ints_valued builtin place js) }
{
    if given.len() == builtin_ints(builtin) {
        if_sound(env, builtin_kind(builtin), ints_found(env, given))
    } else {
        broken_call(env, Rule::Arity, place, given)
    }
}

/// The call of a built-in function.
pub fn builtin_valued<'t>(
    env: &Environment<'t>,
    scope: &Scope<'t>,
    builtin: Builtin,
    place: u32,
    given: &[Judged<'_>],
) -> Valued
    ensures { (js : List Judgement) → given.now ≡ judgements_seen env.now js → result ≡ value_seen env.now (builtin_valued env.now scope.now builtin place js) }
{
    match builtin {
        Builtin::SetTerminate => if_sound(env, Kind::Void, handler_found(env, scope, place, given)),
        Builtin::SetUnexpected => {
            if_sound(env, Kind::Void, handler_found(env, scope, place, given))
        }
        other => ints_valued(env, other, place, given),
    }
}

/// A construction, which may stand only as the whole operand of throw.
pub fn construction_valued(
    env: &Environment<'_>,
    thrown: bool,
    class: usize,
    first: u32,
    place: u32,
    given: &[Judged<'_>],
) -> Valued
    ensures { (js : List Judgement) → given.now ≡ judgements_seen env.now js → result ≡ value_seen env.now (construction_valued env.now thrown class first place js) }
{
    if thrown {
        let found = construction_found(env, class, given, place, place);
        if_sound(env, Kind::Class(class), found)
    } else {
        broken_call(env, Rule::TypeMismatch, first, given)
    }
}

// The call of what a name means where it is no function of the program.
fn other_valued<'t>(
    env: &Environment<'t>,
    scope: &Scope<'t>,
    thrown: bool,
    name: &Name,
    given: &[Judged<'_>],
    meaning: &Meaning<'_, '_>,
) -> Valued
    requires { IsNoFunction (meaning_of meaning.now) }
    ensures { (js : List Judgement) → given.now ≡ judgements_seen env.now js → result ≡ value_seen env.now (meant_valued env.now scope.now thrown name.now js (meaning_of meaning.now)) }
{
    let place = name.place;
    match meaning {
        Meaning::Unknown => broken_call(env, Rule::UnknownName, place, given),
        Meaning::Method(_, _, signature) => call_valued(env, signature, place, given),
        Meaning::Class(class) => construction_valued(env, thrown, *class, place, place, given),
        Meaning::Builtin(builtin) => builtin_valued(env, scope, *builtin, place, given),
        _ => broken_call(env, Rule::TypeMismatch, place, given),
    }
}

// The call of a function of the program, or of `main`, which no one may call.
fn named_valued(
    env: &Environment<'_>,
    signature: &Signature<'_>,
    name: &Name,
    given: &[Judged<'_>],
) -> Valued
    ensures { (js : List Judgement) → given.now ≡ judgements_seen env.now js → result ≡ value_seen env.now (named_valued env.now signature.now name.now js) }
{
    if is_main(name) {
        broken_call(env, Rule::MainUse, name.place, given)
    } else {
        call_valued(env, signature, name.place, given)
    }
}

// The call of a function of the program, which is used by it.
#[tactic(auto, using(crate::proofs::FoundLaws::findings))]
fn function_valued(
    env: &Environment<'_>,
    signature: &Signature<'_>,
    name: &Name,
    given: &[Judged<'_>],
) -> Valued
    ensures { (js : List Judgement) (scope : Place) (thrown : Bool) → given.now ≡ judgements_seen env.now js → result ≡ value_seen env.now (meant_valued env.now scope thrown name.now js (a_function signature.now)) }
{
    let value = named_valued(env, signature, name, given);
    Valued::new(value.kind(), used(env, signature.name()).and(value.found()))
}

/// The call of what a name means.
pub fn meant_valued<'t>(
    env: &Environment<'t>,
    scope: &Scope<'t>,
    thrown: bool,
    name: &Name,
    given: &[Judged<'_>],
    meaning: &Meaning<'_, '_>,
) -> Valued
    ensures { (js : List Judgement) → given.now ≡ judgements_seen env.now js → result ≡ value_seen env.now (meant_valued env.now scope.now thrown name.now js (meaning_of meaning.now)) }
{
    match meaning {
        Meaning::Function(signature) => function_valued(env, signature, name, given),
        _ => other_valued(env, scope, thrown, name, given, meaning),
    }
}
