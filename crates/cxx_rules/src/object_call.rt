// Calls by their names, on an object or on none.
ghost use Rattle.std.specs.Prelude.{◌≡◌, ℕ, List, ◌∷◌};
ghost use Rattle.cxx_ast.specs.declared.name.Name.{Name};
ghost use Rattle.cxx_ast.specs.Calls.{member_valued, on_object_valued, names_valued, std_builtin, std_valued, receiver, last_name};
ghost use Rattle.cxx_ast.specs.Environment.{a_method};
ghost use Rattle.cxx_ast.specs.Lvalue.{last_place, Reached as Path};
ghost use Rattle.cxx_ast.specs.Reference.{Judgement};
ghost use Rattle.cxx_rules.specs.MeaningOf.{meaning_of};
ghost use Rattle.cxx_rules.specs.Seen.{judgements_seen, reached_seen, value_seen};

use crate::call::{
    broken_behind, broken_call, builtin_valued, call_valued, construction_valued, meant_valued,
};
use crate::entry::Signature;
use crate::environment::Environment;
use crate::found::Found;
use crate::judgement::{Judged, Reached, Valued};
use crate::kind::Kind;
use crate::lookup::Meaning;
use crate::lvalue::{first_place, reached};
use crate::meaning::{look, member_meaning};
use crate::rule::Rule;
use crate::scope::Scope;
use cxx_ast::name::{Builtin, Name};

// The call of a member function, on an object that is const or not.
#[tactic(auto, using(crate::proofs::FoundLaws::findings))]
fn method_valued(
    env: &Environment<'_>,
    through_const: bool,
    first: u32,
    name: &Name,
    given: &[Judged<'_>],
    signature: &Signature<'_>,
) -> Valued
    ensures { (js : List Judgement) (k i : ℕ) → given.now ≡ judgements_seen env.now js → result ≡ value_seen env.now (member_valued env.now through_const first name.now js (a_method k i signature.now)) }
{
    let value = call_valued(env, signature, name.place, given);
    let kind = if through_const {
        Kind::Nothing
    } else {
        value.kind()
    };
    let write = Found::broken_if(through_const, Rule::ConstWrite, first);
    Valued::new(kind, value.found().and(write))
}

// The call of what a member of a class means.
fn member_valued(
    env: &Environment<'_>,
    through_const: bool,
    first: u32,
    name: &Name,
    given: &[Judged<'_>],
    meaning: &Meaning<'_, '_>,
) -> Valued
    ensures { (js : List Judgement) → given.now ≡ judgements_seen env.now js → result ≡ value_seen env.now (member_valued env.now through_const first name.now js (meaning_of meaning.now)) }
{
    match meaning {
        Meaning::Method(_, _, signature) => {
            method_valued(env, through_const, first, name, given, signature)
        }
        Meaning::Unknown => broken_call(env, Rule::UnknownName, name.place, given),
        _ => broken_call(env, Rule::TypeMismatch, name.place, given),
    }
}

// The place of the last name.
fn last_place(names: &[Name]) -> u32
    ensures { result ≡ last_place names.now }
{
    match names {
        [] => 0,
        [.., name] => name.place,
    }
}

// A call on the object that names reach, where the last is the function's.
fn on_object_valued(
    env: &Environment<'_>,
    names: &[Name],
    name: &Name,
    given: &[Judged<'_>],
    object: &Reached,
) -> Valued
    ensures { (js : List Judgement) (r : Path) → given.now ≡ judgements_seen env.now js → object.now ≡ reached_seen env.now r → result ≡ value_seen env.now (on_object_valued env.now names.now name.now js r r.kind) }
{
    match object.kind() {
        Kind::Nothing => broken_behind(env, object.found(), given),
        Kind::Class(class) => {
            let meaning = member_meaning(env, class, name.text.as_bytes());
            member_valued(
                env,
                object.is_const(),
                first_place(names),
                name,
                given,
                &meaning,
            )
        }
        _ => broken_call(env, Rule::TypeMismatch, receiver_place(names), given),
    }
}

// The names before the last.
fn receiver(names: &[Name]) -> &[Name]
    ensures { result.now ≡ receiver names.now }
{
    match names {
        [] => names,
        [before @ .., _] => before,
    }
}

// The place of the last name before the function's.
fn receiver_place(names: &[Name]) -> u32
    ensures { result ≡ last_place (receiver names.now) }
{
    last_place(receiver(names))
}

// A call on an object, by two names or more.
fn object_valued<'t>(
    env: &Environment<'t>,
    scope: &Scope<'t>,
    thrown: bool,
    names: &[Name],
    name: &Name,
    given: &[Judged<'_>],
) -> Valued
    ensures { (js : List Judgement) (n m : Name) (others : List Name) → given.now ≡ judgements_seen env.now js → names.now ≡ n ∷ m ∷ others → name.now ≡ last_name m others → result ≡ value_seen env.now (names_valued env.now scope.now thrown names.now js) }
{
    let object = reached(env, scope, receiver(names));
    on_object_valued(env, names, name, given, &object)
}

/// A call by its names; it may be the whole operand of throw.
pub fn names_valued<'t>(
    env: &Environment<'t>,
    scope: &Scope<'t>,
    thrown: bool,
    names: &[Name],
    given: &[Judged<'_>],
) -> Valued
    ensures { (js : List Judgement) → given.now ≡ judgements_seen env.now js → result ≡ value_seen env.now (names_valued env.now scope.now thrown names.now js) }
{
    match names {
        [] => broken_behind(env, Found::nothing(), given),
        [name] => {
            let meaning = look(env, scope, name);
            meant_valued(env, scope, thrown, name, given, &meaning)
        }
        [_, .., name] => object_valued(env, scope, thrown, names, name, given),
    }
}

/// The functions of `std`.
pub fn std_builtin(text: &[u8]) -> Option<Builtin>
    ensures { result ≡ std_builtin text.now }
{
    if text == b"terminate".as_slice() {
        Some(Builtin::Terminate)
    } else if text == b"uncaught_exception".as_slice() {
        Some(Builtin::Uncaught)
    } else if text == b"set_terminate".as_slice() {
        Some(Builtin::SetTerminate)
    } else if text == b"set_unexpected".as_slice() {
        Some(Builtin::SetUnexpected)
    } else {
        None
    }
}

/// A call of `std::` something, where `std` stands at a place.
pub fn std_valued<'t>(
    env: &Environment<'t>,
    scope: &Scope<'t>,
    thrown: bool,
    place: u32,
    name: &Name,
    given: &[Judged<'_>],
) -> Valued
    ensures { (js : List Judgement) → given.now ≡ judgements_seen env.now js → result ≡ value_seen env.now (std_valued env.now scope.now thrown place name.now js) }
{
    let text = name.text.as_bytes();
    if text == b"bad_exception".as_slice() {
        return construction_valued(env, thrown, 0, place, name.place, given);
    }
    match std_builtin(text) {
        None => broken_call(env, Rule::UnknownName, name.place, given),
        Some(builtin) => builtin_valued(env, scope, builtin, name.place, given),
    }
}
