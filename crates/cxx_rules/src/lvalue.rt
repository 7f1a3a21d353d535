// What `a.b.c` reaches.
ghost use Rattle.std.specs.Prelude.{◌≡◌, [], ◌∷◌, List};
ghost use Rattle.cxx_ast.specs.declared.name.Name.{Name};
ghost use Rattle.cxx_ast.specs.Lvalue.{reached, reached_by, reached_from, first_place, last_place, variable_wanted, through_const};
ghost use Rattle.cxx_rules.specs.KindOf.{kind_of};
ghost use Rattle.cxx_rules.specs.MeaningOf.{meaning_of};
ghost use Rattle.cxx_rules.specs.Seen.{reached_seen};
ghost use Rattle.cxx_rules.specs.Summary.{seen};
ghost use Rattle.cxx_rules.specs.Went.{went};

use crate::environment::Environment;
use crate::found::Found;
use crate::judgement::Reached;
use crate::kind::Kind;
use crate::lookup::Meaning;
use crate::meaning::{look, member_meaning};
use crate::rule::Rule;
use crate::scope::Scope;
use cxx_ast::name::Name;

// A step along a path: on from a type, or no further.
#[derive(Drop)]
pub enum Along {
    On(Kind),
    Stops(Found),
}

/// The place of the first name.
pub fn first_place(names: &[Name]) -> u32
    ensures { result ≡ first_place names.now }
{
    match names {
        [] => 0,
        [n, ..] => n.place,
    }
}

// A variable or a data member is needed.
#[tactic(auto, using(crate::proofs::FoundLaws::findings))]
fn variable_wanted(env: &Environment<'_>, place: u32, meaning: &Meaning<'_, '_>) -> Found
    ensures { result ≡ seen env.now (variable_wanted place (meaning_of meaning.now)) }
{
    match meaning {
        Meaning::Local(_) | Meaning::Field(_, _, _) | Meaning::Global(_) => Found::nothing(),
        Meaning::Unknown => Found::broken(Rule::UnknownName, place),
        _ => Found::broken(Rule::TypeMismatch, place),
    }
}

// A variable is a reference to const.
fn through_const(meaning: &Meaning<'_, '_>) -> bool
    ensures { result ≡ through_const (meaning_of meaning.now) }
{
    match meaning {
        Meaning::Local(v) => v.is_const(),
        _ => false,
    }
}

// A step from an object of a class to its member.
#[tactic(auto, using(crate::proofs::FoundLaws::findings))]
fn member_step(env: &Environment<'_>, class: usize, before: u32, name: &Name) -> Along
    ensures { (names : List Name) → reached_seen env.now (reached_from env.now (name.now ∷ names) before (kind_of (Kind.Class class))) ≡ went (λ k. reached_seen env.now (reached_from env.now names name.now.place k)) result }
{
    match member_meaning(env, class, name.text.as_bytes()) {
        Meaning::Field(_, _, kind) => Along::On(kind),
        Meaning::Unknown => Along::Stops(Found::broken(Rule::UnknownName, name.place)),
        _ => Along::Stops(Found::broken(Rule::TypeMismatch, name.place)),
    }
}

// A step from something of a type, whose own name stands at a place.
#[tactic(auto, using(crate::proofs::FoundLaws::findings))]
fn step_along(env: &Environment<'_>, kind: Kind, before: u32, name: &Name) -> Along
    ensures { (names : List Name) → reached_seen env.now (reached_from env.now (name.now ∷ names) before (kind_of kind)) ≡ went (λ k. reached_seen env.now (reached_from env.now names name.now.place k)) result }
{
    match kind {
        Kind::Nothing => Along::Stops(Found::nothing()),
        Kind::Class(class) => member_step(env, class, before, name),
        _ => Along::Stops(Found::broken(Rule::TypeMismatch, before)),
    }
}

// The end of a path.
#[tactic(auto, using(crate::proofs::FoundLaws::findings))]
fn arrived(_env: &Environment<'_>, _before: u32, kind: Kind) -> Reached
    ensures { result ≡ reached_seen _env.now (reached_from _env.now [] _before (kind_of kind)) }
{
    Reached::new(kind, false, Found::nothing())
}

// The members that names reach from something of a type, whose own name stands at a place.
#[tactic(auto, using(crate::proofs::FoundLaws::findings))]
fn reached_from(env: &Environment<'_>, names: &[Name], before: u32, kind: Kind) -> Reached
    ensures { result ≡ reached_seen env.now (reached_from env.now names.now before (kind_of kind)) }
{
    let mut kind = kind;
    let mut before = before;
    for name in names {
        match step_along(env, kind, before, name) {
            Along::On(next) => {
                kind = next;
                before = name.place;
            }
            Along::Stops(found) => return Reached::new(Kind::Nothing, false, found),
        }
    }
    arrived(env, before, kind)
}

// What a path reaches whose first name has a meaning.
#[tactic(auto, using(crate::proofs::FoundLaws::findings))]
fn reached_by(
    env: &Environment<'_>,
    meaning: &Meaning<'_, '_>,
    name: &Name,
    names: &[Name],
) -> Reached
    ensures { result ≡ reached_seen env.now (reached_by env.now (meaning_of meaning.now) name.now names.now) }
{
    let r = reached_from(env, names, name.place, meaning.kind());
    let found = variable_wanted(env, name.place, meaning).and(r.found());
    Reached::new(r.kind(), through_const(meaning), found)
}

/// What a path reaches.
#[tactic(auto, using(crate::proofs::FoundLaws::findings))]
pub fn reached<'t>(env: &Environment<'t>, scope: &Scope<'t>, names: &[Name]) -> Reached
    ensures { result ≡ reached_seen env.now (reached env.now scope.now names.now) }
{
    match names {
        [] => Reached::new(Kind::Nothing, false, Found::nothing()),
        [name, others @ ..] => reached_by(env, &look(env, scope, name), name, others),
    }
}
