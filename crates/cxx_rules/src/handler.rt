// The argument of set_terminate or set_unexpected.
ghost use Rattle.std.specs.Prelude.{◌≡◌, ◌&&◌, ◌==◌, ℕ, List, [], ◌∷◌, length, bytes_eq, codes};
ghost use Rattle.cxx_ast.specs.Environment.{Environment as Known, void_kind, same_kind};
ghost use Rattle.cxx_ast.specs.Finding.{breaks};
ghost use Rattle.cxx_ast.specs.Rule.{handler_form};
ghost use Rattle.cxx_ast.specs.Calls.{handler_meant, handler_named, handler_found};
ghost use Rattle.cxx_ast.specs.Reference.{Judgement};
ghost use Rattle.cxx_rules.specs.MeaningOf.{meaning_of};
ghost use Rattle.cxx_rules.specs.Seen.{judgement_seen, judgements_seen};
ghost use Rattle.cxx_rules.specs.Summary.{seen, used_by};

use crate::entry::Signature;
use crate::environment::Environment;
use crate::found::Found;
use crate::judgement::Judged;
use crate::kind::Kind;
use crate::lookup::Meaning;
use crate::meaning::look;
use crate::rule::Rule;
use crate::scope::Scope;
use cxx_ast::name::Name;

/// A function is used, by the name of its first declaration.
pub fn used(env: &Environment<'_>, name: &Name) -> Found
    ensures { result ≡ used_by env.now.definitions name.now }
{
    Found::used(env.defines(name.text.as_bytes()), name.place)
}

/// A name is that of `main`.
pub fn is_main(name: &Name) -> bool
    ensures { result ≡ bytes_eq name.now.text (codes "main") }
{
    name.text.as_bytes() == b"main".as_slice()
}

// A function has no parameters and gives no value.
fn is_plain(signature: &Signature<'_>) -> bool
    ensures { result ≡ (same_kind signature.now.result void_kind && length signature.now.parameters == 0) }
{
    signature.result().is(Kind::Void) && signature.parameters().len() == 0
}

// The name of a function without parameters and value is needed, and not that of `main`.
#[tactic(auto, using(crate::proofs::FoundLaws::findings))]
fn handler_meant(env: &Environment<'_>, place: u32, meaning: &Meaning<'_, '_>) -> Found
    ensures { result ≡ seen env.now (handler_meant place (meaning_of meaning.now)) }
{
    match meaning {
        Meaning::Unknown => Found::broken(Rule::UnknownName, place),
        Meaning::Function(s) => used(env, s.name())
            .and(Found::broken_if(is_main(s.name()), Rule::MainUse, place))
            .and(Found::broken_if(!is_plain(s), Rule::HandlerForm, place)),
        _ => Found::broken(Rule::HandlerForm, place),
    }
}

// An argument that is no handler's name.
#[tactic(auto, using(crate::proofs::FoundLaws::findings))]
fn no_handler(given: &Judged<'_>) -> Found
    ensures { (env : Known) (j : Judgement) → given.now ≡ judgement_seen env j → result ≡ seen env (breaks handler_form j.place ∷ j.found) }
{
    Found::broken(Rule::HandlerForm, given.place()).and(given.found())
}

// The argument, by the names that it is.
fn handler_named<'t>(
    env: &Environment<'t>,
    scope: &Scope<'t>,
    given: &Judged<'_>,
    names: &[Name],
) -> Found
    ensures { (j : Judgement) → given.now ≡ judgement_seen env.now j → result ≡ seen env.now (handler_named env.now scope.now j names.now) }
{
    match names {
        [name] => handler_meant(env, given.place(), &look(env, scope, name)),
        _ => no_handler(given),
    }
}

// The one argument.
fn one_handler<'t>(env: &Environment<'t>, scope: &Scope<'t>, given: &Judged<'_>) -> Found
    ensures { (j : Judgement) (place : ℕ) → given.now ≡ judgement_seen env.now j → result ≡ seen env.now (handler_found env.now scope.now place (j ∷ [])) }
{
    match given.target() {
        Some(target) => handler_named(env, scope, given, target.names()),
        None => no_handler(given),
    }
}

/// The arguments of set_terminate or set_unexpected.
#[tactic(auto, using(crate::proofs::FoundLaws::findings))]
pub fn handler_found<'t>(
    env: &Environment<'t>,
    scope: &Scope<'t>,
    place: u32,
    given: &[Judged<'_>],
) -> Found
    ensures { (js : List Judgement) → given.now ≡ judgements_seen env.now js → result ≡ seen env.now (handler_found env.now scope.now place js) }
{
    match given {
        [one] => one_handler(env, scope, one),
        _ => Found::broken(Rule::Arity, place),
    }
}
