// The parts of a class among themselves: names that stand twice, constructors and destructors, and the class's size.
ghost use Rattle.std.specs.Prelude.{◌≡◌, ◌++◌, ◌||◌, ◌&&◌, [], IfOk, map};
ghost use Rattle.cxx_ast.specs.ClassRules.{clash, clashes, has_class_name, method_names, size_found, specials_found, twice_among};
ghost use Rattle.cxx_ast.specs.Declare.{name_of};
ghost use Rattle.cxx_ast.specs.View.{function_of, class_of};
ghost use Rattle.cxx_ast.specs.declared.name.Bound.TheVariants.{Free};
ghost use Rattle.cxx_check.specs.OwnParts.{names_now, twice_in, part_names, special_in, own_found};
ghost use Rattle.cxx_check.specs.PlacesOf.{Hold};
ghost use Rattle.cxx_rules.specs.Summary.{seen};

use crate::NoMemory;
use crate::class_head::name_of;
use crate::places::Places;
use cxx_ast::declaration::{ClassDecl, Func, FuncKind};
use cxx_ast::name::Name;
use cxx_ast::types::Param;
use cxx_rules::{ClassEntry, Environment, Found, Rule, Signature, are_copy_parameters};
use std::alloc::Global;

/// The least places of names.
pub fn places_of(alloc: Global, names: &[&Name]) -> Result<Places, NoMemory>
    ensures { IfOk result (λ p. Hold p (names_now names.now)) }
{
    let mut places = Places::new(alloc);
    for name in names {
        places.add(alloc, name)?;
    }
    Ok(places)
}

// A name that stands behind another of the same text.
#[tactic(auto, using(cxx_rules::proofs::FoundLaws::findings))]
fn twice_found(_env: &Environment<'_>, places: &Places, all: &[&Name], name: &Name) -> Found
    requires { Hold places.now (names_now all.now) }
    ensures { result ≡ seen _env.now (twice_in (names_now all.now) name.now) }
{
    Found::broken_if(places.has_before(name), Rule::Redeclared, name.place)
}

// Names that stand behind others of the same text.
fn twice_among(env: &Environment<'_>, places: &Places, names: &[&Name]) -> Found
    requires { Hold places.now (names_now names.now) }
    ensures { result ≡ seen env.now (twice_among (names_now names.now) (names_now names.now)) }
{
    let mut found = Found::nothing();
    for name in names {
        found = found.and(twice_found(env, places, names, name));
    }
    found
}

// The names of data members, with those of methods behind them.
fn part_names<'t>(
    alloc: Global,
    nameless: &'t Name,
    members: &'t [Param],
    funcs: &'t [Func],
) -> Result<Vec<&'t Name>, NoMemory>
    requires { nameless.now ≡ record { text = []; place = 0; bound = Free } }
    ensures { IfOk result (λ names. names_now names.items ≡ map name_of members.now ++ method_names (map function_of funcs.now)) }
{
    let mut names = Vec::new(alloc);
    for member in members {
        names.push(name_of(nameless, member))?;
    }
    for f in funcs {
        if matches!(f.kind, FuncKind::Method) {
            names.push(&f.name)?;
        }
    }
    Ok(names)
}

// Two functions of a class are both constructors that a call could not tell apart, or both destructors.
fn clash(class: usize, first: &Signature<'_>, second: &Signature<'_>) -> bool
    ensures { result ≡ clash class first.now.form second.now.form first.now second.now }
{
    match (first.form(), second.form()) {
        (FuncKind::Constructor, FuncKind::Constructor) => {
            let a = are_copy_parameters(class, first.parameters());
            let b = are_copy_parameters(class, second.parameters());
            a == b && first.parameters().len() == second.parameters().len()
        }
        (FuncKind::Destructor, FuncKind::Destructor) => true,
        _ => false,
    }
}

// A function clashes with one of others.
fn clashes(class: usize, text: &[u8], before: &[Signature<'_>], s: &Signature<'_>) -> bool
    ensures { result ≡ clashes class text.now before.now s.now }
{
    for t in before {
        if t.name().text.as_bytes() == text && clash(class, t, s) {
            return true;
        }
    }
    false
}

// A function has the form of a constructor or a destructor.
fn has_class_name(form: FuncKind) -> bool
    ensures { result ≡ has_class_name form }
{
    matches!(form, FuncKind::Constructor | FuncKind::Destructor)
}

// A constructor or a destructor behind other functions: another name, or twice.
#[tactic(auto, using(cxx_rules::proofs::FoundLaws::findings))]
fn special_found(
    _env: &Environment<'_>,
    class: usize,
    text: &[u8],
    before: &[Signature<'_>],
    s: &Signature<'_>,
) -> Found
    ensures { result ≡ seen _env.now (special_in class text.now before.now s.now) }
{
    let place = s.name().place;
    if s.name().text.as_bytes() == text {
        Found::broken_if(clashes(class, text, before, s), Rule::Redeclared, place)
    } else {
        Found::broken_if(has_class_name(s.form()), Rule::UnknownName, place)
    }
}

// The constructors and destructors of a class.
fn specials_found(
    env: &Environment<'_>,
    class: usize,
    text: &[u8],
    functions: &[Signature<'_>],
) -> Found
    ensures { result ≡ seen env.now (specials_found class text.now [] functions.now) }
{
    let mut found = Found::nothing();
    for (i, s) in functions.iter().enumerate() {
        found = found.and(special_found(env, class, text, &functions[..i], s));
    }
    found
}

// A class has too many bytes, or its chain of bases too many classes.
#[tactic(auto, using(cxx_rules::proofs::FoundLaws::findings))]
fn size_found(_env: &Environment<'_>, entry: &ClassEntry<'_>, place: u32) -> Found
    ensures { result ≡ seen _env.now (size_found entry.now place) }
{
    let is_large = entry.size().capped(1025) > 1024 || entry.chain() > 64;
    Found::broken_if(is_large, Rule::ClassTooLarge, place)
}

/// The parts of a class among themselves.
#[tactic(auto, using(cxx_rules::proofs::FoundLaws::findings))]
pub fn own_found<'t>(
    alloc: Global,
    env: &Environment<'t>,
    number: usize,
    nameless: &'t Name,
    class: &'t ClassDecl,
    entry: &ClassEntry<'t>,
) -> Result<Found, NoMemory>
    requires { nameless.now ≡ record { text = []; place = 0; bound = Free } }
    ensures { IfOk result (λ found. found ≡ seen env.now (own_found number (class_of class.now) entry.now)) }
{
    let members = class.members.as_slice();
    let names = part_names(alloc, nameless, members, class.funcs.as_slice())?;
    let places = places_of(alloc, names.as_slice())?;
    let twice = twice_among(env, &places, names.as_slice());
    let specials = specials_found(env, number, class.name.text.as_bytes(), entry.functions());
    Ok(
        twice
            .and(specials)
            .and(size_found(env, entry, class.name.place)),
    )
}
