// What names are bound to.
ghost use Rattle.std.specs.Prelude.{◌≡◌, ◌∷◌, List, IfOk};
ghost use Rattle.cxx_ast.specs.declared.name.Name.{Name};
ghost use Rattle.cxx_ast.specs.Resolve.{function_number, bound_of, bind, bind_some, resolve_class, resolve_type, resolve_members, resolve_path, std_bound};
ghost use Rattle.cxx_rules.specs.KindOf.{kind_of};
ghost use Rattle.cxx_rules.specs.MeaningOf.{meaning_of};

use crate::NoMemory;
use crate::held::put;
use cxx_ast::name::{Bound, Name};
use cxx_ast::text::Text;
use cxx_ast::types::Ty;
use cxx_rules::{
    Environment, Kind, Meaning, Scope, is_bad_exception, look, member_meaning, std_builtin,
};
use std::alloc::Global;

/// A number in 32 bits; there is no room for as many names as would need more.
pub fn numbered(number: usize) -> Result<u32, NoMemory>
    ensures { IfOk result (λ n. n ≡ number) }
{
    match u32::try_from(number) {
        Ok(n) => Ok(n),
        Err(_) => Err(NoMemory),
    }
}

// The number of a function among those that the program defines.
fn function_number(env: &Environment<'_>, text: &[u8]) -> Result<u32, NoMemory>
    ensures { IfOk result (λ n. n ≡ function_number env.now text.now) }
{
    numbered(env.function_number(text))
}

// What a meaning binds to.
pub fn bound_of(env: &Environment<'_>, meaning: &Meaning<'_, '_>) -> Result<Bound, NoMemory>
    ensures { IfOk result (λ b. b ≡ bound_of env.now (meaning_of meaning.now)) }
{
    match meaning {
        Meaning::Unknown => Ok(Bound::Free),
        Meaning::Local(v) => Ok(Bound::Local(numbered(v.number())?)),
        Meaning::Field(class, i, _) => Ok(Bound::Field(numbered(*class)?, numbered(*i)?)),
        Meaning::Method(class, i, _) => Ok(Bound::Method(numbered(*class)?, numbered(*i)?)),
        Meaning::Global(n) => Ok(Bound::Global(numbered(*n)?)),
        Meaning::Function(s) => {
            let number = function_number(env, s.name().text.as_bytes())?;
            Ok(Bound::Func(number))
        }
        Meaning::Class(class) => Ok(Bound::Class(numbered(*class)?)),
        Meaning::Builtin(builtin) => Ok(Bound::Builtin(*builtin)),
    }
}

/// A name with a bound.
pub fn bind(alloc: Global, name: &Name, bound: Bound) -> Result<Name, NoMemory>
    ensures { IfOk result (λ n. n ≡ bind name.now bound) }
{
    let text = Text::copied(alloc, name.text.as_bytes())?;
    Ok(Name {
        text,
        place: name.place,
        bound,
    })
}

/// A name with the bound that it has.
pub fn copied(alloc: Global, name: &Name) -> Result<Name, NoMemory>
    ensures { IfOk result (λ n. n ≡ name.now) }
{
    bind(alloc, name, name.bound)
}

/// A name, where there is one, with a bound.
pub fn bind_some(alloc: Global, name: &Option<Name>, bound: Bound) -> Result<Option<Name>, NoMemory>
    ensures { IfOk result (λ n. n ≡ bind_some name.now bound) }
{
    match name {
        None => Ok(None),
        Some(name) => Ok(Some(bind(alloc, name, bound)?)),
    }
}

/// The name of a class as a type.
pub fn resolve_class<'t>(
    alloc: Global,
    env: &Environment<'t>,
    scope: &Scope<'t>,
    name: &Name,
) -> Result<Name, NoMemory>
    ensures { IfOk result (λ n. n ≡ resolve_class env.now scope.now name.now) }
{
    if is_bad_exception(name) {
        return bind(alloc, name, Bound::Class(0));
    }
    let bound = bound_of(env, &look(env, scope, name))?;
    bind(alloc, name, bound)
}

/// A type.
pub fn resolve_type<'t>(
    alloc: Global,
    env: &Environment<'t>,
    scope: &Scope<'t>,
    ty: &Ty,
) -> Result<Ty, NoMemory>
    ensures { IfOk result (λ t. t ≡ resolve_type env.now scope.now ty.now) }
{
    match ty {
        Ty::Int => Ok(Ty::Int),
        Ty::Void => Ok(Ty::Void),
        Ty::Object(name) => Ok(Ty::Object(resolve_class(alloc, env, scope, name)?)),
        Ty::IntRef(constant) => Ok(Ty::IntRef(*constant)),
        Ty::ObjectRef(constant, name) => Ok(Ty::ObjectRef(
            *constant,
            resolve_class(alloc, env, scope, name)?,
        )),
    }
}

// A name as a member of something of a type, and the type of what it means.
#[derive(Drop)]
struct Stepped {
    name: Name,
    kind: Kind,
}

// A member of something of a type.
fn step_to(
    alloc: Global,
    env: &Environment<'_>,
    kind: Kind,
    name: &Name,
) -> Result<Stepped, NoMemory>
    ensures { IfOk result (λ s. (others : List Name) → resolve_members env.now (kind_of kind) (name.now ∷ others) ≡ s.name ∷ resolve_members env.now (kind_of s.kind) others) }
{
    match kind {
        Kind::Class(class) => {
            let meaning = member_meaning(env, class, name.text.as_bytes());
            let bound = bound_of(env, &meaning)?;
            let name = bind(alloc, name, bound)?;
            let kind = meaning.kind();
            Ok(Stepped { name, kind })
        }
        _ => {
            let name = copied(alloc, name)?;
            Ok(Stepped {
                name,
                kind: Kind::Nothing,
            })
        }
    }
}

// The members behind something of a type, behind names that are bound already.
fn resolve_members(
    alloc: Global,
    env: &Environment<'_>,
    first: Name,
    kind: Kind,
    names: &[Name],
) -> Result<Vec<Name>, NoMemory>
    ensures { IfOk result (λ bound. bound.items ≡ first ∷ resolve_members env.now (kind_of kind) names.now) }
{
    let mut bound = Vec::new(alloc);
    put(first, &mut bound)?;
    let mut kind = kind;
    for name in names {
        let next = step_to(alloc, env, kind, name)?;
        put(next.name, &mut bound)?;
        kind = next.kind;
    }
    Ok(bound)
}

/// A path, also of a call.
pub fn resolve_path<'t>(
    alloc: Global,
    env: &Environment<'t>,
    scope: &Scope<'t>,
    names: &[Name],
) -> Result<Vec<Name>, NoMemory>
    ensures { IfOk result (λ bound. bound.items ≡ resolve_path env.now scope.now names.now) }
{
    match names {
        [] => Ok(Vec::new(alloc)),
        [name, others @ ..] => {
            let meaning = look(env, scope, name);
            let first = bind(alloc, name, bound_of(env, &meaning)?)?;
            resolve_members(alloc, env, first, meaning.kind(), others)
        }
    }
}

/// A built-in function of `std`, or its class.
pub fn std_bound(text: &[u8]) -> Bound
    ensures { result ≡ std_bound text.now }
{
    if text == b"bad_exception".as_slice() {
        return Bound::Class(0);
    }
    match std_builtin(text) {
        None => Bound::Free,
        Some(builtin) => Bound::Builtin(builtin),
    }
}
