// What a name means where it stands.
ghost use Rattle.std.specs.Prelude.{◌≡◌, length, None};
ghost use Rattle.cxx_ast.specs.Lookup.{member_meaning, own_meaning, builtin_named, look, meaning_kind, thing_meaning, entry_of, outer_meaning, function_meaning};
ghost use Rattle.cxx_rules.specs.KindOf.{kind_of};
ghost use Rattle.cxx_rules.specs.MeaningOf.{meaning_of};

use crate::environment::Environment;
use crate::kind::Kind;
use crate::lookup::Meaning;
use crate::member::member;
use crate::names::Thing;
use crate::scope::Scope;
use cxx_ast::name::{Builtin, Name};

/// The built-in functions that are in reach everywhere.
pub fn builtin_named<'e, 't>(text: &[u8]) -> Meaning<'e, 't>
    ensures { meaning_of result ≡ builtin_named text.now }
{
    if text == b"write_int".as_slice() {
        Meaning::Builtin(Builtin::WriteInt)
    } else if text == b"read_byte".as_slice() {
        Meaning::Builtin(Builtin::ReadByte)
    } else if text == b"exit".as_slice() {
        Meaning::Builtin(Builtin::Exit)
    } else if text == b"__module".as_slice() {
        Meaning::Builtin(Builtin::Module)
    } else if text == b"__cancel".as_slice() {
        Meaning::Builtin(Builtin::Cancel)
    } else {
        Meaning::Unknown
    }
}

// What a name of the one scope means.
fn thing_meaning<'e, 't>(env: &'e Environment<'t>, text: &[u8]) -> Meaning<'e, 't>
    ensures { meaning_of result ≡ thing_meaning env.now text.now (entry_of env.now text.now) }
{
    match env.thing(text) {
        None => builtin_named(text),
        Some(Thing::Global(n)) => Meaning::Global(n),
        Some(Thing::Class(k)) => Meaning::Class(k),
        Some(Thing::Function) => match env.function(text) {
            None => Meaning::Unknown,
            Some(s) => Meaning::Function(s),
        },
    }
}

/// What a name means as a member of a class.
pub fn member_meaning<'e, 't>(
    env: &'e Environment<'t>,
    class: usize,
    text: &[u8],
) -> Meaning<'e, 't>
    ensures { meaning_of result ≡ member_meaning env.now class text.now }
{
    member(env, class, None, text)
}

/// What a name means in the class of the function.
pub fn own_meaning<'e, 't>(
    env: &'e Environment<'t>,
    scope: &Scope<'t>,
    text: &[u8],
) -> Meaning<'e, 't>
    ensures { meaning_of result ≡ own_meaning env.now scope.now text.now }
{
    match scope.own() {
        None => Meaning::Unknown,
        Some(class) => member(env, class, scope.limit(), text),
    }
}

// What a name means where it is not one of the variables.
fn outer_meaning<'e, 't>(
    env: &'e Environment<'t>,
    scope: &Scope<'t>,
    text: &[u8],
) -> Meaning<'e, 't>
    ensures { meaning_of result ≡ outer_meaning env.now scope.now text.now (own_meaning env.now scope.now text.now) }
{
    match own_meaning(env, scope, text) {
        Meaning::Unknown => thing_meaning(env, text),
        own => own,
    }
}

/// What a name means where it stands.
pub fn look<'e, 't>(env: &'e Environment<'t>, scope: &'e Scope<'t>, name: &Name) -> Meaning<'e, 't>
    ensures { meaning_of result ≡ look env.now scope.now name.now }
{
    match scope.variable(name.text.as_bytes()) {
        Some(v) => Meaning::Local(v),
        None => outer_meaning(env, scope, name.text.as_bytes()),
    }
}

impl<'e, 't> Meaning<'e, 't> {
    /// The type of what a name means, where it is a variable or a data member.
    pub fn kind(&self) -> Kind
        ensures { kind_of result ≡ meaning_kind (meaning_of self.now) }
    {
        match self {
            Meaning::Local(v) => v.kind(),
            Meaning::Field(_, _, kind) => *kind,
            Meaning::Global(_) => Kind::Int,
            _ => Kind::Nothing,
        }
    }
}
