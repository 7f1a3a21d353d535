// What a name means where it stands.
ghost use Rattle.std.specs.Prelude.{◌≡◌, option_map, drop};
ghost use Rattle.cxx_ast.specs.Lookup.{in_reach, field_named, method_named, first_of_two, is_method};
ghost use Rattle.cxx_rules.specs.MeaningOf.{member_found, own_member};

use crate::class::ClassEntry;
use crate::entry::{Field, Signature};
use crate::kind::Kind;
use crate::row::Variable;
use cxx_ast::declaration::FuncKind;
use cxx_ast::name::{Builtin, Name};

/// What a name means. A member is given by its class and its number there.
#[derive(Drop)]
pub enum Meaning<'e, 't> {
    Unknown,
    Local(&'e Variable<'t>),
    Field(usize, usize, Kind),
    Method(usize, usize, &'e Signature<'t>),
    Global(usize),
    Function(&'e Signature<'t>),
    Class(usize),
    Builtin(Builtin),
}

// A member, and the place where it is declared.
#[derive(Drop)]
pub struct Member<'e, 't> {
    pub place: u32,
    pub meaning: Meaning<'e, 't>,
}

// A member is in reach.
fn is_in_reach(limit: Option<u32>, name: &Name) -> bool
    ensures { result ≡ in_reach limit name.now }
{
    match limit {
        None => true,
        Some(place) => name.place < place,
    }
}

// The data member with a name, from the i-th on.
fn field<'e, 't>(
    limit: Option<u32>,
    text: &[u8],
    class: usize,
    first: usize,
    fields: &'e [Field<'t>],
) -> Option<Member<'e, 't>>
    ensures { option_map member_found result ≡ field_named limit text.now class first (drop first fields.now) }
{
    for i in first..fields.len() {
        let f = &fields[i];
        let name = f.name();
        if is_in_reach(limit, name) && name.text.as_bytes() == text {
            return Some(Member {
                place: name.place,
                meaning: Meaning::Field(class, i, f.kind()),
            });
        }
    }
    None
}

// A function is neither a constructor nor a destructor.
fn is_method(form: FuncKind) -> bool
    ensures { result ≡ is_method form }
{
    matches!(form, FuncKind::Method)
}

// The member function with a name, from the i-th function on.
fn method<'e, 't>(
    limit: Option<u32>,
    text: &[u8],
    class: usize,
    first: usize,
    functions: &'e [Signature<'t>],
) -> Option<Member<'e, 't>>
    ensures { option_map member_found result ≡ method_named limit text.now class first (drop first functions.now) }
{
    for i in first..functions.len() {
        let f = &functions[i];
        let name = f.name();
        if is_method(f.form()) && is_in_reach(limit, name) && name.text.as_bytes() == text {
            return Some(Member {
                place: name.place,
                meaning: Meaning::Method(class, i, f),
            });
        }
    }
    None
}

// What is declared first.
fn first_of_two<'e, 't>(
    a: Option<Member<'e, 't>>,
    b: Option<Member<'e, 't>>,
) -> Option<Member<'e, 't>>
    ensures { option_map member_found result ≡ first_of_two (option_map member_found a.entry) (option_map member_found b.entry) }
{
    match a {
        None => b,
        Some(first) => match b {
            None => Some(first),
            Some(second) => {
                if second.place < first.place {
                    Some(second)
                } else {
                    Some(first)
                }
            }
        },
    }
}

// The data member of a class with a name: none stands before the first that has it.
fn own_field<'e, 't>(
    limit: Option<u32>,
    text: &[u8],
    number: usize,
    class: &'e ClassEntry<'t>,
) -> Option<Member<'e, 't>>
    ensures { option_map member_found result ≡ field_named limit text.now number 0 class.now.fields }
{
    match class.first_field(text) {
        None => None,
        Some(first) => field(limit, text, number, first, class.fields()),
    }
}

// The member function of a class with a name: none stands before the first function that has it.
fn own_method<'e, 't>(
    limit: Option<u32>,
    text: &[u8],
    number: usize,
    class: &'e ClassEntry<'t>,
) -> Option<Member<'e, 't>>
    ensures { option_map member_found result ≡ method_named limit text.now number 0 class.now.functions }
{
    match class.first_function(text) {
        None => None,
        Some(first) => method(limit, text, number, first, class.functions()),
    }
}

// The member of a class with a name.
pub fn own_member<'e, 't>(
    limit: Option<u32>,
    text: &[u8],
    number: usize,
    class: &'e ClassEntry<'t>,
) -> Option<Member<'e, 't>>
    ensures { option_map member_found result ≡ own_member limit text.now number class.now }
{
    first_of_two(
        own_field(limit, text, number, class),
        own_method(limit, text, number, class),
    )
}
