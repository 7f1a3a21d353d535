// Classes by their heads.
ghost use Rattle.std.specs.Prelude.{◌≡◌, [], IfOk, OnOk, map, flat_map};
ghost use Rattle.cxx_ast.specs.declared.name.Bound.TheVariants.{Free};
ghost use Rattle.cxx_ast.specs.Declare.{with_class, with_class_name, class_entry};
ghost use Rattle.cxx_ast.specs.View.{class_of};
ghost use Rattle.cxx_check.specs.ClassParts.{bare_class, entry_in, field_in, field_of_in, heads_found, method_head_in, method_of_in};
ghost use Rattle.cxx_rules.specs.Summary.{both, seen};

use crate::NoMemory;
use crate::class_entry::class_entry;
use crate::class_head::{bare_class, base_found, base_number, data_members, function_heads};
use cxx_ast::declaration::ClassDecl;
use cxx_ast::name::Name;
use cxx_rules::{ClassEntry, Environment, Field, Found, Signature, Thing};
use std::alloc::Global;

/// A class by its head: what is known of the class itself, and what its heads break.
#[derive(Drop)]
pub struct Headed<'t> {
    pub entry: ClassEntry<'t>,
    pub found: Found,
}

// The parts of a class by their heads, and what these break behind what its base does.
#[derive(Drop)]
struct PartHeads<'t> {
    fields: Vec<Field<'t>>,
    signatures: Vec<Signature<'t>>,
    found: Found,
}

// The parts of a class, where their names are known.
fn part_heads<'t>(
    alloc: Global,
    env: &Environment<'t>,
    number: usize,
    nameless: &'t Name,
    class: &'t ClassDecl,
    above: Found,
) -> Result<PartHeads<'t>, NoMemory>
    requires { nameless.now ≡ record { text = []; place = 0; bound = Free } }
    ensures fields { IfOk result (λ p. p.fields.items ≡ map (field_of_in env.now number) (class_of class.now).members) }
    ensures signatures { IfOk result (λ p. p.signatures.items ≡ map (method_of_in env.now number) (class_of class.now).functions) }
    ensures found { IfOk result (λ p. p.found ≡ both (both above (seen env.now (flat_map (field_in env.now number) (class_of class.now).members))) (seen env.now (flat_map (method_head_in env.now number) (class_of class.now).functions))) }
{
    let members = data_members(alloc, env, number, nameless, class.members.as_slice())?;
    let functions = function_heads(alloc, env, number, class.funcs.as_slice())?;
    let found = above.and(members.found).and(functions.found);
    Ok(PartHeads {
        fields: members.fields,
        signatures: functions.signatures,
        found,
    })
}

// A class of its parts, where itself is not known.
fn class_of_parts<'t>(
    alloc: Global,
    env: &Environment<'t>,
    number: usize,
    base: Option<usize>,
    parts: PartHeads<'t>,
    text: &'t [u8],
) -> Result<Headed<'t>, NoMemory>
    ensures entry { IfOk result (λ h. h.entry ≡ entry_in env.now number base parts.entry.fields.items parts.entry.signatures.items text.now) }
    ensures found { IfOk result (λ h. h.found ≡ parts.entry.found) }
{
    let PartHeads {
        fields,
        signatures,
        found,
    } = parts;
    let entry = class_entry(alloc, env, number, base, fields, signatures, text)?;
    Ok(Headed { entry, found })
}

/// The names of a class's parts are known from here on, by a class that has nothing else.
pub fn enter_names<'t>(
    alloc: Global,
    env: &mut Environment<'t>,
    base: Option<usize>,
    nameless: &'t Name,
    class: &'t ClassDecl,
) -> Result<(), NoMemory>
    requires { nameless.now ≡ record { text = []; place = 0; bound = Free } }
    ensures { OnOk result (env.new ≡ with_class env.old (bare_class base (class_of class.now))) }
{
    let bare = bare_class(alloc, nameless, base, class)?;
    env.add_class(alloc, bare)
}

/// The head of a class, whose name is known from here on.
pub fn head<'t>(
    alloc: Global,
    env: &mut Environment<'t>,
    nameless: &'t Name,
    class: &'t ClassDecl,
) -> Result<Headed<'t>, NoMemory>
    requires { nameless.now ≡ record { text = []; place = 0; bound = Free } }
    ensures env { OnOk result (env.new ≡ with_class_name env.old (class_of class.now)) }
    ensures entry { IfOk result (λ h. h.entry ≡ class_entry env.old (class_of class.now)) }
    ensures found { IfOk result (λ h. h.found ≡ seen env.old (heads_found env.old (class_of class.now))) }
{
    let number = env.class_count();
    let text = class.name.text.as_bytes();
    env.add_name(alloc, text, Thing::Class(number))?;
    let above = base_found(alloc, env, number, &class.base);
    let base = base_number(alloc, env, number, &class.base);
    enter_names(alloc, env, base, nameless, class)?;
    let parts = part_heads(alloc, env, number, nameless, class, above)?;
    env.remove_class();
    let heads = class_of_parts(alloc, env, number, base, parts, text)?;
    Ok(heads)
}
