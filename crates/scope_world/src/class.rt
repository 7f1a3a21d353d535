// Classes: their parts, bases and functions.
ghost use Rattle.std.specs.Prelude.{◌≡◌, IfOk, map, option_map};
ghost use Rattle.cxx_ast.specs.View.{checked_of, function_of, option_of, statements_of};
ghost use Rattle.meaning_forms.specs.Class as rules;
ghost use Rattle.meaning_forms.specs.Part.{parts_from, unset, unset_within};
ghost use Rattle.meaning_forms.specs.Call.{statements_in};
ghost use Rattle.scope_world.specs.Objects.{part_of, parts_of, type_of};
ghost use Rattle.scope_world.specs.Program.{class_or_none, function_or_none};

use crate::NoMemory;
use crate::object::{ObjectType, Part, Parts};
use cxx_ast::declaration::{ClassDecl, Func};
use cxx_ast::name::{Bound, Name};
use cxx_ast::program::Checked;
use cxx_ast::statement::Stmt;
use cxx_ast::types::{Param, Ty};
use std::alloc::Global;

/// The class that a name stands for.
pub fn class_named(name: &Name) -> u32
    ensures { result ≡ rules.class_named name.now }
{
    match name.bound {
        Bound::Class(k) => k,
        _ => 0,
    }
}

/// The type of the object that a variable of this type holds or refers to.
pub fn object_type(ty: &Ty) -> ObjectType
    ensures { type_of result ≡ rules.object_type ty.now }
{
    match ty {
        Ty::Object(name) | Ty::ObjectRef(_, name) => ObjectType::Class(class_named(name)),
        _ => ObjectType::Int,
    }
}

/// The class with a number.
pub fn class_at(program: &Checked, class: u32) -> Option<&ClassDecl>
    ensures { class_or_none (option_map (λ x. x.now) result) ≡ rules.class_at (checked_of program.now) class }
{
    program.classes.get(class as usize)
}

/// The function with a number.
pub fn function_at(program: &Checked, function: u32) -> Option<&Func>
    ensures { function_or_none (option_map (λ x. x.now) result) ≡ rules.function_at (checked_of program.now) function }
{
    program.functions.get(function as usize)
}

/// The functions that a class declares.
pub fn methods_of(program: &Checked, class: u32) -> &[Func]
    ensures { map function_of result.now ≡ (rules.class_at (checked_of program.now) class).functions }
{
    match class_at(program, class) {
        Some(it) => it.funcs.as_slice(),
        None => &[],
    }
}

/// The function at a place among those that a class declares.
pub fn method_at(program: &Checked, class: u32, place: usize) -> Option<&Func>
    ensures { function_or_none (option_map (λ x. x.now) result) ≡ rules.method_at (checked_of program.now) class place }
{
    methods_of(program, class).get(place)
}

/// The parameters of a function.
pub fn parameters_of(function: Option<&Func>) -> &[Param]
    ensures { result.now ≡ (function_or_none (option_map (λ x. x.now) function.entry)).parameters }
{
    match function {
        Some(it) => it.params.as_slice(),
        None => &[],
    }
}

/// The statements of a function's body.
pub fn body_of(function: Option<&Func>) -> &[Stmt]
    ensures { statements_of result.now ≡ statements_in (function_or_none (option_map (λ x. x.now) function.entry)).body }
{
    match function {
        Some(it) => match &it.body {
            Some(body) => body.as_slice(),
            None => &[],
        },
        None => &[],
    }
}

/// The base of a class.
pub fn base_of(program: &Checked, class: u32) -> Option<u32>
    ensures { result ≡ option_of rules.class_named (rules.class_at (checked_of program.now) class).base }
{
    match class_at(program, class) {
        Some(it) => match &it.base {
            Some(base) => Some(class_named(base)),
            None => None,
        },
        None => None,
    }
}

/// The data members of a class.
pub fn members_of(program: &Checked, class: u32) -> &[Param]
    ensures { result.now ≡ (rules.class_at (checked_of program.now) class).members }
{
    match class_at(program, class) {
        Some(it) => it.members.as_slice(),
        None => &[],
    }
}

// Whether a class is another, or stands in its chain of bases, at most so many of them.
fn has_base_within(program: &Checked, most: usize, class: u32, base: u32) -> bool
    ensures { result ≡ rules.contains (rules.chain_of_bases most (checked_of program.now) class) base }
{
    if most == 0 {
        return false;
    }
    if class == base {
        return true;
    }
    match base_of(program, class) {
        Some(next) => has_base_within(program, most - 1, next, base),
        None => false,
    }
}

/// Whether a type is another, or derived from it; int derives from int alone.
pub fn derives(program: &Checked, ty: ObjectType, base: ObjectType) -> bool
    ensures { result ≡ rules.derives (checked_of program.now) (type_of ty) (type_of base) }
{
    match (ty, base) {
        (ObjectType::Int, ObjectType::Int) => true,
        (ObjectType::Class(class), ObjectType::Class(base)) => {
            has_base_within(program, program.classes.len(), class, base)
        }
        _ => false,
    }
}

/// The parts of a class in the order of construction: the base, then the members.
pub fn parts_of(alloc: Global, program: &Checked, class: u32) -> Result<Vec<ObjectType>, NoMemory>
    ensures { IfOk result (λ parts. map type_of parts.items ≡ rules.parts_of (checked_of program.now) class) }
{
    let mut parts = Vec::new(alloc);
    if let Some(base) = base_of(program, class) {
        parts.push(ObjectType::Class(base))?;
    }
    for member in members_of(program, class) {
        parts.push(object_type(&member.ty))?;
    }
    Ok(parts)
}

/// The place of the i-th member among the parts of a class.
pub fn member_place(program: &Checked, class: u32, member: u32) -> u64
    ensures { result ≡ rules.member_place (checked_of program.now) class member }
{
    match base_of(program, class) {
        Some(_) => u64::from(member) + 1,
        None => u64::from(member),
    }
}

// An object in which no int is set, whose parts lie less than so deep.
#[cycle(unset)]
fn unset_within(
    alloc: Global,
    most: usize,
    program: &Checked,
    ty: ObjectType,
) -> Result<Part, NoMemory>
    ensures { IfOk result (λ a. part_of a ≡ unset_within most (checked_of program.now) (type_of ty)) }
{
    match ty {
        ObjectType::Class(class) if most > 0 => {
            let types = parts_of(alloc, program, class)?;
            let parts = unset_parts(alloc, most - 1, program, types.as_slice())?;
            Ok(Part::Object(class, Box::new(alloc, parts)?))
        }
        _ => Ok(Part::Cell(None)),
    }
}

#[cycle(unset)]
fn unset_parts(
    alloc: Global,
    most: usize,
    program: &Checked,
    types: &[ObjectType],
) -> Result<Parts, NoMemory>
    ensures { IfOk result (λ a. parts_of a ≡ parts_from (map (unset_within most (checked_of program.now)) (map type_of types.now))) }
{
    let Some((ty, types)) = types.split_first() else {
        return Ok(Parts::None);
    };
    let part = unset_within(alloc, most, program, *ty)?;
    let more = unset_parts(alloc, most, program, types)?;
    Ok(Parts::Then(part, Box::new(alloc, more)?))
}

/// An object in which no int is set.
pub fn unset(alloc: Global, program: &Checked, ty: ObjectType) -> Result<Part, NoMemory>
    ensures { IfOk result (λ a. part_of a ≡ unset (checked_of program.now) (type_of ty)) }
{
    match program.classes.len().checked_add(1) {
        Some(most) => unset_within(alloc, most, program, ty),
        None => Err(NoMemory),
    }
}
