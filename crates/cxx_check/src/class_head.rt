// The heads of classes: bases, data members, and the heads of functions.
ghost use Rattle.std.specs.Prelude.{◌≡◌, [], ◌++◌, IfOk, map, flat_map, None};
ghost use Rattle.cxx_ast.specs.declared.name.Bound.TheVariants.{Free};
ghost use Rattle.cxx_ast.specs.Environment.{class_kind, same_kind};
ghost use Rattle.cxx_ast.specs.ClassRules.{type_place};
ghost use Rattle.cxx_ast.specs.Declare.{name_of, other_class, other_kind, bare_field, bare_signature};
ghost use Rattle.cxx_ast.specs.Finding.{breaks_if};
ghost use Rattle.cxx_ast.specs.Locals.{outermost};
ghost use Rattle.cxx_ast.specs.Rule.{incomplete_class};
ghost use Rattle.cxx_ast.specs.TypeNames.{signature, type_kind, type_found};
ghost use Rattle.cxx_ast.specs.View.{function_of, class_of};
ghost use Rattle.cxx_check.specs.ClassParts.{base_in, base_number_in, bare_class, field_in, field_of_in, method_head_in, method_of_in};
ghost use Rattle.cxx_check.specs.FunctionParts.{head_found};
ghost use Rattle.cxx_rules.specs.KindOf.{kind_of};
ghost use Rattle.cxx_rules.specs.Summary.{seen};

use crate::NoMemory;
use crate::held::put;
use cxx_ast::declaration::{ClassDecl, Func};
use cxx_ast::name::Name;
use cxx_ast::types::{Param, Ty};
use cxx_rules::{
    ClassEntry, Environment, Field, Found, Kind, Rule, Scope, Signature, Size, class_found,
    class_of_name, head_types_found, params_twice, signature, type_found, type_kind,
};
use std::alloc::Global;

/// What a base breaks, where the class is known by its name.
#[tactic(auto, using(cxx_rules::proofs::FoundLaws::findings))]
pub fn base_found<'t>(
    alloc: Global,
    env: &Environment<'t>,
    class: usize,
    base: &Option<Name>,
) -> Found
    ensures { result ≡ seen env.now (base_in env.now class base.now) }
{
    match base {
        None => Found::nothing(),
        Some(name) => {
            let scope = Scope::outermost(alloc, None, None);
            let is_own = class_of_name(env, &scope, name).is(Kind::Class(class));
            class_found(env, &scope, name).and(Found::broken_if(
                is_own,
                Rule::IncompleteClass,
                name.place,
            ))
        }
    }
}

// A base, unless it is the class itself.
fn other_class(class: usize, kind: Kind) -> Option<usize>
    ensures { result ≡ other_class class (kind_of kind) }
{
    match kind {
        Kind::Class(base) => { if base == class { None } else { Some(base) } }
        _ => None,
    }
}

/// The number of a base, where the class is known by its name.
pub fn base_number<'t>(
    alloc: Global,
    env: &Environment<'t>,
    class: usize,
    base: &Option<Name>,
) -> Option<usize>
    ensures { result ≡ base_number_in env.now class base.now }
{
    match base {
        None => None,
        Some(name) => {
            let scope = Scope::outermost(alloc, None, None);
            other_class(class, class_of_name(env, &scope, name))
        }
    }
}

/// The name of a parameter or a data member, or that of none.
pub fn name_of<'t>(nameless: &'t Name, param: &'t Param) -> &'t Name
    requires { nameless.now ≡ record { text = []; place = 0; bound = Free } }
    ensures { result.now ≡ name_of param.now }
{
    match &param.name {
        None => nameless,
        Some(name) => name,
    }
}

// Data members by their names alone.
fn bare_fields<'t>(
    alloc: Global,
    nameless: &'t Name,
    members: &'t [Param],
) -> Result<Vec<Field<'t>>, NoMemory>
    requires { nameless.now ≡ record { text = []; place = 0; bound = Free } }
    ensures { IfOk result (λ fields. fields.items ≡ map bare_field members.now) }
{
    let mut fields = Vec::new(alloc);
    for member in members {
        fields.push(Field::new(name_of(nameless, member), Kind::Nothing))?;
    }
    Ok(fields)
}

// A function by its name alone.
fn bare_signature<'t>(alloc: Global, f: &'t Func) -> Signature<'t>
    ensures { result ≡ bare_signature (function_of f.now) }
{
    Signature::new(&f.name, f.kind, Kind::Nothing, Vec::new(alloc), None, false)
}

// Functions by their names alone.
fn bare_signatures<'t>(alloc: Global, funcs: &'t [Func]) -> Result<Vec<Signature<'t>>, NoMemory>
    ensures { IfOk result (λ signatures. signatures.items ≡ map bare_signature (map function_of funcs.now)) }
{
    let mut signatures = Vec::new(alloc);
    for f in funcs {
        signatures.push(bare_signature(alloc, f))?;
    }
    Ok(signatures)
}

/// A class by the names of its parts alone.
pub fn bare_class<'t>(
    alloc: Global,
    nameless: &'t Name,
    base: Option<usize>,
    class: &'t ClassDecl,
) -> Result<ClassEntry<'t>, NoMemory>
    requires { nameless.now ≡ record { text = []; place = 0; bound = Free } }
    ensures { IfOk result (λ entry. entry ≡ bare_class base (class_of class.now)) }
{
    let fields = bare_fields(alloc, nameless, class.members.as_slice())?;
    let functions = bare_signatures(alloc, class.funcs.as_slice())?;
    let size = Size::new(alloc, 4)?;
    let text = class.name.text.as_bytes();
    ClassEntry::new(alloc, text, base, fields, functions, size, 1, true)
}

// The place of a type's name.
fn type_place(member: &Param) -> u32
    ensures { result ≡ type_place member.now }
{
    match &member.ty {
        Ty::Object(name) => name.place,
        _ => 0,
    }
}

// What the type of a data member breaks.
#[tactic(auto, using(cxx_rules::proofs::FoundLaws::findings))]
fn field_found<'t>(env: &Environment<'t>, scope: &Scope<'t>, class: usize, member: &Param) -> Found
    ensures { result ≡ seen env.now (type_found env.now scope.now member.now.ty ++ breaks_if (same_kind (type_kind env.now scope.now member.now.ty) (class_kind class)) incomplete_class (type_place member.now)) }
{
    let is_own = type_kind(env, scope, &member.ty).is(Kind::Class(class));
    type_found(env, scope, &member.ty).and(Found::broken_if(
        is_own,
        Rule::IncompleteClass,
        type_place(member),
    ))
}

// The type of a data member, unless it is that of its class.
fn other_kind(class: usize, kind: Kind) -> Kind
    ensures { kind_of result ≡ other_kind class (kind_of kind) }
{
    match kind {
        Kind::Class(k) => {
            if k == class {
                Kind::Nothing
            } else {
                Kind::Class(k)
            }
        }
        other => other,
    }
}

/// The data members of a class, and what their types break.
#[derive(Drop)]
pub struct Fields<'t> {
    pub found: Found,
    pub fields: Vec<Field<'t>>,
}

/// Data members in order, where the names of the class's parts are known.
pub fn data_members<'t>(
    alloc: Global,
    env: &Environment<'t>,
    class: usize,
    nameless: &'t Name,
    members: &'t [Param],
) -> Result<Fields<'t>, NoMemory>
    requires { nameless.now ≡ record { text = []; place = 0; bound = Free } }
    ensures found { IfOk result (λ r. r.found ≡ seen env.now (flat_map (field_in env.now class) members.now)) }
    ensures fields { IfOk result (λ r. r.fields.items ≡ map (field_of_in env.now class) members.now) }
{
    let mut found = Found::nothing();
    let mut fields = Vec::new(alloc);
    for member in members {
        let name = name_of(nameless, member);
        let scope = Scope::outermost(alloc, Some(class), Some(name.place));
        found = found.and(field_found(env, &scope, class, member));
        let kind = other_kind(class, type_kind(env, &scope, &member.ty));
        fields.push(Field::new(name, kind))?;
    }
    Ok(Fields { found, fields })
}

// What the head of a function breaks.
#[tactic(auto, using(cxx_rules::proofs::FoundLaws::findings))]
fn head_found<'t>(
    alloc: Global,
    env: &Environment<'t>,
    scope: &Scope<'t>,
    f: &Func,
) -> Result<Found, NoMemory>
    ensures { IfOk result (λ found. found ≡ seen env.now (head_found env.now scope.now (function_of f.now))) }
{
    let twice = params_twice(alloc, env, f.params.as_slice())?;
    Ok(head_types_found(env, scope, f).and(twice))
}

/// A function by its head, and what its head breaks.
#[derive(Drop)]
pub struct Head<'t> {
    pub found: Found,
    pub signature: Signature<'t>,
}

/// The head of a function, whose names are sought in a class before a place, or outside of classes.
pub fn function_head<'t>(
    alloc: Global,
    env: &Environment<'t>,
    own: Option<usize>,
    limit: Option<u32>,
    f: &'t Func,
) -> Result<Head<'t>, NoMemory>
    ensures found { IfOk result (λ h. h.found ≡ seen env.now (head_found env.now (record outermost { own = own; limit = limit }) (function_of f.now))) }
    ensures signature { IfOk result (λ h. h.signature ≡ signature env.now (record outermost { own = own; limit = limit }) (function_of f.now)) }
{
    let scope = Scope::outermost(alloc, own, limit);
    let found = head_found(alloc, env, &scope, f)?;
    let signature = signature(alloc, env, &scope, f)?;
    Ok(Head { found, signature })
}

/// The functions of a class by their heads, and what their heads break.
#[derive(Drop)]
pub struct Heads<'t> {
    pub found: Found,
    pub signatures: Vec<Signature<'t>>,
}

/// The heads of functions in order, where the names of the class's parts are known.
pub fn function_heads<'t>(
    alloc: Global,
    env: &Environment<'t>,
    class: usize,
    funcs: &'t [Func],
) -> Result<Heads<'t>, NoMemory>
    ensures found { IfOk result (λ r. r.found ≡ seen env.now (flat_map (method_head_in env.now class) (map function_of funcs.now))) }
    ensures signatures { IfOk result (λ r. r.signatures.items ≡ map (method_of_in env.now class) (map function_of funcs.now)) }
{
    let mut found = Found::nothing();
    let mut signatures = Vec::new(alloc);
    for f in funcs {
        let head = function_head(alloc, env, Some(class), Some(f.name.place), f)?;
        found = found.and(head.found);
        put(head.signature, &mut signatures)?;
    }
    Ok(Heads { found, signatures })
}
