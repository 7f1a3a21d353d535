// Classes with their names bound.
ghost use Rattle.std.specs.Prelude.{◌≡◌, [], IfOk, OnOk, map, length};
ghost use Rattle.cxx_ast.specs.declared.name.Bound.TheVariants.{Class as ClassBound, Free};
ghost use Rattle.cxx_ast.specs.Checked.{resolve_base, resolve_class_tree, resolve_fields};
ghost use Rattle.cxx_ast.specs.Declare.{declare_behind, head_environment, next_class, with_class};
ghost use Rattle.cxx_ast.specs.Environment.{Environment as Known};
ghost use Rattle.cxx_ast.specs.Plain.{class_declaration};
ghost use Rattle.cxx_ast.specs.Resolve.{bind};
ghost use Rattle.cxx_ast.specs.View.{class_of, function_of};
ghost use Rattle.cxx_check.specs.ClassParts.{bare_class, base_number_in};
ghost use Rattle.cxx_check.specs.HeadingOf.{heading_of, method_heading};
ghost use Rattle.cxx_check.specs.TreeParts.{base_tree, fields_tree, methods_tree};

use crate::NoMemory;
use crate::bound::{bind, numbered};
use crate::class_head::base_number;
use crate::headed::{enter_names, head};
use crate::heading::{Heading, bound_heads};
use crate::tree::{base_tree, fields_tree, methods_tree};
use cxx_ast::declaration::{ClassDecl, Func};
use cxx_ast::name::{Bound, Name};
use cxx_ast::types::Param;
use cxx_rules::Environment;
use std::alloc::Global;

// The data members of a class and the heads of its functions, with their names bound.
#[derive(Drop)]
struct MembersAndHeads {
    members: Vec<Param>,
    heads: Vec<Heading>,
}

// What the head of a class declares, with its names bound.
#[derive(Drop)]
struct HeadTree {
    base: Option<Name>,
    members: Vec<Param>,
    heads: Vec<Heading>,
}

// The name of a class and its functions, with their names bound.
#[derive(Drop)]
struct NameAndFunctions {
    name: Name,
    funcs: Vec<Func>,
}

// Data members and heads, where the names of the class's parts are known.
fn members_and_heads<'t>(
    alloc: Global,
    env: &Environment<'t>,
    number: usize,
    nameless: &'t Name,
    class: &'t ClassDecl,
) -> Result<MembersAndHeads, NoMemory>
    requires { nameless.now ≡ record { text = []; place = 0; bound = Free } }
    ensures members { IfOk result (λ r. r.members.items ≡ fields_tree env.now number 0 (class_of class.now).members) }
    ensures heads { IfOk result (λ r. map heading_of r.heads.items ≡ map (method_heading env.now number) (class_of class.now).functions) }
{
    let members = fields_tree(alloc, env, number, nameless, class.members.as_slice())?;
    let heads = bound_heads(alloc, env, number, class.funcs.as_slice())?;
    Ok(MembersAndHeads { members, heads })
}

// The same where the name of the class is known alone.
fn bound_inside<'t>(
    alloc: Global,
    env: &mut Environment<'t>,
    number: usize,
    nameless: &'t Name,
    class: &'t ClassDecl,
) -> Result<MembersAndHeads, NoMemory>
    requires { nameless.now ≡ record { text = []; place = 0; bound = Free } }
    ensures env { OnOk result (env.new ≡ env.old) }
    ensures members { IfOk result (λ r. r.members.items ≡ fields_tree (with_class env.old (bare_class (base_number_in env.old number (class_of class.now).base) (class_of class.now))) number 0 (class_of class.now).members) }
    ensures heads { IfOk result (λ r. map heading_of r.heads.items ≡ map (method_heading (with_class env.old (bare_class (base_number_in env.old number (class_of class.now).base) (class_of class.now))) number) (class_of class.now).functions) }
{
    let base = base_number(alloc, env, number, &class.base);
    enter_names(alloc, env, base, nameless, class)?;
    let inside = members_and_heads(alloc, env, number, nameless, class)?;
    env.remove_class();
    Ok(inside)
}

// The head of a class, where its name is known.
fn head_tree<'t>(
    alloc: Global,
    env: &mut Environment<'t>,
    number: usize,
    nameless: &'t Name,
    class: &'t ClassDecl,
) -> Result<HeadTree, NoMemory>
    requires { nameless.now ≡ record { text = []; place = 0; bound = Free } }
    ensures env { OnOk result (env.new ≡ env.old) }
    ensures base { IfOk result (λ r. r.base ≡ base_tree env.old (class_of class.now).base) }
    ensures members { IfOk result (λ r. r.members.items ≡ fields_tree (with_class env.old (bare_class (base_number_in env.old number (class_of class.now).base) (class_of class.now))) number 0 (class_of class.now).members) }
    ensures heads { IfOk result (λ r. map heading_of r.heads.items ≡ map (method_heading (with_class env.old (bare_class (base_number_in env.old number (class_of class.now).base) (class_of class.now))) number) (class_of class.now).functions) }
{
    let base = base_tree(alloc, env, &class.base)?;
    let inside = bound_inside(alloc, env, number, nameless, class)?;
    Ok(HeadTree {
        base,
        members: inside.members,
        heads: inside.heads,
    })
}

// The head of a class, which is known from here on.
fn known_class<'t>(
    alloc: Global,
    env: &mut Environment<'t>,
    nameless: &'t Name,
    class: &'t ClassDecl,
) -> Result<HeadTree, NoMemory>
    requires { nameless.now ≡ record { text = []; place = 0; bound = Free } }
    ensures env { OnOk result (env.new ≡ declare_behind env.old (class_declaration (class_of class.now))) }
    ensures base { IfOk result (λ r. r.base ≡ resolve_base env.old (class_of class.now) (class_of class.now).base) }
    ensures members { IfOk result (λ r. r.members.items ≡ resolve_fields env.old (class_of class.now) 0 (class_of class.now).members) }
    ensures heads { IfOk result (λ r. map heading_of r.heads.items ≡ map (method_heading (head_environment env.old (class_of class.now)) (next_class env.old)) (class_of class.now).functions) }
{
    let number = env.class_count();
    let entry = head(alloc, env, nameless, class)?.entry;
    let tree = head_tree(alloc, env, number, nameless, class)?;
    env.add_class(alloc, entry)?;
    Ok(tree)
}

// The name of a class and its functions by their heads, where the class is known.
fn name_and_functions<'t>(
    alloc: Global,
    env: &Environment<'t>,
    number: usize,
    heads: &[Heading],
    class: &'t ClassDecl,
) -> Result<NameAndFunctions, NoMemory>
    requires { length heads.now ≡ length (class_of class.now).functions }
    ensures name { IfOk result (λ r. r.name ≡ bind class.now.name (ClassBound number)) }
    ensures functions { (head : Known) → map heading_of heads.now ≡ map (method_heading head number) (class_of class.now).functions → IfOk result (λ r. map function_of r.funcs.items ≡ methods_tree head env.now number 0 (class_of class.now).functions) }
{
    let bound = Bound::Class(numbered(number)?);
    let name = bind(alloc, &class.name, bound)?;
    let funcs = methods_tree(alloc, env, number, heads, class.funcs.as_slice())?;
    Ok(NameAndFunctions { name, funcs })
}

/// A class, which is known from here on.
pub fn class_tree<'t>(
    alloc: Global,
    env: &mut Environment<'t>,
    nameless: &'t Name,
    class: &'t ClassDecl,
) -> Result<ClassDecl, NoMemory>
    requires { nameless.now ≡ record { text = []; place = 0; bound = Free } }
    ensures env { OnOk result (env.new ≡ declare_behind env.old (class_declaration (class_of class.now))) }
    ensures class { IfOk result (λ c. class_of c ≡ resolve_class_tree env.old (class_of class.now)) }
{
    let number = env.class_count();
    let tree = known_class(alloc, env, nameless, class)?;
    let inside = name_and_functions(alloc, env, number, tree.heads.as_slice(), class)?;
    Ok(ClassDecl {
        name: inside.name,
        base: tree.base,
        members: tree.members,
        funcs: inside.funcs,
    })
}
