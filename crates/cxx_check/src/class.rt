// Classes.
ghost use Rattle.std.specs.Prelude.{◌≡◌, [], IfOk, OnOk, Some, map, flat_map};
ghost use Rattle.cxx_ast.specs.declared.name.Bound.TheVariants.{Free};
ghost use Rattle.cxx_ast.specs.ClassRules.{class_rules_found};
ghost use Rattle.cxx_ast.specs.Declare.{next_class, declare_behind};
ghost use Rattle.cxx_ast.specs.Environment.{Environment as Known};
ghost use Rattle.cxx_ast.specs.Plain.{Class, class_declaration};
ghost use Rattle.cxx_ast.specs.View.{function_of, class_of};
ghost use Rattle.cxx_check.specs.ClassParts.{method_inside};
ghost use Rattle.cxx_rules.specs.Summary.{seen};

use crate::NoMemory;
use crate::headed::head;
use crate::inside::behind_found;
use crate::own::own_found;
use cxx_ast::declaration::{ClassDecl, Func};
use cxx_ast::name::Name;
use cxx_rules::{Environment, Found, Rule};
use std::alloc::Global;

// What stands behind the heads of functions, in order.
fn insides_found<'t>(
    alloc: Global,
    env: &Environment<'t>,
    number: usize,
    funcs: &'t [Func],
) -> Result<Found, NoMemory>
    ensures { (old : Known) (c : Class) → next_class old ≡ number → env.now ≡ declare_behind old (class_declaration c) → IfOk result (λ found. found ≡ seen env.now (flat_map (method_inside old c) (map function_of funcs.now))) }
{
    let mut found = Found::nothing();
    for f in funcs {
        let part = behind_found(alloc, env, Some(number), f)?;
        found = found.and(part);
    }
    Ok(found)
}

/// A class, which is known from here on.
pub fn class<'t>(
    alloc: Global,
    env: &mut Environment<'t>,
    nameless: &'t Name,
    class: &'t ClassDecl,
) -> Result<Found, NoMemory>
    requires { nameless.now ≡ record { text = []; place = 0; bound = Free } }
    ensures env { OnOk result (env.new ≡ declare_behind env.old (class_declaration (class_of class.now))) }
    ensures found { IfOk result (λ found. found ≡ seen env.old (class_rules_found env.old (class_of class.now))) }
{
    let number = env.class_count();
    let place = class.name.place;
    let is_taken = env.is_taken(class.name.text.as_bytes());
    let taken = Found::broken_if(is_taken, Rule::Redeclared, place);
    let heads = head(alloc, env, nameless, class)?;
    let own = own_found(alloc, env, number, nameless, class, &heads.entry)?;
    let found = taken.and(heads.found).and(own);
    env.add_class(alloc, heads.entry)?;
    let behind = insides_found(alloc, env, number, class.funcs.as_slice())?;
    Ok(found.and(behind))
}
