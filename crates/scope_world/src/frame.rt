// The variables of a call, and what names stand for in it.

ghost use Rattle.std.specs.Prelude.{◌≡◌, ◌++◌, ◌∷◌, [], ℕ, IfOk, map, option_map, unwrap_or, find, reverse, ◌==◌};
ghost use Rattle.cxx_ast.specs.View.{checked_of, option_of};
ghost use Rattle.meaning_forms.specs.Frame as rules;
ghost use Rattle.cxx_ast.specs.declared.types.Param.{Param as ParamMeant};
ghost use Rattle.meaning_forms.specs.World.{Reference as ReferenceMeant, nowhere};
ghost use Rattle.meaning_forms.specs.Frame.{Frame as FrameMeant};
ghost use Rattle.meaning_forms.specs.Outcome.{done};
ghost use Rattle.scope_world.specs.Inward.{argument_of, first_frame, frame_of, locals_of, variable_of};
ghost use Rattle.scope_world.specs.Objects.{reference_of};
ghost use Rattle.scope_world.specs.Seen.{world_of};

use crate::NoMemory;
use crate::class::class_named;
use crate::context::Context;
use crate::object::{Part, Reference};
use crate::outside::Outside;
use crate::world::World;
use cxx_ast::name::{Bound, Name};
use cxx_ast::types::{Param, Ty};

/// A variable by its number in its function, and what it names.
#[derive(Drop)]
pub struct Variable {
    pub number: u32,
    pub reference: Reference,
}

/// Local variables, newest first.
#[derive(Clone, Copy)]
pub enum Locals<'a> {
    None,
    More(&'a Variable, &'a Locals<'a>),
}

/// The object that a member function works on, the parameters of the call, and the local variables in reach.
#[derive(Clone, Copy)]
pub struct Frame<'a> {
    pub this: &'a Reference,
    pub parameters: &'a [Variable],
    pub locals: &'a Locals<'a>,
}

/// An argument of a call.
#[derive(Drop)]
pub enum Argument {
    Value(i32),
    Place(Reference),
}

impl Variable {
    /// The variable that a name declares.
    pub fn new(name: &Name, reference: Reference) -> Self
        ensures { variable_of result ≡ record { number = rules.local_number name.now.bound; reference = reference_of reference } }
    {
        let number = match name.bound {
            Bound::Local(number) => number,
            _ => 0,
        };
        Variable { number, reference }
    }
}

// The newest variable with the number.
fn newest(variables: &[Variable], number: u32) -> Option<&Variable>
    ensures { (option_map (λ x. x.now) result) ≡ find (λ x. x.number == number) (reverse variables.now) }
{
    variables.iter().rev().find(|x| x.number == number)
}

// What the parameter with the number names.
fn parameter<'a>(variables: &'a [Variable], number: u32) -> Option<&'a Reference>
    ensures { unwrap_or (option_of reference_of (option_map (λ x. x.now) result)) nowhere ≡ rules.variable_in (map variable_of (reverse variables.now)) number }
{
    match newest(variables, number) {
        Some(x) => Some(&x.reference),
        None => None,
    }
}

// What the newest variable with the number names.
fn place_of<'a>(
    locals: &'a Locals<'a>,
    parameters: &'a [Variable],
    number: u32,
) -> Option<&'a Reference>
    ensures { unwrap_or (option_of reference_of (option_map (λ x. x.now) result)) nowhere ≡ rules.variable_in (locals_of locals.now ++ map variable_of (reverse parameters.now)) number }
{
    match locals {
        Locals::None => parameter(parameters, number),
        Locals::More(first, more) => {
            if first.number == number {
                Some(&first.reference)
            } else {
                place_of(more, parameters, number)
            }
        }
    }
}

// What a name names by itself.
fn named<G: Outside>(
    c: &Context<'_>,
    w: &World<G>,
    frame: &Frame<'_>,
    bound: Bound,
) -> Result<Reference, NoMemory>
    ensures { (d : ℕ) → IfOk result (λ r. reference_of r ≡ rules.named (checked_of c.now.program.now) (world_of G.told d w.now) (frame_of frame.now) bound) }
{
    match bound {
        Bound::Global(number) => Ok(Reference::whole(c.alloc, number as usize)),
        Bound::Local(number) => match place_of(frame.locals, frame.parameters, number) {
            Some(it) => it.copied(c.alloc),
            None => Ok(Reference::whole(c.alloc, 0)),
        },
        Bound::Field(class, member) => {
            w.member(c.program, class, member, frame.this.copied(c.alloc)?)
        }
        _ => Ok(Reference::whole(c.alloc, 0)),
    }
}

// What a name names after a dot.
fn member_named<G: Outside>(
    c: &Context<'_>,
    w: &World<G>,
    bound: Bound,
    at: Reference,
) -> Result<Reference, NoMemory>
    ensures { (d : ℕ) → IfOk result (λ r. reference_of r ≡ rules.member_named (checked_of c.now.program.now) (world_of G.told d w.now) bound (reference_of at)) }
{
    match bound {
        Bound::Field(class, member) => w.member(c.program, class, member, at),
        _ => Ok(at),
    }
}

/// What `a.b.c` names; with no name at all, the object that the function works on.
pub fn lvalue<G: Outside>(
    c: &Context<'_>,
    w: &World<G>,
    frame: &Frame<'_>,
    names: &[Name],
) -> Result<Reference, NoMemory>
    ensures { (d : ℕ) → IfOk result (λ r. reference_of r ≡ rules.lvalue (checked_of c.now.program.now) (world_of G.told d w.now) (frame_of frame.now) names.now) }
{
    let Some((first, more)) = names.split_first() else {
        return frame.this.copied(c.alloc);
    };
    let mut at = named(c, w, frame, first.bound)?;
    let mut rest = more;
    'names: while let Some((name, others)) = rest.split_first() {
        at = member_named(c, w, name.bound, at)?;
        rest = others;
    }
    Ok(at)
}

/// What a reference of a type names, bound to an lvalue.
pub fn bound_as<G: Outside>(w: &World<G>, ty: &Ty, at: Reference) -> Result<Reference, NoMemory>
    ensures { (d : ℕ) → IfOk result (λ r. reference_of r ≡ rules.bound_as (world_of G.told d w.now) ty.now (reference_of at)) }
{
    match ty {
        Ty::ObjectRef(_, name) => w.as_class(class_named(name), at),
        _ => Ok(at),
    }
}

// What a parameter names: by value a new object, and by reference what the argument names.
fn bind<G: Outside>(
    c: &Context<'_>,
    w: &mut World<G>,
    argument: &Argument,
) -> Result<Reference, NoMemory>
    ensures { (d : ℕ) (x : ParamMeant) (f : FrameMeant) → IfOk result (λ r. rules.with_argument x (argument_of argument.now) f (world_of G.told d w.old) ≡ done (rules.with_parameter x.name (reference_of r) f) (world_of G.told d w.new)) }
{
    match argument {
        Argument::Value(value) => {
            let object = w.new_object(Part::Cell(Some(*value)))?;
            Ok(Reference::whole(c.alloc, object))
        }
        Argument::Place(it) => it.copied(c.alloc),
    }
}

// A parameter comes in reach, if it has a name.
fn declare(
    variables: &mut Vec<Variable>,
    name: &Option<Name>,
    reference: Reference,
) -> Result<(), NoMemory>
    ensures { (this : ReferenceMeant) → IfOk result (λ done. first_frame this variables.new.items ≡ rules.with_parameter name.now (reference_of reference) (first_frame this variables.old.items)) }
{
    match name {
        Some(name) => {
            variables.push(Variable::new(name, reference))?;
            Ok(())
        }
        None => Ok(()),
    }
}

fn bind_all<G: Outside>(
    c: &Context<'_>,
    w: &mut World<G>,
    parameters: &[Param],
    given: &[Argument],
    variables: &mut Vec<Variable>,
) -> Result<(), NoMemory>
    ensures { (d : ℕ) (this : ReferenceMeant) → IfOk result (λ a. rules.with_arguments parameters.now (map argument_of given.now) (first_frame this variables.old.items) (world_of G.told d w.old) ≡ done (first_frame this variables.new.items) (world_of G.told d w.new)) }
{
    let (Some((parameter, parameters)), Some((argument, given))) = (
        parameters.split_first(),
        given.split_first(),
    ) else {
        return Ok(());
    };
    let reference = bind(c, w, argument)?;
    declare(variables, &parameter.name, reference)?;
    bind_all(c, w, parameters, given, variables)
}

/// The parameters of a call, bound to its arguments.
pub fn parameters_bound<G: Outside>(
    c: &Context<'_>,
    w: &mut World<G>,
    parameters: &[Param],
    given: &[Argument],
) -> Result<Vec<Variable>, NoMemory>
    ensures { (d : ℕ) (this : ReferenceMeant) → IfOk result (λ bound. rules.with_arguments parameters.now (map argument_of given.now) (record { this = this; variables = [] }) (world_of G.told d w.old) ≡ done (first_frame this bound.items) (world_of G.told d w.new)) }
{
    let mut variables = Vec::new(c.alloc);
    bind_all(c, w, parameters, given, &mut variables)?;
    Ok(variables)
}
