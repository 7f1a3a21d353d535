// The parts of an object, which its constructor builds and its destructor destroys.

ghost use Rattle.std.specs.Prelude.{◌≡◌, ℕ, map, option_map};
ghost use Rattle.cxx_ast.specs.View.{checked_of, expressions_of, initialiser_of, option_of};
ghost use Rattle.meaning_forms.specs.World.{Reference as ReferenceMeant, part as part_meant};
ghost use Rattle.meaning_forms.specs.Call as call_rules;
ghost use Rattle.scope_world.specs.Gives.{Gives, GivesBy, flow_of};
ghost use Rattle.scope_world.specs.Inward.{context_of, frame_of};
ghost use Rattle.scope_world.specs.Objects.{reference_of, type_of};
ghost use Rattle.scope_world.specs.Program.{function_or_none};
ghost use Rattle.scope_world.specs.Seen.{world_of};
ghost use Rattle.scope_flow.specs.Always.{always};
ghost use Rattle.scope_meaning.specs.Asked.{building_of};

use crate::expression::{construct, initial_value};
use crate::statement::statements;
use cxx_ast::declaration::{Func, Init};
use cxx_ast::expression::Expr;
use cxx_ast::name::Bound;
use cxx_ast::program::Checked;
use scope_flow::{Calls, Leaving, after_part, after_scope, copy_object, default_object};
use scope_world::{
    Context, Flow, Frame, Halt, ObjectType, Outside, Reference, World, body_of, member_place,
};

/// How a constructor builds the parts of its object: by default, as copies of another's, or by the initialisers of a function.
#[derive(Drop)]
pub enum Plan<'a> {
    Default,
    Copy(Reference),
    Declared(Option<&'a Func>),
}

// The place of the part that an initialiser names.
fn place_named(program: &Checked, bound: Bound) -> u64
    ensures { result ≡ call_rules.place_named (checked_of program.now) bound }
{
    match bound {
        Bound::Field(class, member) => member_place(program, class, member),
        _ => 0,
    }
}

// The arguments of the initialiser for the part with a place.
fn initialiser_for<'a>(program: &Checked, inits: &'a [Init], place: u64) -> Option<&'a [Expr]>
    ensures { option_of (λ x. expressions_of x.now) result ≡ call_rules.initialiser_for (checked_of program.now) (map initialiser_of inits.now) place }
{
    let mut rest = inits;
    'inits: while let Some((first, others)) = rest.split_first() {
        if place_named(program, first.name.bound) == place {
            return Some(first.args.as_slice());
        }
        rest = others;
    }
    None
}

fn initialisers_of(function: Option<&Func>) -> &[Init]
    ensures { map initialiser_of result.now ≡ (function_or_none (option_map (λ x. x.now) function.entry)).initialisers }
{
    match function {
        Some(it) => it.inits.as_slice(),
        None => &[],
    }
}

// An implicit default constructor sets an int to 0.
#[tactic(auto, using(scope_flow::proofs::Passing::passing, crate::proofs::Parted::zero_set, crate::proofs::Parted::default_built))]
fn default_part<G: Outside, C: Calls<G>>(
    calls: &C,
    c: &Context<'_>,
    w: &mut World<G>,
    target: &Reference,
    ty: ObjectType,
) -> Result<(), Halt>
    requires { C.answers calls.now c.now.depth }
    ensures { (this : ReferenceMeant) (i : ℕ) → (reference_of target.now) ≡ part_meant i this → Gives (call_rules.default_part (always (checked_of c.now.program.now)) this (context_of c.now) i (type_of ty) (world_of G.told c.now.depth w.old)) result (world_of G.told c.now.depth w.new) }
{
    match ty {
        ObjectType::Int => {
            w.write(target, 0);
            Ok(())
        }
        ObjectType::Class(class) => default_object(calls, c, w, class, target),
    }
}

#[tactic(auto, using(scope_flow::proofs::Passing::passing, crate::proofs::Parted::int_copied, crate::proofs::Parted::copy_unread, crate::proofs::Parted::object_copied))]
fn copy_part<G: Outside, C: Calls<G>>(
    calls: &C,
    c: &Context<'_>,
    w: &mut World<G>,
    target: &Reference,
    source: &Reference,
    ty: ObjectType,
) -> Result<(), Halt>
    requires { C.answers calls.now c.now.depth }
    ensures { (this from : ReferenceMeant) (i : ℕ) → (reference_of target.now) ≡ part_meant i this → reference_of source.now ≡ part_meant i from → Gives (call_rules.copy_part (always (checked_of c.now.program.now)) this from (context_of c.now) i (type_of ty) (world_of G.told c.now.depth w.old)) result (world_of G.told c.now.depth w.new) }
{
    match ty {
        ObjectType::Int => {
            let value = w.read(source)?;
            w.write(target, value);
            Ok(())
        }
        ObjectType::Class(class) => copy_object(calls, c, w, class, target, source),
    }
}

// A declared constructor builds a part by its initialiser; without one an object is default-constructed, and an int stays unset.
#[tactic(auto, using(scope_flow::proofs::Passing::passing, crate::proofs::Parted::int_initialised, crate::proofs::Parted::object_initialised, crate::proofs::Parted::object_by_default))]
fn initial_part<G: Outside, C: Calls<G>>(
    calls: &C,
    c: &Context<'_>,
    w: &mut World<G>,
    frame: &Frame<'_>,
    target: &Reference,
    initialiser: Option<&[Expr]>,
    ty: ObjectType,
) -> Result<(), Halt>
    requires { C.answers calls.now c.now.depth }
    ensures { (i : ℕ) → (reference_of target.now) ≡ part_meant i (reference_of frame.now.this.now) → Gives (call_rules.initial_part (always (checked_of c.now.program.now)) (frame_of frame.now) (context_of c.now) i (option_of (λ x. expressions_of x.now) initialiser.entry) (type_of ty) (world_of G.told c.now.depth w.old)) result (world_of G.told c.now.depth w.new) }
{
    match (initialiser, ty) {
        (None, ObjectType::Int) => Ok(()),
        (None, ObjectType::Class(class)) => default_object(calls, c, w, class, target),
        (Some(arguments), ObjectType::Int) => {
            let value = initial_value(calls, c, w, frame, arguments)?;
            w.write(target, value);
            Ok(())
        }
        (Some(arguments), ObjectType::Class(class)) => {
            construct(calls, c, w, frame, class, arguments, target)
        }
    }
}

#[tactic(auto, using(scope_flow::proofs::Passing::passing, crate::proofs::Parted::initialised_as))]
fn build_part<G: Outside, C: Calls<G>>(
    calls: &C,
    c: &Context<'_>,
    w: &mut World<G>,
    plan: &Plan<'_>,
    frame: &Frame<'_>,
    place: u64,
    ty: ObjectType,
) -> Result<(), Halt>
    requires { C.answers calls.now c.now.depth }
    ensures { Gives (building_of (always (checked_of c.now.program.now)) plan.now (frame_of frame.now) (context_of c.now) place (type_of ty) (world_of G.told c.now.depth w.old)) result (world_of G.told c.now.depth w.new) }
{
    let target = frame.this.part(c.alloc, place)?;
    match plan {
        Plan::Default => default_part(calls, c, w, &target, ty),
        Plan::Copy(source) => {
            let source = source.part(c.alloc, place)?;
            copy_part(calls, c, w, &target, &source, ty)
        }
        Plan::Declared(function) => {
            let initialiser = initialiser_for(c.program, initialisers_of(*function), place);
            initial_part(calls, c, w, frame, &target, initialiser, ty)
        }
    }
}

/// The parts of an object from a place on are built in order, then the body is done; where that is exited by an exception or a forced
/// unwind, the parts that are complete are destroyed in reverse order.
#[tactic(auto, using(scope_flow::proofs::Passing::passing, crate::proofs::Parted::part_built, crate::proofs::Parted::part_halted))]
pub fn build_parts<G: Outside, C: Calls<G>>(
    calls: &C,
    c: &Context<'_>,
    w: &mut World<G>,
    plan: &Plan<'_>,
    frame: &Frame<'_>,
    place: u64,
    types: &[ObjectType],
    body: Option<&Func>,
) -> Result<Flow, Halt>
    requires { C.answers calls.now c.now.depth }
    ensures parts { GivesBy flow_of (call_rules.build_parts (always (checked_of c.now.program.now)) (building_of (always (checked_of c.now.program.now)) plan.now (frame_of frame.now) (context_of c.now)) (reference_of frame.now.this.now) place (map type_of types.now) (context_of c.now) (call_rules.body_of (always (checked_of c.now.program.now)) (function_or_none (option_map (λ x. x.now) body.entry)) (frame_of frame.now) (context_of c.now)) (world_of G.told c.now.depth w.old)) result (world_of G.told c.now.depth w.new) }
{
    let Some(next) = place.checked_add(1) else {
        return Err(Halt::NoMemory);
    };
    let Some((ty, types)) = types.split_first() else {
        return statements(calls, c, w, frame, body_of(body));
    };
    build_part(calls, c, w, plan, frame, place, *ty)?;
    let target = frame.this.part(c.alloc, place)?;
    let outcome = build_parts(calls, c, w, plan, frame, next, types, body);
    after_part(calls, c, w, &Leaving::Object(*ty, &target), outcome)
}

/// A destructor's body is done in the scope of the parts from a place on, so they are destroyed after it in reverse order.
#[tactic(auto, using(scope_flow::proofs::Passing::passing, crate::proofs::Parted::destroyed_behind))]
pub fn destroy_parts<G: Outside, C: Calls<G>>(
    calls: &C,
    c: &Context<'_>,
    w: &mut World<G>,
    frame: &Frame<'_>,
    place: u64,
    types: &[ObjectType],
    body: Option<&Func>,
) -> Result<Flow, Halt>
    requires { C.answers calls.now c.now.depth }
    ensures parts { GivesBy flow_of (call_rules.destroy_parts (always (checked_of c.now.program.now)) (reference_of frame.now.this.now) place (map type_of types.now) (context_of c.now) (call_rules.body_of (always (checked_of c.now.program.now)) (function_or_none (option_map (λ x. x.now) body.entry)) (frame_of frame.now) (context_of c.now)) (world_of G.told c.now.depth w.old)) result (world_of G.told c.now.depth w.new) }
{
    let Some(next) = place.checked_add(1) else {
        return Err(Halt::NoMemory);
    };
    let Some((ty, types)) = types.split_first() else {
        return statements(calls, c, w, frame, body_of(body));
    };
    let target = frame.this.part(c.alloc, place)?;
    let outcome = destroy_parts(calls, c, w, frame, next, types, body);
    after_scope(calls, c, w, &Leaving::Object(*ty, &target), outcome)
}
