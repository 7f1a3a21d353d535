// What an expression calls, once its arguments are there.

ghost use Rattle.std.specs.Prelude.{map};
ghost use Rattle.cxx_ast.specs.View.{checked_of};
ghost use Rattle.meaning_forms.specs.Expression as rules;
ghost use Rattle.meaning_forms.specs.Frame.{lvalue as lvalue_rule};
ghost use Rattle.meaning_forms.specs.Running.{function, method};
ghost use Rattle.meaning_forms.specs.Throw as throw_rules;
ghost use Rattle.meaning_forms.specs.World.{as_class, nowhere};
ghost use Rattle.scope_world.specs.Gives.{Gives};
ghost use Rattle.scope_world.specs.Inward.{argument_of, context_of, frame_of};
ghost use Rattle.scope_world.specs.Seen.{world_of};
ghost use Rattle.scope_flow.specs.Always.{full_call, always};

use crate::arguments::value_at;
use cxx_ast::name::Name;
use scope_flow::{Callee, Calls};
use scope_world::{Argument, Context, Frame, Halt, Outside, Reference, World, lvalue};

/// A function is called.
#[inline(never)]
#[tactic(auto, using(crate::proofs::Evaluated::called_at))]
pub fn call_function<G: Outside, C: Calls<G>>(
    calls: &C,
    c: &Context<'_>,
    w: &mut World<G>,
    n: u32,
    given: &[Argument],
) -> Result<i32, Halt>
    requires { C.answers calls.now c.now.depth }
    ensures { Gives (full_call (checked_of c.now.program.now) (function n) nowhere (map argument_of given.now) (context_of c.now) (world_of G.told c.now.depth w.old)) result (world_of G.told c.now.depth w.new) }
{
    let nothing = Reference::whole(c.alloc, 0);
    calls.call(c, w, Callee::Function(n), &nothing, given)
}

/// A function of a class is called on the object that an lvalue names.
#[inline(never)]
#[tactic(auto, using(scope_flow::proofs::Passing::passing, crate::proofs::Evaluated::called_on))]
pub fn call_method<G: Outside, C: Calls<G>>(
    calls: &C,
    c: &Context<'_>,
    w: &mut World<G>,
    frame: &Frame<'_>,
    class: u32,
    place: u32,
    object: &[Name],
    given: &[Argument],
) -> Result<i32, Halt>
    requires { C.answers calls.now c.now.depth }
    ensures { Gives (full_call (checked_of c.now.program.now) (method class place) (as_class (world_of G.told c.now.depth w.old) class (lvalue_rule (checked_of c.now.program.now) (world_of G.told c.now.depth w.old) (frame_of frame.now) object.now)) (map argument_of given.now) (context_of c.now) (world_of G.told c.now.depth w.old)) result (world_of G.told c.now.depth w.new) }
{
    let at = lvalue(c, w, frame, object)?;
    let at = w.as_class(class, at)?;
    calls.call(c, w, Callee::Method(class, place as usize), &at, given)
}

/// A module is called with two arguments: its number and an int.
#[inline(never)]
#[tactic(auto, using(scope_flow::proofs::Passing::passing, crate::proofs::Evaluated::module_at))]
pub fn call_numbered_module<G: Outside, C: Calls<G>>(
    calls: &C,
    c: &Context<'_>,
    w: &mut World<G>,
    given: &[Argument],
) -> Result<i32, Halt>
    requires { C.answers calls.now c.now.depth }
    ensures { Gives (throw_rules.call_module (always (checked_of c.now.program.now)) (rules.value_at (map argument_of given.now) 0) (context_of c.now) (world_of G.told c.now.depth w.old)) result (world_of G.told c.now.depth w.new) }
{
    scope_flow::call_module(calls, c, w, value_at(given, 0), value_at(given, 1))
}
