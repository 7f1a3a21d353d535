// What statements do that go no deeper into the tree than an expression.

ghost use Rattle.std.specs.Prelude.{◌≡◌, ℕ, IfOk};
ghost use Rattle.cxx_ast.specs.Plain.{evaluate};
ghost use Rattle.cxx_ast.specs.View.{checked_of, expression_of, option_of};
ghost use Rattle.meaning_forms.specs.Class.{class_type};
ghost use Rattle.meaning_forms.specs.Outcome.{done, new_object};
ghost use Rattle.meaning_forms.specs.Part.{unset};
ghost use Rattle.meaning_forms.specs.Statement as rules;
ghost use Rattle.scope_world.specs.Gives.{Gives, GivesBy, flow_of};
ghost use Rattle.scope_world.specs.Inward.{context_of, frame_of};
ghost use Rattle.scope_world.specs.Seen.{world_of};
ghost use Rattle.scope_flow.specs.Always.{always};
ghost use Rattle.scope_meaning.specs.Steps.{assigned, plainly};

use crate::NoMemory;
use crate::expression::value_of;
use crate::throw::int_object;
use cxx_ast::expression::Expr;
use cxx_ast::name::Name;
use scope_flow::Calls;
use scope_world::{Context, Flow, Frame, Halt, ObjectType, Outside, Part, World, lvalue, unset};

/// The object of a local int, unset without an initial value.
#[inline(never)]
pub fn local_cell<G: Outside, C: Calls<G>>(
    calls: &C,
    c: &Context<'_>,
    w: &mut World<G>,
    frame: &Frame<'_>,
    e: &Option<Expr>,
) -> Result<usize, Halt>
    requires { C.answers calls.now c.now.depth }
    ensures { Gives (rules.local_cell (always (checked_of c.now.program.now)) (frame_of frame.now) (option_of expression_of e.now) (context_of c.now) (world_of G.told c.now.depth w.old)) result (world_of G.told c.now.depth w.new) }
{
    match e {
        None => Ok(w.new_object(Part::Cell(None))?),
        Some(e) => int_object(calls, c, w, frame, e),
    }
}

/// The object of a local variable of a class, in which no int is set yet.
#[inline(never)]
#[tactic(auto, using(crate::proofs::Declared::object_made))]
pub fn unset_object<G: Outside>(
    c: &Context<'_>,
    w: &mut World<G>,
    class: u32,
) -> Result<usize, NoMemory>
    ensures { (d : ℕ) → IfOk result (λ a. new_object (unset (checked_of c.now.program.now) (class_type class)) (world_of G.told d w.old) ≡ done a (world_of G.told d w.new)) }
{
    let part = unset(c.alloc, c.program, ObjectType::Class(class))?;
    w.new_object(part)
}

/// The value that is returned, if any.
#[inline(never)]
pub fn returning<G: Outside, C: Calls<G>>(
    calls: &C,
    c: &Context<'_>,
    w: &mut World<G>,
    frame: &Frame<'_>,
    e: &Option<Expr>,
) -> Result<Flow, Halt>
    requires { C.answers calls.now c.now.depth }
    ensures { GivesBy flow_of (rules.returning (always (checked_of c.now.program.now)) (frame_of frame.now) (option_of expression_of e.now) (context_of c.now) (world_of G.told c.now.depth w.old)) result (world_of G.told c.now.depth w.new) }
{
    match e {
        None => Ok(Flow::Returns(None)),
        Some(e) => {
            let value = value_of(calls, c, w, frame, e)?;
            Ok(Flow::Returns(Some(value)))
        }
    }
}

/// An expression is evaluated, and its value dropped.
#[inline(never)]
pub fn evaluate<G: Outside, C: Calls<G>>(
    calls: &C,
    c: &Context<'_>,
    w: &mut World<G>,
    frame: &Frame<'_>,
    e: &Expr,
) -> Result<Flow, Halt>
    requires { C.answers calls.now c.now.depth }
    ensures { GivesBy flow_of (plainly (always (checked_of c.now.program.now)) (evaluate (expression_of e.now)) (frame_of frame.now) (context_of c.now) (world_of G.told c.now.depth w.old)) result (world_of G.told c.now.depth w.new) }
{
    value_of(calls, c, w, frame, e)?;
    Ok(Flow::Normal)
}

/// A value is assigned to what names name.
#[inline(never)]
#[tactic(auto, using(scope_flow::proofs::Passing::passing, crate::proofs::Declared::assigned_so))]
pub fn assign<G: Outside, C: Calls<G>>(
    calls: &C,
    c: &Context<'_>,
    w: &mut World<G>,
    frame: &Frame<'_>,
    names: &[Name],
    e: &Expr,
) -> Result<Flow, Halt>
    requires { C.answers calls.now c.now.depth }
    ensures { GivesBy flow_of (assigned (always (checked_of c.now.program.now)) names.now (expression_of e.now) (frame_of frame.now) (context_of c.now) (world_of G.told c.now.depth w.old)) result (world_of G.told c.now.depth w.new) }
{
    let value = value_of(calls, c, w, frame, e)?;
    let at = lvalue(c, w, frame, names)?;
    w.write(&at, value);
    Ok(Flow::Normal)
}
