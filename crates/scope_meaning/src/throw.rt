// What is thrown: the operand of `throw`, and its object.

ghost use Rattle.cxx_ast.specs.View.{checked_of, expression_of, expressions_of, option_of};
ghost use Rattle.meaning_forms.specs.Outcome.{Flow as FlowMeant};
ghost use Rattle.meaning_forms.specs.Expression as rules;
ghost use Rattle.meaning_forms.specs.Statement as statement_rules;
ghost use Rattle.meaning_forms.specs.Throw as throw_rules;
ghost use Rattle.scope_world.specs.Gives.{Gives, GivesBy, Halts, flow_of};
ghost use Rattle.scope_world.specs.Inward.{context_of, frame_of};
ghost use Rattle.scope_world.specs.Seen.{world_of};
ghost use Rattle.scope_flow.specs.Always.{always};

use crate::expression::{construct, value_of};
use cxx_ast::expression::Expr;
use cxx_ast::name::{Bound, Builtin};
use scope_flow::{Calls, callee_bound, lvalue_of, new_copy, rethrow, terminate, throw_built};
use scope_world::{
    Context, Flow, Frame, Halt, ObjectType, Outside, Part, Reference, World, lvalue, unset,
};

/// A new object with the value of an expression.
pub fn int_object<G: Outside, C: Calls<G>>(
    calls: &C,
    c: &Context<'_>,
    w: &mut World<G>,
    frame: &Frame<'_>,
    e: &Expr,
) -> Result<usize, Halt>
    requires { C.answers calls.now c.now.depth }
    ensures { Gives (statement_rules.int_thrown (always (checked_of c.now.program.now)) (frame_of frame.now) (expression_of e.now) (context_of c.now) (world_of G.told c.now.depth w.old)) result (world_of G.told c.now.depth w.new) }
{
    let value = value_of(calls, c, w, frame, e)?;
    Ok(w.new_object(Part::Cell(Some(value)))?)
}

// The object of `throw T(arguments);`.
#[tactic(auto, using(scope_flow::proofs::Passing::passing, crate::proofs::Thrown::thrown_object, crate::proofs::Thrown::thrown_halted))]
fn object_thrown<G: Outside, C: Calls<G>>(
    calls: &C,
    c: &Context<'_>,
    w: &mut World<G>,
    frame: &Frame<'_>,
    class: u32,
    es: &[Expr],
) -> Result<usize, Halt>
    requires { C.answers calls.now c.now.depth }
    ensures { Gives (statement_rules.object_thrown (always (checked_of c.now.program.now)) (frame_of frame.now) class (expressions_of es.now) (context_of c.now) (world_of G.told c.now.depth w.old)) result (world_of G.told c.now.depth w.new) }
{
    let part = unset(c.alloc, c.program, ObjectType::Class(class))?;
    let object = w.new_object(part)?;
    construct(
        calls,
        c,
        w,
        frame,
        class,
        es,
        &Reference::whole(c.alloc, object),
    )?;
    Ok(object)
}

// The operand is a call: that of a class's name builds an object.
fn call_thrown<G: Outside, C: Calls<G>>(
    calls: &C,
    c: &Context<'_>,
    w: &mut World<G>,
    frame: &Frame<'_>,
    bound: Bound,
    e: &Expr,
    es: &[Expr],
) -> Result<usize, Halt>
    requires { C.answers calls.now c.now.depth }
    ensures { Gives (statement_rules.call_thrown (always (checked_of c.now.program.now)) (frame_of frame.now) bound (expression_of e.now) (expressions_of es.now) (context_of c.now) (world_of G.told c.now.depth w.old)) result (world_of G.told c.now.depth w.new) }
{
    match bound {
        Bound::Class(class) => object_thrown(calls, c, w, frame, class, es),
        Bound::Builtin(Builtin::BadException) => object_thrown(calls, c, w, frame, 0, es),
        _ => int_object(calls, c, w, frame, e),
    }
}

// The operand may be an lvalue: an object is copied behind a barrier.
#[tactic(auto, using(scope_flow::proofs::Passing::passing, crate::proofs::Thrown::thrown_int, crate::proofs::Thrown::thrown_copy))]
fn lvalue_thrown<G: Outside, C: Calls<G>>(
    calls: &C,
    c: &Context<'_>,
    w: &mut World<G>,
    frame: &Frame<'_>,
    e: &Expr,
) -> Result<usize, Halt>
    requires { C.answers calls.now c.now.depth }
    ensures { Gives (statement_rules.lvalue_thrown (always (checked_of c.now.program.now)) (frame_of frame.now) (expression_of e.now) (rules.lvalue_of (expression_of e.now)) (context_of c.now) (world_of G.told c.now.depth w.old)) result (world_of G.told c.now.depth w.new) }
{
    let Some(names) = lvalue_of(e) else {
        return int_object(calls, c, w, frame, e);
    };
    let source = lvalue(c, w, frame, names)?;
    match w.type_of(&source) {
        ObjectType::Int => int_object(calls, c, w, frame, e),
        ObjectType::Class(class) => new_copy(calls, c, w, class, &source),
    }
}

/// The exception object of `throw expression;`.
pub fn operand_thrown<G: Outside, C: Calls<G>>(
    calls: &C,
    c: &Context<'_>,
    w: &mut World<G>,
    frame: &Frame<'_>,
    e: &Expr,
) -> Result<usize, Halt>
    requires { C.answers calls.now c.now.depth }
    ensures { Gives (statement_rules.operand_thrown (always (checked_of c.now.program.now)) (frame_of frame.now) (expression_of e.now) (context_of c.now) (world_of G.told c.now.depth w.old)) result (world_of G.told c.now.depth w.new) }
{
    match e {
        Expr::Call(callee, es) => {
            let bound = callee_bound(callee.path.as_slice());
            call_thrown(calls, c, w, frame, bound, e, es.as_slice())
        }
        Expr::StdCall(name, es, _) => {
            call_thrown(calls, c, w, frame, name.bound, e, es.as_slice())
        }
        _ => lvalue_thrown(calls, c, w, frame, e),
    }
}

/// `throw expression;`; with as many exceptions live as may be, terminate is called instead.
#[tactic(auto, using(scope_flow::proofs::Passing::passing, scope_flow::proofs::Raising::new_full, scope_flow::proofs::Raising::new_built))]
pub fn throw<G: Outside, C: Calls<G>>(
    calls: &C,
    c: &Context<'_>,
    w: &mut World<G>,
    frame: &Frame<'_>,
    operand: &Expr,
) -> Halt
    requires { C.answers calls.now c.now.depth }
    ensures { Halts (throw_rules.throw_new {A = FlowMeant} (always (checked_of c.now.program.now)) (context_of c.now) (statement_rules.operand_thrown (always (checked_of c.now.program.now)) (frame_of frame.now) (expression_of operand.now) (context_of c.now)) (world_of G.told c.now.depth w.old)) result (world_of G.told c.now.depth w.new) }
{
    if w.is_full() {
        return terminate(calls, c, w);
    }
    match w.make() {
        Ok(number) => {
            let outcome = operand_thrown(calls, c, w, frame, operand);
            throw_built(calls, c, w, number, outcome)
        }
        Err(_) => Halt::NoMemory,
    }
}

/// `throw expression;` and `throw;`.
#[inline(never)]
pub fn throwing<G: Outside, C: Calls<G>>(
    calls: &C,
    c: &Context<'_>,
    w: &mut World<G>,
    frame: &Frame<'_>,
    operand: &Option<Expr>,
) -> Result<Flow, Halt>
    requires { C.answers calls.now c.now.depth }
    ensures { GivesBy flow_of (statement_rules.throwing (always (checked_of c.now.program.now)) (frame_of frame.now) (option_of expression_of operand.now) (context_of c.now) (world_of G.told c.now.depth w.old)) result (world_of G.told c.now.depth w.new) }
{
    match operand {
        None => Err(rethrow(calls, c, w)),
        Some(operand) => Err(throw(calls, c, w, frame, operand)),
    }
}
