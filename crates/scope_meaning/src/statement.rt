// What a statement does. The scope of a local variable is the rest of its block.

ghost use Rattle.std.specs.Prelude.{◌≡◌, ℕ, suc};
ghost use Rattle.cxx_ast.specs.View.{checked_of, expression_of, expressions_of, statement_of, statements_of, handlers_of};
ghost use Rattle.cxx_ast.specs.Plain.{no_statements, statement_then};
ghost use Rattle.meaning_forms.specs.Expression as expression_rules;
ghost use Rattle.meaning_forms.specs.Frame as frame_rules;
ghost use Rattle.meaning_forms.specs.Handler as handler_rules;
ghost use Rattle.meaning_forms.specs.Outcome as outcome_rules;
ghost use Rattle.meaning_forms.specs.Statement as rules;
ghost use Rattle.scope_world.specs.Gives.{GivesBy, flow_of};
ghost use Rattle.scope_world.specs.Inward.{context_of, frame_of};
ghost use Rattle.scope_world.specs.Objects.{reference_of};
ghost use Rattle.scope_world.specs.Seen.{world_of};
ghost use Rattle.scope_flow.specs.Always.{always};
ghost use Rattle.scope_meaning.specs.Steps.{RoundGives, declares, handler_done, object_scoped, plainly, tried};

use crate::expression::{construct, value_of};
use crate::handling::try_block;
use crate::lookup::bound_to;
use crate::simple::{assign, evaluate, local_cell, returning, unset_object};
use crate::throw::throwing;
use cxx_ast::expression::Expr;
use cxx_ast::name::Name;
use cxx_ast::statement::Stmt;
use scope_flow::{Calls, Leaving, after_handler, after_scope, entered, handler_for, own_type};
use scope_world::{
    Context, Flow, Frame, Guard, Guards, Halt, Locals, Numbers, ObjectType, Outside, Reference,
    Variable, World, class_named,
};
use std::slice;

// Whether a statement declares a variable.
pub fn declares(it: &Stmt) -> bool
    ensures { result ≡ declares (statement_of it.now) }
{
    matches!(
        it,
        Stmt::LocalInt(_, _) | Stmt::LocalRef(_, _) | Stmt::LocalObject(_, _, _)
    )
}

// One statement as a list.
fn one(it: &Stmt) -> &[Stmt]
    ensures { statements_of result.now ≡ statement_then (statement_of it.now) no_statements }
{
    slice::from_ref(it)
}

/// Statements, with the local variables that they declare.
#[cycle(statements)]
#[tactic(auto, using(scope_flow::proofs::Passing::passing, crate::proofs::Stepped::stepped, crate::proofs::Stepped::left_by, crate::proofs::Stepped::halted))]
pub fn statements<G: Outside, C: Calls<G>>(
    calls: &C,
    c: &Context<'_>,
    w: &mut World<G>,
    frame: &Frame<'_>,
    body: &[Stmt],
) -> Result<Flow, Halt>
    requires { C.answers calls.now c.now.depth }
    ensures { GivesBy flow_of (rules.statements (always (checked_of c.now.program.now)) (statements_of body.now) (frame_of frame.now) (context_of c.now) (world_of G.told c.now.depth w.old)) result (world_of G.told c.now.depth w.new) }
{
    let mut rest = body;
    'statements: while let Some((first, others)) = rest.split_first() {
        if declares(first) {
            return declaration(calls, c, w, frame, first, others);
        }
        match statement(calls, c, w, frame, first)? {
            Flow::Normal => {}
            flow => return Ok(flow),
        }
        rest = others;
    }
    Ok(Flow::Normal)
}

// Statements with a variable in reach.
#[inline(never)]
#[cycle(statements)]
#[tactic(auto, using(scope_flow::proofs::Passing::passing, crate::proofs::Declared::in_reach))]
fn with_variable<G: Outside, C: Calls<G>>(
    calls: &C,
    c: &Context<'_>,
    w: &mut World<G>,
    frame: &Frame<'_>,
    name: &Name,
    at: Reference,
    body: &[Stmt],
) -> Result<Flow, Halt>
    requires { C.answers calls.now c.now.depth }
    ensures { GivesBy flow_of (rules.statements (always (checked_of c.now.program.now)) (statements_of body.now) (frame_rules.with_variable name.now (reference_of at) (frame_of frame.now)) (context_of c.now) (world_of G.told c.now.depth w.old)) result (world_of G.told c.now.depth w.new) }
{
    let variable = Variable::new(name, at);
    let locals = Locals::More(&variable, frame.locals);
    let inner = Frame {
        locals: &locals,
        ..*frame
    };
    statements(calls, c, w, &inner, body)
}

/// Statements with a parameter in reach, if it has a name.
#[inline(never)]
#[cycle(statements)]
pub fn with_parameter<G: Outside, C: Calls<G>>(
    calls: &C,
    c: &Context<'_>,
    w: &mut World<G>,
    frame: &Frame<'_>,
    name: &Option<Name>,
    at: Reference,
    body: &[Stmt],
) -> Result<Flow, Halt>
    requires { C.answers calls.now c.now.depth }
    ensures { GivesBy flow_of (rules.statements (always (checked_of c.now.program.now)) (statements_of body.now) (frame_rules.with_parameter name.now (reference_of at) (frame_of frame.now)) (context_of c.now) (world_of G.told c.now.depth w.old)) result (world_of G.told c.now.depth w.new) }
{
    match name {
        Some(name) => with_variable(calls, c, w, frame, name, at, body),
        None => statements(calls, c, w, frame, body),
    }
}

// A declaration, and the rest of its block, which is its scope.
#[inline(never)]
#[cycle(statements)]
#[tactic(auto, using(scope_flow::proofs::Passing::passing, crate::proofs::Declared::int_declared, crate::proofs::Declared::reference_declared, crate::proofs::Declared::object_declared))]
fn declaration<G: Outside, C: Calls<G>>(
    calls: &C,
    c: &Context<'_>,
    w: &mut World<G>,
    frame: &Frame<'_>,
    first: &Stmt,
    rest: &[Stmt],
) -> Result<Flow, Halt>
    requires { C.answers calls.now c.now.depth }
    ensures { GivesBy flow_of (rules.statement (always (checked_of c.now.program.now)) (statement_of first.now) (λ f. rules.statements (always (checked_of c.now.program.now)) (statements_of rest.now) f (context_of c.now)) (frame_of frame.now) (context_of c.now) (world_of G.told c.now.depth w.old)) result (world_of G.told c.now.depth w.new) }
{
    match first {
        Stmt::LocalInt(name, e) => {
            let object = local_cell(calls, c, w, frame, e)?;
            let at = Reference::whole(c.alloc, object);
            with_variable(calls, c, w, frame, name, at, rest)
        }
        Stmt::LocalRef(parameter, it) => {
            let at = bound_to(c, w, frame, &parameter.ty, it.path.as_slice())?;
            with_parameter(calls, c, w, frame, &parameter.name, at, rest)
        }
        Stmt::LocalObject(class, name, es) => {
            let class = class_named(class);
            local_object(calls, c, w, frame, class, name, es.as_slice(), rest)
        }
        _ => Err(Halt::NoMemory),
    }
}

// A local object, and the rest of its block.
#[inline(never)]
#[cycle(statements)]
#[tactic(auto, using(scope_flow::proofs::Passing::passing, crate::proofs::Declared::object_in_scope, crate::proofs::Declared::object_halted))]
fn local_object<G: Outside, C: Calls<G>>(
    calls: &C,
    c: &Context<'_>,
    w: &mut World<G>,
    frame: &Frame<'_>,
    class: u32,
    name: &Name,
    es: &[Expr],
    rest: &[Stmt],
) -> Result<Flow, Halt>
    requires { C.answers calls.now c.now.depth }
    ensures { GivesBy flow_of (object_scoped (always (checked_of c.now.program.now)) class name.now (expressions_of es.now) (statements_of rest.now) (frame_of frame.now) (context_of c.now) (world_of G.told c.now.depth w.old)) result (world_of G.told c.now.depth w.new) }
{
    let object = unset_object(c, w, class)?;
    let target = Reference::whole(c.alloc, object);
    construct(calls, c, w, frame, class, es, &target)?;
    let at = Reference::whole(c.alloc, object);
    let outcome = with_variable(calls, c, w, frame, name, at, rest);
    let leaving = Leaving::Object(ObjectType::Class(class), &target);
    after_scope(calls, c, w, &leaving, outcome)
}

// One test of a loop, which spends a turn, and the body; how the loop is left, if it is.
#[inline(never)]
#[cycle(statements)]
#[tactic(auto, using(scope_flow::proofs::Passing::passing, crate::proofs::Rounds::round_unspent, crate::proofs::Rounds::test_halted, crate::proofs::Rounds::ended_by_test, crate::proofs::Rounds::body_halted, crate::proofs::Rounds::body_normal, crate::proofs::Rounds::body_continues, crate::proofs::Rounds::body_breaks, crate::proofs::Rounds::body_returns))]
fn round<G: Outside, C: Calls<G>>(
    calls: &C,
    c: &Context<'_>,
    w: &mut World<G>,
    frame: &Frame<'_>,
    test: &Expr,
    body: &Stmt,
) -> Result<Option<Flow>, Halt>
    requires { C.answers calls.now c.now.depth }
    ensures { (n : ℕ) → RoundGives (rules.loop (suc n) (expression_rules.value_of (always (checked_of c.now.program.now)) (frame_of frame.now) (expression_of test.now) (context_of c.now)) (rules.statement (always (checked_of c.now.program.now)) (statement_of body.now) (λ g. outcome_rules.pure outcome_rules.normal) (frame_of frame.now) (context_of c.now)) (world_of G.told c.now.depth w.old)) (rules.loop n (expression_rules.value_of (always (checked_of c.now.program.now)) (frame_of frame.now) (expression_of test.now) (context_of c.now)) (rules.statement (always (checked_of c.now.program.now)) (statement_of body.now) (λ g. outcome_rules.pure outcome_rules.normal) (frame_of frame.now) (context_of c.now))) result (world_of G.told c.now.depth w.new) }
{
    w.spend_turn()?;
    if value_of(calls, c, w, frame, test)? == 0 {
        return Ok(Some(Flow::Normal));
    }
    match statements(calls, c, w, frame, one(body))? {
        Flow::Normal => Ok(None),
        Flow::Continues => Ok(None),
        Flow::Breaks => Ok(Some(Flow::Normal)),
        Flow::Returns(value) => Ok(Some(Flow::Returns(value))),
    }
}

// Each round spends a turn, so more rounds than there are turns, and one, are never made.
#[inline(never)]
#[cycle(statements)]
fn while_loop<G: Outside, C: Calls<G>>(
    calls: &C,
    c: &Context<'_>,
    w: &mut World<G>,
    frame: &Frame<'_>,
    test: &Expr,
    body: &Stmt,
) -> Result<Flow, Halt>
    requires { C.answers calls.now c.now.depth }
    ensures { GivesBy flow_of (rules.loop (suc w.old.turns) (expression_rules.value_of (always (checked_of c.now.program.now)) (frame_of frame.now) (expression_of test.now) (context_of c.now)) (rules.statement (always (checked_of c.now.program.now)) (statement_of body.now) (λ g. outcome_rules.pure outcome_rules.normal) (frame_of frame.now) (context_of c.now)) (world_of G.told c.now.depth w.old)) result (world_of G.told c.now.depth w.new) }
{
    for _ in 0..w.turns {
        if let Some(flow) = round(calls, c, w, frame, test, body)? {
            return Ok(flow);
        }
    }
    match round(calls, c, w, frame, test, body)? {
        Some(flow) => Ok(flow),
        None => Err(Halt::OutOfTurns),
    }
}

// The side of an `if` that its test chooses; another statement is want of memory.
#[inline(never)]
#[cycle(statements)]
#[tactic(auto, using(scope_flow::proofs::Passing::passing, crate::proofs::Declared::first_side, crate::proofs::Declared::second_side, crate::proofs::Declared::no_side, cxx_ast::proofs::Rows::statement_rows))]
fn chosen<G: Outside, C: Calls<G>>(
    calls: &C,
    c: &Context<'_>,
    w: &mut World<G>,
    frame: &Frame<'_>,
    it: &Stmt,
) -> Result<Flow, Halt>
    requires { C.answers calls.now c.now.depth }
    ensures { GivesBy flow_of (plainly (always (checked_of c.now.program.now)) (statement_of it.now) (frame_of frame.now) (context_of c.now) (world_of G.told c.now.depth w.old)) result (world_of G.told c.now.depth w.new) }
{
    match it {
        Stmt::If(e, yes, no) => {
            if value_of(calls, c, w, frame, e)? != 0 {
                return statements(calls, c, w, frame, one(yes));
            }
            match no {
                Some(no) => statements(calls, c, w, frame, one(no)),
                None => Ok(Flow::Normal),
            }
        }
        _ => Err(Halt::NoMemory),
    }
}

// A statement that declares nothing; any other is want of memory.
#[inline(never)]
#[cycle(statements)]
#[tactic(auto, using(scope_flow::proofs::Passing::passing, cxx_ast::proofs::Rows::statement_rows))]
fn statement<G: Outside, C: Calls<G>>(
    calls: &C,
    c: &Context<'_>,
    w: &mut World<G>,
    frame: &Frame<'_>,
    it: &Stmt,
) -> Result<Flow, Halt>
    requires { C.answers calls.now c.now.depth }
    ensures { GivesBy flow_of (plainly (always (checked_of c.now.program.now)) (statement_of it.now) (frame_of frame.now) (context_of c.now) (world_of G.told c.now.depth w.old)) result (world_of G.told c.now.depth w.new) }
{
    match it {
        Stmt::Block(body) => statements(calls, c, w, frame, body.as_slice()),
        Stmt::Empty => Ok(Flow::Normal),
        Stmt::If(_, _, _) => chosen(calls, c, w, frame, it),
        Stmt::While(e, body) => while_loop(calls, c, w, frame, e, body),
        Stmt::Return(_, e) => returning(calls, c, w, frame, e),
        Stmt::Break(_) => Ok(Flow::Breaks),
        Stmt::Continue(_) => Ok(Flow::Continues),
        Stmt::Throw(_, e) => throwing(calls, c, w, frame, e),
        Stmt::Try(body, handlers) => {
            try_block(calls, c, w, frame, body.as_slice(), handlers.as_slice())
        }
        Stmt::Assign(target, e) => assign(calls, c, w, frame, target.path.as_slice(), e),
        Stmt::Call(e) => evaluate(calls, c, w, frame, e),
        Stmt::LocalInt(_, _) | Stmt::LocalRef(_, _) | Stmt::LocalObject(_, _, _) => {
            Err(Halt::NoMemory)
        }
    }
}
