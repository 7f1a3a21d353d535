// Try blocks and their handlers.

ghost use Rattle.cxx_ast.specs.View.{checked_of, statements_of, handlers_of};
ghost use Rattle.meaning_forms.specs.Handler as handler_rules;
ghost use Rattle.meaning_forms.specs.Statement as rules;
ghost use Rattle.scope_world.specs.Gives.{GivesBy, flow_of};
ghost use Rattle.scope_world.specs.Inward.{context_of, frame_of};
ghost use Rattle.scope_world.specs.Objects.{reference_of};
ghost use Rattle.scope_world.specs.Seen.{world_of};
ghost use Rattle.scope_flow.specs.Always.{always};
ghost use Rattle.scope_meaning.specs.Steps.{handler_done, tried};

use crate::statement::{statements, with_parameter};
use cxx_ast::statement::{Handler, Stmt};
use scope_flow::{Calls, Leaving, after_handler, after_scope, entered, handler_for, own_type};
use scope_world::{Context, Flow, Frame, Guard, Guards, Halt, Numbers, Outside, Reference, World};

/// A try block: an exception out of what is done in it is handled by the first of its handlers that matches.
#[inline(never)]
#[cycle(statements)]
#[tactic(auto, using(scope_flow::proofs::Passing::passing, crate::proofs::Handled::tried_done, crate::proofs::Handled::tried_caught, crate::proofs::Handled::tried_halted))]
pub fn try_block<G: Outside, C: Calls<G>>(
    calls: &C,
    c: &Context<'_>,
    w: &mut World<G>,
    frame: &Frame<'_>,
    body: &[Stmt],
    handlers: &[Handler],
) -> Result<Flow, Halt>
    requires { C.answers calls.now c.now.depth }
    ensures { GivesBy flow_of (tried (always (checked_of c.now.program.now)) (statements_of body.now) (handler_rules.clauses_of (handlers_of handlers.now)) (handlers_of handlers.now) (frame_of frame.now) (context_of c.now) (world_of G.told c.now.depth w.old)) result (world_of G.told c.now.depth w.new) }
{
    let guards = Guards::More(Guard::Try(handlers), c.guards);
    let inner = Context {
        guards: &guards,
        ..*c
    };
    match statements(calls, &inner, w, frame, body) {
        Ok(flow) => Ok(flow),
        Err(halt) => match halt {
            Halt::Thrown(number) => caught(calls, c, w, frame, handlers, number),
            _ => Err(halt),
        },
    }
}

// The first handler whose clause matches an exception handles it.
#[inline(never)]
#[cycle(statements)]
#[tactic(auto, using(scope_flow::proofs::Passing::passing, crate::proofs::Handled::caught_so, crate::proofs::Handled::not_caught))]
fn caught<G: Outside, C: Calls<G>>(
    calls: &C,
    c: &Context<'_>,
    w: &mut World<G>,
    frame: &Frame<'_>,
    handlers: &[Handler],
    number: u64,
) -> Result<Flow, Halt>
    requires { C.answers calls.now c.now.depth }
    ensures { GivesBy flow_of (rules.caught (always (checked_of c.now.program.now)) (handlers_of handlers.now) (frame_of frame.now) (context_of c.now) number (world_of G.told c.now.depth w.old)) result (world_of G.told c.now.depth w.new) }
{
    let thrown = w.exception(number).ty();
    match handler_for(c.program, handlers, thrown) {
        Some(handler) => handle(calls, c, w, frame, handler, number),
        None => Err(Halt::Thrown(number)),
    }
}

// A handler of an exception: its parameter while the exception travels, the entry, the body, the parameter's destruction, the leaving.
#[inline(never)]
#[cycle(statements)]
#[tactic(auto, using(scope_flow::proofs::Passing::passing, crate::proofs::Handled::handled_done, crate::proofs::Handled::handled_halted))]
fn handle<G: Outside, C: Calls<G>>(
    calls: &C,
    c: &Context<'_>,
    w: &mut World<G>,
    frame: &Frame<'_>,
    handler: &Handler,
    number: u64,
) -> Result<Flow, Halt>
    requires { C.answers calls.now c.now.depth }
    ensures { GivesBy flow_of (handler_rules.handle (always (checked_of c.now.program.now)) number handler.now.ty handler.now.name (λ f e. rules.statements (always (checked_of c.now.program.now)) (statements_of handler.now.body.items) f e) (frame_of frame.now) (context_of c.now) (world_of G.told c.now.depth w.old)) result (world_of G.told c.now.depth w.new) }
{
    let parameter = entered(calls, c, w, &handler.ty, number)?;
    let handled = Numbers::More(number, c.handled);
    let inside = Context {
        handled: &handled,
        ..*c
    };
    let outcome = handler_body(calls, &inside, w, frame, handler, &parameter);
    after_handler(calls, c, w, number, outcome)
}

// The body of a handler, in which its parameter is in reach, and the parameter's destruction.
#[inline(never)]
#[cycle(statements)]
#[tactic(auto, using(scope_flow::proofs::Passing::passing, crate::proofs::Declared::body_left))]
fn handler_body<G: Outside, C: Calls<G>>(
    calls: &C,
    c: &Context<'_>,
    w: &mut World<G>,
    frame: &Frame<'_>,
    handler: &Handler,
    parameter: &Reference,
) -> Result<Flow, Halt>
    requires { C.answers calls.now c.now.depth }
    ensures { GivesBy flow_of (handler_done (always (checked_of c.now.program.now)) handler.now.ty handler.now.name (statements_of handler.now.body.items) (reference_of parameter.now) (frame_of frame.now) (context_of c.now) (world_of G.told c.now.depth w.old)) result (world_of G.told c.now.depth w.new) }
{
    let at = parameter.copied(c.alloc)?;
    let outcome = with_parameter(
        calls,
        c,
        w,
        frame,
        &handler.name,
        at,
        handler.body.as_slice(),
    );
    let leaving = Leaving::Object(own_type(&handler.ty), parameter);
    after_scope(calls, c, w, &leaving, outcome)
}
