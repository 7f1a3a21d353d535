// Leaving a scope: what was built in it is destroyed, and an exception that was entered is left.

ghost use Rattle.std.specs.Prelude.{◌≡◌};
ghost use Rattle.cxx_ast.specs.View.{checked_of};
ghost use Rattle.meaning_forms.specs.Outcome.{Flow as FlowMeant, Result as Outcome};
ghost use Rattle.scope_flow.specs.Always.{always};
ghost use Rattle.scope_flow.specs.Asked.{leaving_of};
ghost use Rattle.scope_world.specs.Gives.{Gives, GivesBy, Halts, flow_of};
ghost use Rattle.scope_world.specs.Inward.{context_of};
ghost use Rattle.scope_world.specs.Objects.{reference_of, type_of};
ghost use Rattle.scope_world.specs.Seen.{world_of};
ghost use Rattle.meaning_forms.specs.Construct as construct_rules;
ghost use Rattle.scope_flow.specs.Steps.{left_as};
ghost use Rattle.meaning_forms.specs.Terminate as terminate_rules;
ghost use Rattle.meaning_forms.specs.Scope as rules;

use crate::callee::{Callee, Calls};
use crate::handler::let_go;
use crate::terminating::terminate;
use scope_world::{
    Context, Flow, Guard, Guards, Halt, Numbers, ObjectType, Outside, Reference, World,
};

/// What is left with a scope: an object of a type, which is destroyed; or an exception, which is given back unless it is kept.
#[derive(Clone, Copy)]
pub enum Leaving<'a> {
    Object(ObjectType, &'a Reference),
    Exception(u64, bool),
}

/// An object is destroyed; an int needs no destruction.
pub fn destroy<G: Outside, C: Calls<G>>(
    calls: &C,
    c: &Context<'_>,
    w: &mut World<G>,
    ty: ObjectType,
    target: &Reference,
) -> Result<(), Halt>
    requires { C.answers calls.now c.now.depth }
    ensures { Gives (construct_rules.destroy (always (checked_of c.now.program.now)) (type_of ty) (reference_of target.now) (context_of c.now) (world_of G.told c.now.depth w.old)) result (world_of G.told c.now.depth w.new) }
{
    match ty {
        ObjectType::Int => Ok(()),
        ObjectType::Class(class) => {
            calls.call(c, w, Callee::Destructor(class), target, &[])?;
            Ok(())
        }
    }
}

fn leave<G: Outside, C: Calls<G>>(
    calls: &C,
    c: &Context<'_>,
    w: &mut World<G>,
    what: &Leaving<'_>,
) -> Result<(), Halt>
    requires { C.answers calls.now c.now.depth }
    ensures { Gives ((leaving_of (always (checked_of c.now.program.now)) what.now) (context_of c.now) (world_of G.told c.now.depth w.old)) result (world_of G.told c.now.depth w.new) }
{
    match what {
        Leaving::Object(ty, target) => destroy(calls, c, w, *ty, target),
        Leaving::Exception(number, kept) => let_go(calls, c, w, *number, *kept),
    }
}

/// A forced unwind that comes out to a barrier calls terminate.
#[tactic(auto, using(crate::proofs::Passing::passing, crate::proofs::Left::barrier_passed, crate::proofs::Left::barrier_reached))]
pub fn after_barrier<G: Outside, C: Calls<G>>(
    calls: &C,
    c: &Context<'_>,
    w: &mut World<G>,
    outcome: Result<(), Halt>,
) -> Result<(), Halt>
    requires { C.answers calls.now c.now.depth }
    ensures { (m : Outcome (Unit {0})) → Gives m outcome (world_of G.told c.now.depth w.old) → Gives (terminate_rules.after_barrier (always (checked_of c.now.program.now)) (context_of c.now) m) result (world_of G.told c.now.depth w.new) }
{
    match outcome {
        Ok(()) => Ok(()),
        Err(halt) => match halt {
            Halt::Cancelled(_) => Err(terminate(calls, c, w)),
            _ => Err(halt),
        },
    }
}

fn leave_behind_barrier<G: Outside, C: Calls<G>>(
    calls: &C,
    c: &Context<'_>,
    w: &mut World<G>,
    what: &Leaving<'_>,
) -> Result<(), Halt>
    requires { C.answers calls.now c.now.depth }
    ensures { Gives (terminate_rules.behind_barrier (always (checked_of c.now.program.now)) (context_of c.now) (leaving_of (always (checked_of c.now.program.now)) what.now) (world_of G.told c.now.depth w.old)) result (world_of G.told c.now.depth w.new) }
{
    let guards = Guards::More(Guard::Barrier, c.guards);
    let inner = Context {
        guards: &guards,
        ..*c
    };
    let outcome = leave(calls, &inner, w, what);
    after_barrier(calls, c, w, outcome)
}

// The stop after a leaving: that of the leaving, where it is stopped itself.
fn left_as(left: Result<(), Halt>, halt: Halt) -> Halt
    ensures { result ≡ left_as left halt }
{
    match left {
        Ok(()) => halt,
        Err(other) => other,
    }
}

// In an exceptional exit the leaving runs behind a barrier, with the exception travelling; any other stop runs nothing.
#[tactic(auto, using(crate::proofs::Passing::passing, crate::proofs::Left::stays, crate::proofs::Left::left_thrown, crate::proofs::Left::left_cancelled, crate::proofs::Left::scope_unwinds, crate::proofs::Left::part_unwinds))]
fn unwound<G: Outside, C: Calls<G>>(
    calls: &C,
    c: &Context<'_>,
    w: &mut World<G>,
    what: &Leaving<'_>,
    halt: Halt,
) -> Halt
    requires { C.answers calls.now c.now.depth }
    ensures scope { (m : Outcome FlowMeant) → Halts m halt (world_of G.told c.now.depth w.old) → Halts (rules.after_scope (always (checked_of c.now.program.now)) (context_of c.now) (leaving_of (always (checked_of c.now.program.now)) what.now) m) result (world_of G.told c.now.depth w.new) }
    ensures part { (m : Outcome FlowMeant) → Halts m halt (world_of G.told c.now.depth w.old) → Halts (rules.after_part (always (checked_of c.now.program.now)) (context_of c.now) (leaving_of (always (checked_of c.now.program.now)) what.now) m) result (world_of G.told c.now.depth w.new) }
{
    match halt {
        Halt::Thrown(number) => {
            let travelling = Numbers::More(number, c.travelling);
            let inner = Context {
                travelling: &travelling,
                ..*c
            };
            left_as(leave_behind_barrier(calls, &inner, w, what), halt)
        }
        Halt::Cancelled(_) => left_as(leave_behind_barrier(calls, c, w, what), halt),
        _ => halt,
    }
}

/// In a normal exit the leaving runs under the scope's own guards, and where it throws or unwinds, that replaces the exit.
#[tactic(auto, using(crate::proofs::Passing::passing, crate::proofs::Left::scope_done, crate::proofs::Left::scope_halted))]
pub fn after_scope<G: Outside, C: Calls<G>>(
    calls: &C,
    c: &Context<'_>,
    w: &mut World<G>,
    what: &Leaving<'_>,
    outcome: Result<Flow, Halt>,
) -> Result<Flow, Halt>
    requires { C.answers calls.now c.now.depth }
    ensures { (m : Outcome FlowMeant) → GivesBy flow_of m outcome (world_of G.told c.now.depth w.old) → GivesBy flow_of (rules.after_scope (always (checked_of c.now.program.now)) (context_of c.now) (leaving_of (always (checked_of c.now.program.now)) what.now) m) result (world_of G.told c.now.depth w.new) }
{
    match outcome {
        Ok(flow) => {
            leave(calls, c, w, what)?;
            Ok(flow)
        }
        Err(halt) => Err(unwound(calls, c, w, what, halt)),
    }
}

/// A complete part of an object that is not complete is destroyed in an exceptional exit alone.
pub fn after_part<G: Outside, C: Calls<G>>(
    calls: &C,
    c: &Context<'_>,
    w: &mut World<G>,
    what: &Leaving<'_>,
    outcome: Result<Flow, Halt>,
) -> Result<Flow, Halt>
    requires { C.answers calls.now c.now.depth }
    ensures { (m : Outcome FlowMeant) → GivesBy flow_of m outcome (world_of G.told c.now.depth w.old) → GivesBy flow_of (rules.after_part (always (checked_of c.now.program.now)) (context_of c.now) (leaving_of (always (checked_of c.now.program.now)) what.now) m) result (world_of G.told c.now.depth w.new) }
{
    match outcome {
        Ok(flow) => Ok(flow),
        Err(halt) => Err(unwound(calls, c, w, what, halt)),
    }
}
