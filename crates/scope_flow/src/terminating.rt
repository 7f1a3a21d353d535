// Terminate.

ghost use Rattle.std.specs.Prelude.{ℤ};
ghost use Rattle.cxx_ast.specs.View.{checked_of};
ghost use Rattle.meaning_forms.specs.Outcome.{Flow as FlowMeant, Result as Outcome};
ghost use Rattle.meaning_forms.specs.World.{World as WorldMeant};
ghost use Rattle.scope_flow.specs.Always.{always};
ghost use Rattle.scope_world.specs.Gives.{Gives, Halts};
ghost use Rattle.scope_world.specs.Inward.{context_of};
ghost use Rattle.scope_world.specs.Seen.{world_of};
ghost use Rattle.meaning_forms.specs.Terminate as rules;

use crate::callee::{Callee, Calls};
use run_items::Item;
use scope_world::{Context, Exception, Guard, Guards, Halt, Numbers, Outside, Reference, World};

// Where a terminate handler comes back, the program ends as aborted.
fn after_terminate_handler(outcome: Result<i32, Halt>) -> Halt
    ensures int { (m : Outcome ℤ) (w : WorldMeant) → Gives m outcome w → Halts (rules.after_terminate_handler {B = ℤ} m) result w }
    ensures flow { (m : Outcome ℤ) (w : WorldMeant) → Gives m outcome w → Halts (rules.after_terminate_handler {B = FlowMeant} m) result w }
    ensures none { (m : Outcome ℤ) (w : WorldMeant) → Gives m outcome w → Halts (rules.after_terminate_handler {B = Unit {0}} m) result w }
{
    match outcome {
        Ok(_) | Err(Halt::Thrown(_) | Halt::Cancelled(_)) => Halt::Aborted,
        Err(halt) => halt,
    }
}

/// Terminate with a given handler, which runs behind a barrier; while one runs, or without one, the program ends as aborted.
pub fn terminate_with<G: Outside, C: Calls<G>>(
    calls: &C,
    c: &Context<'_>,
    w: &mut World<G>,
    handler: Option<u32>,
) -> Halt
    requires { C.answers calls.now c.now.depth }
    ensures int { Halts (rules.terminate_with {A = ℤ} (always (checked_of c.now.program.now)) handler (context_of c.now) (world_of G.told c.now.depth w.old)) result (world_of G.told c.now.depth w.new) }
    ensures flow { Halts (rules.terminate_with {A = FlowMeant} (always (checked_of c.now.program.now)) handler (context_of c.now) (world_of G.told c.now.depth w.old)) result (world_of G.told c.now.depth w.new) }
    ensures none { Halts (rules.terminate_with {A = Unit {0}} (always (checked_of c.now.program.now)) handler (context_of c.now) (world_of G.told c.now.depth w.old)) result (world_of G.told c.now.depth w.new) }
{
    if c.ending {
        return Halt::Aborted;
    }
    let Some(handler) = handler else {
        return Halt::Aborted;
    };
    let guards = Guards::More(Guard::Barrier, c.guards);
    let inner = Context {
        guards: &guards,
        ending: true,
        ..*c
    };
    let nothing = Reference::whole(c.alloc, 0);
    let outcome = calls.call(&inner, w, Callee::Function(handler), &nothing, &[]);
    after_terminate_handler(outcome)
}

/// Terminate with the handler in effect.
pub fn terminate<G: Outside, C: Calls<G>>(calls: &C, c: &Context<'_>, w: &mut World<G>) -> Halt
    requires { C.answers calls.now c.now.depth }
    ensures int { Halts (rules.terminate {A = ℤ} (always (checked_of c.now.program.now)) (context_of c.now) (world_of G.told c.now.depth w.old)) result (world_of G.told c.now.depth w.new) }
    ensures flow { Halts (rules.terminate {A = FlowMeant} (always (checked_of c.now.program.now)) (context_of c.now) (world_of G.told c.now.depth w.old)) result (world_of G.told c.now.depth w.new) }
    ensures none { Halts (rules.terminate {A = Unit {0}} (always (checked_of c.now.program.now)) (context_of c.now) (world_of G.told c.now.depth w.old)) result (world_of G.told c.now.depth w.new) }
{
    let handler = w.installed.terminate;
    terminate_with(calls, c, w, handler)
}

/// Terminate because of a doomed exception: a native one is entered, and the handler kept with it is used. While a terminate handler
/// runs, nothing is entered.
pub fn terminate_because<G: Outside, C: Calls<G>>(
    calls: &C,
    c: &Context<'_>,
    w: &mut World<G>,
    number: u64,
) -> Halt
    requires { C.answers calls.now c.now.depth }
    ensures int { Halts (rules.terminate_because {A = ℤ} (always (checked_of c.now.program.now)) number (context_of c.now) (world_of G.told c.now.depth w.old)) result (world_of G.told c.now.depth w.new) }
    ensures flow { Halts (rules.terminate_because {A = FlowMeant} (always (checked_of c.now.program.now)) number (context_of c.now) (world_of G.told c.now.depth w.old)) result (world_of G.told c.now.depth w.new) }
    ensures none { Halts (rules.terminate_because {A = Unit {0}} (always (checked_of c.now.program.now)) number (context_of c.now) (world_of G.told c.now.depth w.old)) result (world_of G.told c.now.depth w.new) }
{
    if c.ending {
        return Halt::Aborted;
    }
    match w.exception(number) {
        Exception::Native(_, _, kept) => match w.emit(Item::Enter(number)) {
            Ok(()) => {
                let handled = Numbers::More(number, c.handled);
                let inner = Context {
                    handled: &handled,
                    ..*c
                };
                terminate_with(calls, &inner, w, kept.terminate)
            }
            Err(_) => Halt::NoMemory,
        },
        Exception::Building => terminate(calls, c, w),
        Exception::Foreign(_, _) => terminate(calls, c, w),
    }
}
