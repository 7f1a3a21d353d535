// Exception specifications, and the unexpected handler.

ghost use Rattle.std.specs.Prelude.{◌≡◌, ℕ, map};
ghost use Rattle.cxx_ast.specs.View.{checked_of};
ghost use Rattle.meaning_forms.specs.Outcome.{Flow as FlowMeant, Result as Outcome};
ghost use Rattle.scope_flow.specs.Always.{always};
ghost use Rattle.scope_world.specs.Gives.{Gives, GivesBy, Halts, flow_of};
ghost use Rattle.scope_world.specs.Inward.{context_of};
ghost use Rattle.scope_world.specs.Seen.{installed_of, world_of};
ghost use Rattle.meaning_forms.specs.Class.{object_type, some_of};
ghost use Rattle.meaning_forms.specs.Guard.{allows as allows_rule};
ghost use Rattle.meaning_forms.specs.Specification as rules;
ghost use Rattle.meaning_forms.specs.World.{type_at};
ghost use Rattle.meaning_forms.specs.Statement.{after_try};
ghost use Rattle.meaning_forms.specs.Throw.{throw_new};
ghost use Rattle.scope_flow.specs.Steps.{passing_on};

use crate::callee::{Callee, Calls};
use crate::construct::default_object;
use crate::handler::{after_handler, enter};
use crate::terminating::{terminate, terminate_with};
use crate::throw::{raise_exception, throw_built};
use cxx_ast::types::Ty;
use scope_world::{
    Context, Flow, Guard, Guards, Halt, Installed, Numbers, ObjectType, Outside, Reference, World,
    allows, object_type, unset,
};

// The object of `throw std::bad_exception()`.
#[tactic(auto, using(crate::proofs::Passing::passing, crate::proofs::Unexpected::bad_made, crate::proofs::Unexpected::bad_halted))]
fn new_bad_exception<G: Outside, C: Calls<G>>(
    calls: &C,
    c: &Context<'_>,
    w: &mut World<G>,
) -> Result<usize, Halt>
    requires { C.answers calls.now c.now.depth }
    ensures { Gives (rules.new_bad_exception (always (checked_of c.now.program.now)) (context_of c.now) (world_of G.told c.now.depth w.old)) result (world_of G.told c.now.depth w.new) }
{
    let part = unset(c.alloc, c.program, ObjectType::Class(0))?;
    let object = w.new_object(part)?;
    default_object(calls, c, w, 0, &Reference::whole(c.alloc, object))?;
    Ok(object)
}

#[tactic(auto, using(crate::proofs::Passing::passing, crate::proofs::Raising::new_full, crate::proofs::Raising::new_built))]
fn throw_bad_exception<G: Outside, C: Calls<G>>(
    calls: &C,
    c: &Context<'_>,
    w: &mut World<G>,
) -> Halt
    requires { C.answers calls.now c.now.depth }
    ensures { Halts (throw_new {A = FlowMeant} (always (checked_of c.now.program.now)) (context_of c.now) (rules.new_bad_exception (always (checked_of c.now.program.now)) (context_of c.now)) (world_of G.told c.now.depth w.old)) result (world_of G.told c.now.depth w.new) }
{
    if w.is_full() {
        return terminate(calls, c, w);
    }
    match w.make() {
        Ok(number) => {
            let outcome = new_bad_exception(calls, c, w);
            throw_built(calls, c, w, number, outcome)
        }
        Err(_) => Halt::NoMemory,
    }
}

fn lists_bad_exception(types: &[Ty]) -> bool
    ensures { result ≡ some_of rules.is_bad_exception (map object_type types.now) }
{
    let mut rest = types;
    'types: while let Some((first, others)) = rest.split_first() {
        match object_type(first) {
            ObjectType::Class(0) => return true,
            _ => {}
        }
        rest = others;
    }
    false
}

// Whether a specification allows an exception.
#[tactic(auto, using(crate::proofs::Unexpected::allowed_as))]
fn is_allowed<G: Outside>(c: &Context<'_>, w: &World<G>, types: &[Ty], number: u64) -> bool
    ensures { (d : ℕ) → result ≡ allows_rule (checked_of c.now.program.now) (map object_type types.now) (type_at (world_of G.told d w.now) number) }
{
    allows(c.program, types, w.exception(number).ty())
}

// An exception out of the unexpected handler is thrown again if it is allowed; else a bad_exception is thrown in its place if that is
// listed, and else terminate is called.
#[tactic(auto, using(crate::proofs::Passing::passing, crate::proofs::Unexpected::passed_again, crate::proofs::Unexpected::passed_bad, crate::proofs::Unexpected::passed_ended))]
fn pass_on<G: Outside, C: Calls<G>>(
    calls: &C,
    c: &Context<'_>,
    w: &mut World<G>,
    types: &[Ty],
    kept: Installed,
    number: u64,
) -> Halt
    requires { C.answers calls.now c.now.depth }
    ensures { Halts (rules.pass_on {A = FlowMeant} (always (checked_of c.now.program.now)) (map object_type types.now) (installed_of kept) number (context_of c.now) (world_of G.told c.now.depth w.old)) result (world_of G.told c.now.depth w.new) }
{
    if is_allowed(c, w, types, number) {
        raise_exception(calls, c, w, number)
    } else if lists_bad_exception(types) {
        throw_bad_exception(calls, c, w)
    } else {
        terminate_with(calls, c, w, kept.terminate)
    }
}

// What comes out of the unexpected handler is entered, passed on, and left.
fn pass_on_entered<G: Outside, C: Calls<G>>(
    calls: &C,
    c: &Context<'_>,
    w: &mut World<G>,
    types: &[Ty],
    kept: Installed,
    number: u64,
) -> Result<Flow, Halt>
    requires { C.answers calls.now c.now.depth }
    ensures { GivesBy flow_of (passing_on (always (checked_of c.now.program.now)) (map object_type types.now) (installed_of kept) number (context_of c.now) (world_of G.told c.now.depth w.old)) result (world_of G.told c.now.depth w.new) }
{
    enter(calls, c, w, number)?;
    let handled = Numbers::More(number, c.handled);
    let inner = Context {
        handled: &handled,
        ..*c
    };
    let outcome = Err(pass_on(calls, &inner, w, types, kept, number));
    after_handler(calls, c, w, number, outcome)
}

// The unexpected handler runs under a guard that stops every exception; without one, or where it returns, terminate is called.
#[tactic(auto, using(crate::proofs::Passing::passing, crate::proofs::Outward::unexpected_passed))]
fn run_unexpected_handler<G: Outside, C: Calls<G>>(
    calls: &C,
    c: &Context<'_>,
    w: &mut World<G>,
    types: &[Ty],
    kept: Installed,
) -> Result<Flow, Halt>
    requires { C.answers calls.now c.now.depth }
    ensures { GivesBy flow_of (rules.run_unexpected_handler (always (checked_of c.now.program.now)) (map object_type types.now) (installed_of kept) kept.unexpected (context_of c.now) (world_of G.told c.now.depth w.old)) result (world_of G.told c.now.depth w.new) }
{
    let Some(handler) = kept.unexpected else {
        return Err(terminate_with(calls, c, w, kept.terminate));
    };
    let guards = Guards::More(Guard::CatchAll, c.guards);
    let inner = Context {
        guards: &guards,
        ..*c
    };
    let nothing = Reference::whole(c.alloc, 0);
    match calls.call(&inner, w, Callee::Function(handler), &nothing, &[]) {
        Ok(_) => Err(terminate_with(calls, c, w, kept.terminate)),
        Err(halt) => match halt {
            Halt::Thrown(number) => pass_on_entered(calls, c, w, types, kept, number),
            _ => Err(halt),
        },
    }
}

// An exception that a specification stops is entered, the unexpected handler kept with it is called, and the exception is left.
#[tactic(auto, using(crate::proofs::Passing::passing, crate::proofs::Unexpected::unexpected_left))]
fn unexpected<G: Outside, C: Calls<G>>(
    calls: &C,
    c: &Context<'_>,
    w: &mut World<G>,
    types: &[Ty],
    number: u64,
) -> Result<Flow, Halt>
    requires { C.answers calls.now c.now.depth }
    ensures { GivesBy flow_of (rules.unexpected (always (checked_of c.now.program.now)) (map object_type types.now) number (context_of c.now) (world_of G.told c.now.depth w.old)) result (world_of G.told c.now.depth w.new) }
{
    enter(calls, c, w, number)?;
    let kept = w.exception(number).kept();
    let handled = Numbers::More(number, c.handled);
    let inner = Context {
        handled: &handled,
        ..*c
    };
    let outcome = run_unexpected_handler(calls, &inner, w, types, kept);
    after_handler(calls, c, w, number, outcome)
}

/// What a specification does not allow is unexpected; a foreign exception was doomed and does not come so far.
#[tactic(auto, using(crate::proofs::Passing::passing, crate::proofs::Outward::extent_passed, crate::proofs::Outward::extent_allowed, crate::proofs::Outward::extent_stops))]
pub fn after_extent<G: Outside, C: Calls<G>>(
    calls: &C,
    c: &Context<'_>,
    w: &mut World<G>,
    types: &[Ty],
    outcome: Result<Flow, Halt>,
) -> Result<Flow, Halt>
    requires { C.answers calls.now c.now.depth }
    ensures { (m : Outcome FlowMeant) → GivesBy flow_of m outcome (world_of G.told c.now.depth w.old) → GivesBy flow_of (rules.after_extent (always (checked_of c.now.program.now)) (map object_type types.now) (context_of c.now) m) result (world_of G.told c.now.depth w.new) }
{
    match outcome {
        Ok(flow) => Ok(flow),
        Err(halt) => match halt {
            Halt::Thrown(number) => {
                if is_allowed(c, w, types, number) {
                    Err(halt)
                } else {
                    unexpected(calls, c, w, types, number)
                }
            }
            _ => Err(halt),
        },
    }
}

// An exception that comes out of what is `noexcept` is entered, and terminate is called.
#[tactic(auto, using(crate::proofs::Passing::passing))]
fn end_noexcept<G: Outside, C: Calls<G>>(
    calls: &C,
    c: &Context<'_>,
    w: &mut World<G>,
    number: u64,
) -> Result<Flow, Halt>
    requires { C.answers calls.now c.now.depth }
    ensures { GivesBy flow_of (rules.end_noexcept (always (checked_of c.now.program.now)) (context_of c.now) number (world_of G.told c.now.depth w.old)) result (world_of G.told c.now.depth w.new) }
{
    enter(calls, c, w, number)?;
    let handled = Numbers::More(number, c.handled);
    let inner = Context {
        handled: &handled,
        ..*c
    };
    Err(terminate(calls, &inner, w))
}

/// Whatever comes out of what is `noexcept` ends the program.
#[tactic(auto, using(crate::proofs::Passing::passing, crate::proofs::Outward::noexcept_passed, crate::proofs::Outward::noexcept_stops))]
pub fn after_noexcept<G: Outside, C: Calls<G>>(
    calls: &C,
    c: &Context<'_>,
    w: &mut World<G>,
    outcome: Result<Flow, Halt>,
) -> Result<Flow, Halt>
    requires { C.answers calls.now c.now.depth }
    ensures { (m : Outcome FlowMeant) → GivesBy flow_of m outcome (world_of G.told c.now.depth w.old) → GivesBy flow_of (after_try (rules.end_noexcept (always (checked_of c.now.program.now)) (context_of c.now)) m) result (world_of G.told c.now.depth w.new) }
{
    match outcome {
        Ok(flow) => Ok(flow),
        Err(halt) => match halt {
            Halt::Thrown(number) => end_noexcept(calls, c, w, number),
            _ => Err(halt),
        },
    }
}
