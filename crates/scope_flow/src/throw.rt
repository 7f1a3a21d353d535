// Throw and rethrow, and the exceptions of modules.

ghost use Rattle.std.specs.Prelude.{◌≡◌, ℕ, ℤ};
ghost use Rattle.cxx_ast.specs.View.{checked_of};
ghost use Rattle.meaning_forms.specs.Outcome.{Flow as FlowMeant, Result as Outcome};
ghost use Rattle.scope_flow.specs.Always.{always};
ghost use Rattle.scope_world.specs.Gives.{Gives, Halts};
ghost use Rattle.scope_world.specs.Inward.{context_of, numbers_of};
ghost use Rattle.scope_world.specs.Seen.{world_of};
ghost use Rattle.meaning_forms.specs.Throw as rules;
ghost use Rattle.scope_flow.specs.Steps.{built, newest};

use crate::callee::Calls;
use crate::terminating::{terminate, terminate_because};
use eh_outer::Reply;
use scope_world::{Context, Halt, Numbers, Outside, World, is_doomed};

/// A doomed exception calls terminate before any cleanup runs; any other travels to the guard that stops it.
#[tactic(auto, using(crate::proofs::Passing::passing, crate::proofs::Raising::raised_doomed, crate::proofs::Raising::raised_thrown))]
pub fn raise_exception<G: Outside, C: Calls<G>>(
    calls: &C,
    c: &Context<'_>,
    w: &mut World<G>,
    number: u64,
) -> Halt
    requires { C.answers calls.now c.now.depth }
    ensures int { Halts (rules.raise_exception {A = ℤ} (always (checked_of c.now.program.now)) number (context_of c.now) (world_of G.told c.now.depth w.old)) result (world_of G.told c.now.depth w.new) }
    ensures flow { Halts (rules.raise_exception {A = FlowMeant} (always (checked_of c.now.program.now)) number (context_of c.now) (world_of G.told c.now.depth w.old)) result (world_of G.told c.now.depth w.new) }
    ensures none { Halts (rules.raise_exception {A = Unit {0}} (always (checked_of c.now.program.now)) number (context_of c.now) (world_of G.told c.now.depth w.old)) result (world_of G.told c.now.depth w.new) }
{
    if is_doomed(c.program, c.guards, w.exception(number).ty()) {
        terminate_because(calls, c, w, number)
    } else {
        Halt::Thrown(number)
    }
}

// Where building exits by an exception or a forced unwind, the object is freed without being destroyed.
#[tactic(auto, using(crate::proofs::Passing::freed, crate::proofs::Passing::not_freed))]
fn after_building<G: Outside>(
    w: &mut World<G>,
    number: u64,
    outcome: Result<usize, Halt>,
) -> Result<usize, Halt>
    ensures { (d : ℕ) (m : Outcome ℕ) → Gives m outcome (world_of G.told d w.old) → Gives (rules.after_building number m) result (world_of G.told d w.new) }
{
    match outcome {
        Ok(object) => Ok(object),
        Err(halt) => {
            if halt.unwinds() {
                w.free(number)?;
                return Err(halt);
            }
            Err(halt)
        }
    }
}

/// After its object is built, an exception is thrown.
#[tactic(auto, using(crate::proofs::Passing::passing, crate::proofs::Raising::built_raised))]
pub fn throw_built<G: Outside, C: Calls<G>>(
    calls: &C,
    c: &Context<'_>,
    w: &mut World<G>,
    number: u64,
    outcome: Result<usize, Halt>,
) -> Halt
    requires { C.answers calls.now c.now.depth }
    ensures { (m : Outcome ℕ) → Gives m outcome (world_of G.told c.now.depth w.old) → Halts (built (always (checked_of c.now.program.now)) number (context_of c.now) m) result (world_of G.told c.now.depth w.new) }
{
    match after_building(w, number, outcome) {
        Ok(object) => match w.keep(number, object) {
            Ok(()) => raise_exception(calls, c, w, number),
            Err(_) => Halt::NoMemory,
        },
        Err(halt) => halt,
    }
}

fn newest(handled: &Numbers<'_>) -> Option<u64>
    ensures { result ≡ newest (numbers_of handled.now) }
{
    match handled {
        Numbers::None => None,
        Numbers::More(number, _) => Some(*number),
    }
}

/// `throw;`: the newest handled exception is thrown again; with none, or while it travels, terminate is called.
pub fn rethrow<G: Outside, C: Calls<G>>(calls: &C, c: &Context<'_>, w: &mut World<G>) -> Halt
    requires { C.answers calls.now c.now.depth }
    ensures { Halts (rules.rethrow {A = FlowMeant} (always (checked_of c.now.program.now)) (context_of c.now) (world_of G.told c.now.depth w.old)) result (world_of G.told c.now.depth w.new) }
{
    match newest(c.handled) {
        None => terminate(calls, c, w),
        Some(number) => {
            if c.travelling.contains(number) {
                terminate(calls, c, w)
            } else {
                raise_exception(calls, c, w, number)
            }
        }
    }
}

#[tactic(auto, using(crate::proofs::Passing::passing, crate::proofs::Raising::foreign_full, crate::proofs::Raising::foreign_raised))]
fn raise_foreign<G: Outside, C: Calls<G>>(
    calls: &C,
    c: &Context<'_>,
    w: &mut World<G>,
    guest: u32,
    token: u32,
) -> Halt
    requires { C.answers calls.now c.now.depth }
    ensures { Halts (rules.raise_foreign {A = ℤ} (always (checked_of c.now.program.now)) guest token (context_of c.now) (world_of G.told c.now.depth w.old)) result (world_of G.told c.now.depth w.new) }
{
    if w.is_full() {
        return terminate(calls, c, w);
    }
    match w.raise(guest, token) {
        Ok(number) => raise_exception(calls, c, w, number),
        Err(_) => Halt::NoMemory,
    }
}

/// `__module(k, a)`: the next reply of module k is the value, or raises an exception; without such a module the value is 0.
pub fn call_module<G: Outside, C: Calls<G>>(
    calls: &C,
    c: &Context<'_>,
    w: &mut World<G>,
    guest: i32,
    argument: i32,
) -> Result<i32, Halt>
    requires { C.answers calls.now c.now.depth }
    ensures { Gives (rules.call_module (always (checked_of c.now.program.now)) guest (context_of c.now) (world_of G.told c.now.depth w.old)) result (world_of G.told c.now.depth w.new) }
{
    let Ok(guest) = u32::try_from(guest) else {
        return Ok(0);
    };
    match w.reply(guest, argument) {
        Reply::Value(value) => Ok(value),
        Reply::Raise(token) => Err(raise_foreign(calls, c, w, guest, token)),
    }
}
