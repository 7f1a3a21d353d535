// Handlers: entering an exception, a handler's parameter, and leaving the exception.

ghost use Rattle.std.specs.Prelude.{◌≡◌, ◌==◌, ◌&&◌, not, ℕ, Some, option_map, IfSome};
ghost use Rattle.cxx_ast.specs.View.{checked_of, option_of};
ghost use Rattle.meaning_forms.specs.Outcome.{Flow as FlowMeant, Result as Outcome};
ghost use Rattle.meaning_forms.specs.World.{Reference as ReferenceMeant, World as WorldMeant};
ghost use Rattle.scope_flow.specs.Always.{always};
ghost use Rattle.scope_world.specs.Gives.{Gives, GivesBy, flow_of};
ghost use Rattle.scope_world.specs.Inward.{clause_in, context_of};
ghost use Rattle.scope_world.specs.Objects.{reference_of, type_of};
ghost use Rattle.scope_world.specs.Seen.{world_of};
ghost use Rattle.meaning_forms.specs.Construct.{destroy};
ghost use Rattle.meaning_forms.specs.Class.{some_of};
ghost use Rattle.meaning_forms.specs.Handler as rules;
ghost use Rattle.meaning_forms.specs.Running.{Running};
ghost use Rattle.meaning_forms.specs.World.{exception_at};
ghost use Rattle.scope_flow.specs.Steps.{entered};
ghost use Rattle.std.specs.List.{find};
ghost use Rattle.meaning_forms.specs.Guard.{matches as rule_matches};

use crate::callee::Calls;
use crate::construct::copy_object;
use crate::destroy::{Leaving, after_barrier, after_scope, destroy};
use crate::terminating::terminate;
use cxx_ast::program::Checked;
use cxx_ast::statement::Handler;
use cxx_ast::types::Ty;
use run_items::Item;
use scope_world::{
    Context, Exception, Flow, Guard, Guards, Halt, Numbers, ObjectType, Outside, Part, Reference,
    World, bound_as, class_named, matches, unset,
};

// Whether an exception is foreign, and another is handled.
fn is_refused<G: Outside>(c: &Context<'_>, w: &World<G>, number: u64) -> bool
    ensures { (d : ℕ) → result ≡ (rules.is_foreign (exception_at (world_of G.told d w.now) number) && some_of (λ f. not (f == number)) (context_of c.now).handled) }
{
    w.exception(number).is_foreign() && c.handled.contains_other(number)
}

/// An exception is entered, but entering a foreign one while another is handled calls terminate.
#[tactic(auto, using(crate::proofs::Passing::passing, crate::proofs::Entering::enter_refused, crate::proofs::Entering::enter_done))]
pub fn enter<G: Outside, C: Calls<G>>(
    calls: &C,
    c: &Context<'_>,
    w: &mut World<G>,
    number: u64,
) -> Result<(), Halt>
    requires { C.answers calls.now c.now.depth }
    ensures { Gives (rules.enter (always (checked_of c.now.program.now)) number (context_of c.now) (world_of G.told c.now.depth w.old)) result (world_of G.told c.now.depth w.new) }
{
    if is_refused(c, w, number) {
        let travelling = Numbers::More(number, c.travelling);
        let inner = Context {
            travelling: &travelling,
            ..*c
        };
        return Err(terminate(calls, &inner, w));
    }
    w.emit(Item::Enter(number))?;
    Ok(())
}

// An exception object is freed after its destructor, also where that gave an exception or a forced unwind.
#[tactic(auto, using(crate::proofs::Passing::destroyed, crate::proofs::Passing::destroyed_halts, crate::proofs::Passing::not_destroyed))]
fn after_destructor<G: Outside>(
    w: &mut World<G>,
    number: u64,
    outcome: Result<(), Halt>,
) -> Result<(), Halt>
    ensures { (d : ℕ) (m : Outcome (Unit {0})) → Gives m outcome (world_of G.told d w.old) → Gives (rules.after_destructor number m) result (world_of G.told d w.new) }
{
    match outcome {
        Ok(()) => {
            w.free(number)?;
            Ok(())
        }
        Err(halt) => {
            if halt.unwinds() {
                w.free(number)?;
                return Err(halt);
            }
            Err(halt)
        }
    }
}

// An exception is destroyed and freed; for a foreign one its module's cleanup is called in place of that.
#[tactic(auto, using(crate::proofs::Passing::passing, crate::proofs::Entering::given_building, crate::proofs::Entering::given_native, crate::proofs::Entering::given_foreign))]
fn give_back<G: Outside, C: Calls<G>>(
    calls: &C,
    c: &Context<'_>,
    w: &mut World<G>,
    number: u64,
) -> Result<(), Halt>
    requires { C.answers calls.now c.now.depth }
    ensures { Gives (rules.give_back (always (checked_of c.now.program.now)) number (exception_at (world_of G.told c.now.depth w.old) number) (context_of c.now) (world_of G.told c.now.depth w.old)) result (world_of G.told c.now.depth w.new) }
{
    match w.exception(number) {
        Exception::Building => Ok(()),
        Exception::Native(ty, object, _) => {
            w.emit(Item::Destroy(number))?;
            let outcome = destroy(calls, c, w, ty, &Reference::whole(c.alloc, object));
            after_destructor(w, number, outcome)
        }
        Exception::Foreign(guest, token) => {
            w.clean(number, guest, token)?;
            Ok(())
        }
    }
}

/// An exception is left, and given back unless it is kept.
#[tactic(auto, using(crate::proofs::Passing::passing, crate::proofs::Entering::left_alone, crate::proofs::Entering::left_given))]
pub fn let_go<G: Outside, C: Calls<G>>(
    calls: &C,
    c: &Context<'_>,
    w: &mut World<G>,
    number: u64,
    kept: bool,
) -> Result<(), Halt>
    requires { C.answers calls.now c.now.depth }
    ensures { Gives (rules.let_go (always (checked_of c.now.program.now)) number kept (context_of c.now) (world_of G.told c.now.depth w.old)) result (world_of G.told c.now.depth w.new) }
{
    w.emit(Item::Leave(number))?;
    if kept {
        Ok(())
    } else {
        give_back(calls, c, w, number)
    }
}

// Whether an exception that is left goes on: another entered handler of it is still active, or it travels again. It is not known
// where memory was wanting.
#[tactic(auto, using(crate::proofs::Passing::passing, crate::proofs::Outward::active_goes_on))]
fn goes_on(c: &Context<'_>, number: u64, outcome: &Result<Flow, Halt>) -> Option<bool>
    ensures { (m : Outcome FlowMeant) (v : WorldMeant) → GivesBy flow_of m outcome.now v → IfSome result (λ kept. kept ≡ rules.goes_on number (context_of c.now) m) }
{
    let active = c.handled.contains(number);
    match outcome {
        Ok(_) => Some(active),
        Err(halt) => match halt {
            Halt::Thrown(thrown) => Some(*thrown == number || active),
            Halt::NoMemory => None,
            _ => Some(active),
        },
    }
}

/// Leaving an exception is like leaving a scope in which it was built; the context is the one outside.
#[tactic(auto, using(crate::proofs::Passing::passing, crate::proofs::Entering::left_knowing))]
pub fn after_handler<G: Outside, C: Calls<G>>(
    calls: &C,
    c: &Context<'_>,
    w: &mut World<G>,
    number: u64,
    outcome: Result<Flow, Halt>,
) -> Result<Flow, Halt>
    requires { C.answers calls.now c.now.depth }
    ensures { (m : Outcome FlowMeant) → GivesBy flow_of m outcome (world_of G.told c.now.depth w.old) → GivesBy flow_of (rules.after_handler (always (checked_of c.now.program.now)) number (context_of c.now) m) result (world_of G.told c.now.depth w.new) }
{
    match goes_on(c, number, &outcome) {
        Some(kept) => {
            let leaving = Leaving::Exception(number, kept);
            after_scope(calls, c, w, &leaving, outcome)
        }
        None => Err(Halt::NoMemory),
    }
}

/// A new object of a class, copied behind a barrier.
#[tactic(auto, using(crate::proofs::Passing::passing, crate::proofs::Entering::copied, crate::proofs::Entering::copy_halted))]
pub fn new_copy<G: Outside, C: Calls<G>>(
    calls: &C,
    c: &Context<'_>,
    w: &mut World<G>,
    class: u32,
    source: &Reference,
) -> Result<usize, Halt>
    requires { C.answers calls.now c.now.depth }
    ensures { Gives (rules.new_copy (always (checked_of c.now.program.now)) class (reference_of source.now) (context_of c.now) (world_of G.told c.now.depth w.old)) result (world_of G.told c.now.depth w.new) }
{
    let part = unset(c.alloc, c.program, ObjectType::Class(class))?;
    let object = w.new_object(part)?;
    let guards = Guards::More(Guard::Barrier, c.guards);
    let inner = Context {
        guards: &guards,
        ..*c
    };
    let target = Reference::whole(c.alloc, object);
    let outcome = copy_object(calls, &inner, w, class, &target, source);
    after_barrier(calls, c, w, outcome)?;
    Ok(object)
}

// A parameter of a type: by value it is a copy, and by reference it names the exception object or its base.
fn parameter_of<G: Outside, C: Calls<G>>(
    calls: &C,
    c: &Context<'_>,
    w: &mut World<G>,
    ty: &Ty,
    source: Reference,
) -> Result<Reference, Halt>
    requires { C.answers calls.now c.now.depth }
    ensures { GivesBy reference_of (rules.catch_parameter (always (checked_of c.now.program.now)) (Some ty.now) (reference_of source) (context_of c.now) (world_of G.told c.now.depth w.old)) result (world_of G.told c.now.depth w.new) }
{
    match ty {
        Ty::Int => {
            let value = w.read(&source)?;
            let object = w.new_object(Part::Cell(Some(value)))?;
            Ok(Reference::whole(c.alloc, object))
        }
        Ty::Object(name) => {
            let class = class_named(name);
            let source = w.as_class(class, source)?;
            let object = new_copy(calls, c, w, class, &source)?;
            Ok(Reference::whole(c.alloc, object))
        }
        _ => Ok(bound_as(w, ty, source)?),
    }
}

// A parameter is made also where it has no name.
fn catch_parameter<G: Outside, C: Calls<G>>(
    calls: &C,
    c: &Context<'_>,
    w: &mut World<G>,
    ty: &Option<Ty>,
    source: Reference,
) -> Result<Reference, Halt>
    requires { C.answers calls.now c.now.depth }
    ensures { GivesBy reference_of (rules.catch_parameter (always (checked_of c.now.program.now)) ty.now (reference_of source) (context_of c.now) (world_of G.told c.now.depth w.old)) result (world_of G.told c.now.depth w.new) }
{
    match ty {
        None => Ok(Reference::whole(c.alloc, 0)),
        Some(ty) => parameter_of(calls, c, w, ty, source),
    }
}

/// The type of a parameter that is destroyed with its handler; int, which needs no destruction, for any other.
#[tactic(auto, using(crate::proofs::Passing::passing, crate::proofs::Entering::not_destroyed_so))]
pub fn own_type(ty: &Option<Ty>) -> ObjectType
    ensures { (r : Running) (x : ReferenceMeant) → rules.destroy_parameter r ty.now x ≡ destroy r (type_of result) x }
{
    match ty {
        Some(Ty::Object(name)) => ObjectType::Class(class_named(name)),
        _ => ObjectType::Int,
    }
}

/// The parameter of a handler, made while the exception travels, and the entry.
#[tactic(auto, using(crate::proofs::Passing::passing, crate::proofs::Entering::entered_done, crate::proofs::Entering::entry_halted, crate::proofs::Entering::parameter_halted))]
pub fn entered<G: Outside, C: Calls<G>>(
    calls: &C,
    c: &Context<'_>,
    w: &mut World<G>,
    ty: &Option<Ty>,
    number: u64,
) -> Result<Reference, Halt>
    requires { C.answers calls.now c.now.depth }
    ensures { GivesBy reference_of (entered (always (checked_of c.now.program.now)) ty.now number (context_of c.now) (world_of G.told c.now.depth w.old)) result (world_of G.told c.now.depth w.new) }
{
    let source = w.exception(number).object(c.alloc);
    let travelling = Numbers::More(number, c.travelling);
    let inner = Context {
        travelling: &travelling,
        ..*c
    };
    let parameter = catch_parameter(calls, &inner, w, ty, source)?;
    enter(calls, c, w, number)?;
    Ok(parameter)
}

/// The first handler whose clause matches an exception.
pub fn handler_for<'a>(
    program: &Checked,
    handlers: &'a [Handler],
    thrown: Option<ObjectType>,
) -> Option<&'a Handler>
    ensures { option_map (λ x. x.now) result ≡ find (λ h. rule_matches (checked_of program.now) (option_of type_of thrown) (clause_in h)) handlers.now }
{
    handlers.iter().find(|h| matches(program, thrown, &h.ty))
}
