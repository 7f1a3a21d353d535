// Calls: what is done in a call, and what it spends.

ghost use Rattle.std.specs.Prelude.{◌≡◌, map, [], option_map, IfOk};
ghost use Rattle.cxx_ast.specs.View.{checked_of};
ghost use Rattle.meaning_forms.specs.World.{World as WorldMeant};
ghost use Rattle.meaning_forms.specs.Class.{parts_of as rule_parts_of};
ghost use Rattle.meaning_forms.specs.Outcome.{normal, pure};
ghost use Rattle.meaning_forms.specs.Construct as construct_rules;
ghost use Rattle.meaning_forms.specs.Call as rules;
ghost use Rattle.scope_world.specs.Gives.{Gives, GivesBy, flow_of};
ghost use Rattle.scope_world.specs.Inward.{argument_of, context_of, first_frame};
ghost use Rattle.scope_world.specs.Objects.{reference_of};
ghost use Rattle.scope_world.specs.Seen.{world_of};
ghost use Rattle.scope_world.specs.Program.{function_or_none};
ghost use Rattle.scope_flow.specs.Always.{full_call, always};
ghost use Rattle.scope_flow.specs.Asked.{callee_of, constructor_of};
ghost use Rattle.scope_meaning.specs.Asked.{building_of};

use crate::NoMemory;
use crate::extent::{Extent, under_specification};
use crate::parts::{Plan, build_parts, destroy_parts};
use cxx_ast::declaration::Func;
use cxx_ast::types::Ty;
use scope_flow::{Callee, Calls, Constructor, destructor_place};
use scope_world::{
    Argument, Context, Flow, Frame, Halt, Locals, Outside, Reference, World, function_at,
    method_at, parameters_bound, parameters_of, parts_of,
};
use std::alloc::Global;

/// Calls are made by a function.
#[derive(Drop)]
pub struct By<F> {
    pub make: F,
}

impl<
    G: Outside,
    F: Fn(&Context<'_>, &mut World<G>, Callee, &Reference, &[Argument]) -> Result<i32, Halt>,
> Calls<G> for By<F> {
    ghost answers = { λ s d. ((c : _) (w : _) (k : _) (x : _) (given : _) → c.now.depth ≡ d → F.pre s.make c w k x given) × ((c : _) (w : _) (k : _) (x : _) (given : _) (r : _) (v : _) → c.now.depth ≡ d → F.post s.make c w k x given r v → Gives (full_call (checked_of c.now.program.now) (callee_of k) (reference_of x.now) (map argument_of given.now) (context_of c.now) (world_of G.told d w.now)) r (world_of G.told d v.now)) };

    fn call(
        &self,
        c: &Context<'_>,
        w: &mut World<G>,
        callee: Callee,
        this: &Reference,
        given: &[Argument],
    ) -> Result<i32, Halt> {
        (self.make)(c, w, callee, this, given)
    }
}

/// The most calls that are open at once.
const MOST_OPEN: u64 = 128;

/// A call, which spends a turn, unless it would be one more than may be open.
#[tactic(auto, using(crate::proofs::Opened::call_deep, crate::proofs::Opened::call_unspent, crate::proofs::Opened::call_done))]
pub fn call<G: Outside>(
    c: &Context<'_>,
    w: &mut World<G>,
    callee: Callee,
    this: &Reference,
    given: &[Argument],
) -> Result<i32, Halt>
    ensures { Gives (full_call (checked_of c.now.program.now) (callee_of callee) (reference_of this.now) (map argument_of given.now) (context_of c.now) (world_of G.told c.now.depth w.old)) result (world_of G.told c.now.depth w.new) }
{
    if c.depth >= MOST_OPEN {
        return Err(Halt::Deep);
    }
    w.spend_turn()?;
    let depth = c.depth + 1;
    w.deepest = w.deepest.max(depth);
    let inner = Context { depth, ..*c };
    let calls = By {
        make: move |c: &Context<'_>, w: &mut World<G>, callee, this: &Reference, given: &[Argument]|
            ensures { Gives (full_call (checked_of c.entry.now.program.now) (callee_of callee) (reference_of this.entry.now) (map argument_of given.entry.now) (context_of c.entry.now) (world_of G.told depth w.entry.now)) result (world_of G.told depth w.exit.now) }
        {
            let inner = Context { depth, ..*c };
            call(&inner, w, callee, this, given)
        },
    };
    run_callee(&calls, &inner, w, callee, this, given)
}

#[tactic(auto, using(scope_flow::proofs::Passing::passing, crate::proofs::Called::called_function, crate::proofs::Called::called_method))]
fn run_callee<G: Outside, C: Calls<G>>(
    calls: &C,
    c: &Context<'_>,
    w: &mut World<G>,
    callee: Callee,
    this: &Reference,
    given: &[Argument],
) -> Result<i32, Halt>
    requires { C.answers calls.now c.now.depth }
    ensures { Gives (rules.run_callee (always (checked_of c.now.program.now)) (callee_of callee) (reference_of this.now) (map argument_of given.now) (context_of c.now) (world_of G.told c.now.depth w.old)) result (world_of G.told c.now.depth w.new) }
{
    match callee {
        Callee::Function(n) => {
            let is_main = n == c.program.main;
            run_function(calls, c, w, is_main, function_at(c.program, n), this, given)
        }
        Callee::Method(class, place) => {
            run_function(
                calls,
                c,
                w,
                false,
                method_at(c.program, class, place),
                this,
                given,
            )
        }
        Callee::Constructor(class, which) => {
            run_constructor(calls, c, w, class, which, this, given)?;
            Ok(0)
        }
        Callee::Destructor(class) => {
            run_destructor(calls, c, w, class, this)?;
            Ok(0)
        }
    }
}

// The value of a call that comes to the end of its function.
#[tactic(auto, using(crate::proofs::Called::end_defined))]
fn value_at_end(is_main: bool, function: Option<&Func>) -> Result<i32, Halt>
    ensures { (w : WorldMeant) → Gives (rules.value_at_end is_main (function_or_none (option_map (λ x. x.now) function.entry)).result w) result w }
{
    if is_main {
        return Ok(0);
    }
    match function {
        Some(it) => match it.result {
            Ty::Int => Err(Halt::Undefined),
            _ => Ok(0),
        },
        None => Ok(0),
    }
}

// The value of a call whose body is done.
#[tactic(auto, using(crate::proofs::Called::comes_to_end))]
fn value_returned(is_main: bool, function: Option<&Func>, flow: Flow) -> Result<i32, Halt>
    ensures { (w : WorldMeant) → Gives (rules.value_returned is_main (function_or_none (option_map (λ x. x.now) function.entry)).result (flow_of flow) w) result w }
{
    match flow {
        Flow::Returns(value) => match value {
            Some(value) => Ok(value),
            None => Ok(0),
        },
        _ => value_at_end(is_main, function),
    }
}

#[tactic(auto, using(scope_flow::proofs::Passing::passing, crate::proofs::Called::ran, crate::proofs::Called::run_halted))]
fn run_function<G: Outside, C: Calls<G>>(
    calls: &C,
    c: &Context<'_>,
    w: &mut World<G>,
    is_main: bool,
    function: Option<&Func>,
    this: &Reference,
    given: &[Argument],
) -> Result<i32, Halt>
    requires { C.answers calls.now c.now.depth }
    ensures { Gives (rules.run_function (always (checked_of c.now.program.now)) is_main (function_or_none (option_map (λ x. x.now) function.entry)) (reference_of this.now) (map argument_of given.now) (context_of c.now) (world_of G.told c.now.depth w.old)) result (world_of G.told c.now.depth w.new) }
{
    let parameters = parameters_bound(c, w, parameters_of(function), given)?;
    let frame = Frame {
        this,
        parameters: parameters.as_slice(),
        locals: &Locals::None,
    };
    let flow = under_specification(calls, c, w, Extent::Body, function, &frame)?;
    value_returned(is_main, function, flow)
}

// The object that an implicit copy constructor copies.
fn source_of(alloc: Global, given: &[Argument]) -> Result<Reference, NoMemory>
    ensures { IfOk result (λ r. reference_of r ≡ rules.source_of (map argument_of given.now)) }
{
    match given.first() {
        Some(Argument::Place(it)) => it.copied(alloc),
        _ => Ok(Reference::whole(alloc, 0)),
    }
}

#[tactic(auto, using(scope_flow::proofs::Passing::passing, crate::proofs::Called::constructed, crate::proofs::Called::constructed_copy))]
fn run_constructor<G: Outside, C: Calls<G>>(
    calls: &C,
    c: &Context<'_>,
    w: &mut World<G>,
    class: u32,
    which: Constructor,
    this: &Reference,
    given: &[Argument],
) -> Result<Flow, Halt>
    requires { C.answers calls.now c.now.depth }
    ensures { GivesBy flow_of (rules.run_constructor (always (checked_of c.now.program.now)) class (constructor_of which) (reference_of this.now) (map argument_of given.now) (context_of c.now) (world_of G.told c.now.depth w.old)) result (world_of G.told c.now.depth w.new) }
{
    match which {
        Constructor::ImplicitDefault => { run_implicit(calls, c, w, class, this, &Plan::Default) }
        Constructor::ImplicitCopy => {
            let source = source_of(c.alloc, given)?;
            run_implicit(calls, c, w, class, this, &Plan::Copy(source))
        }
        Constructor::Declared(place) => {
            let function = method_at(c.program, class, place);
            let parameters = parameters_bound(c, w, parameters_of(function), given)?;
            let frame = Frame {
                this,
                parameters: parameters.as_slice(),
                locals: &Locals::None,
            };
            under_specification(calls, c, w, Extent::Construction(class), function, &frame)
        }
    }
}

// A constructor that is not declared builds the parts by a plan.
#[tactic(auto, using(scope_flow::proofs::Passing::passing, crate::proofs::Called::parts_built))]
fn run_implicit<G: Outside, C: Calls<G>>(
    calls: &C,
    c: &Context<'_>,
    w: &mut World<G>,
    class: u32,
    this: &Reference,
    plan: &Plan<'_>,
) -> Result<Flow, Halt>
    requires { C.answers calls.now c.now.depth }
    ensures { GivesBy flow_of (rules.build_parts (always (checked_of c.now.program.now)) (building_of (always (checked_of c.now.program.now)) plan.now (first_frame (reference_of this.now) []) (context_of c.now)) (reference_of this.now) 0 (rule_parts_of (checked_of c.now.program.now) class) (context_of c.now) (pure normal) (world_of G.told c.now.depth w.old)) result (world_of G.told c.now.depth w.new) }
{
    let types = parts_of(c.alloc, c.program, class)?;
    let frame = Frame {
        this,
        parameters: &[],
        locals: &Locals::None,
    };
    build_parts(calls, c, w, plan, &frame, 0, types.as_slice(), None)
}

#[tactic(auto, using(scope_flow::proofs::Passing::passing, crate::proofs::Called::destroyed_plainly, crate::proofs::Called::destroyed_so, crate::proofs::Called::parts_destroyed))]
fn run_destructor<G: Outside, C: Calls<G>>(
    calls: &C,
    c: &Context<'_>,
    w: &mut World<G>,
    class: u32,
    this: &Reference,
) -> Result<Flow, Halt>
    requires { C.answers calls.now c.now.depth }
    ensures { GivesBy flow_of (rules.run_destructor (always (checked_of c.now.program.now)) class (construct_rules.destructor_place (checked_of c.now.program.now) class) (reference_of this.now) (context_of c.now) (world_of G.told c.now.depth w.old)) result (world_of G.told c.now.depth w.new) }
{
    let frame = Frame {
        this,
        parameters: &[],
        locals: &Locals::None,
    };
    match destructor_place(c.program, class) {
        None => {
            let types = parts_of(c.alloc, c.program, class)?;
            destroy_parts(calls, c, w, &frame, 0, types.as_slice(), None)
        }
        Some(place) => {
            let function = method_at(c.program, class, place);
            under_specification(calls, c, w, Extent::Destruction(class), function, &frame)
        }
    }
}
