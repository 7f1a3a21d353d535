// What the specification of a function guards.

ghost use Rattle.std.specs.Prelude.{◌≡◌, option_map};
ghost use Rattle.cxx_ast.specs.View.{checked_of, specification_of};
ghost use Rattle.meaning_forms.specs.Specification as rules;
ghost use Rattle.scope_world.specs.Gives.{GivesBy, flow_of};
ghost use Rattle.scope_world.specs.Inward.{context_of, frame_of};
ghost use Rattle.scope_world.specs.Program.{function_or_none};
ghost use Rattle.scope_world.specs.Seen.{world_of};
ghost use Rattle.scope_flow.specs.Always.{always};
ghost use Rattle.scope_meaning.specs.Asked.{extent_of};

use crate::parts::{Plan, build_parts, destroy_parts};
use crate::statement::statements;
use cxx_ast::declaration::{Func, Spec};
use scope_flow::{Calls, after_extent, after_noexcept};
use scope_world::{Context, Flow, Frame, Guard, Guards, Halt, Outside, World, body_of, parts_of};

/// What the specification of a function guards.
#[derive(Clone, Copy)]
pub enum Extent {
    Body,
    Construction(u32),
    Destruction(u32),
}

#[tactic(auto, using(scope_flow::proofs::Passing::passing, crate::proofs::Called::parts_built, crate::proofs::Called::parts_destroyed))]
fn run_extent<G: Outside, C: Calls<G>>(
    calls: &C,
    c: &Context<'_>,
    w: &mut World<G>,
    extent: Extent,
    function: Option<&Func>,
    frame: &Frame<'_>,
) -> Result<Flow, Halt>
    requires { C.answers calls.now c.now.depth }
    ensures { GivesBy flow_of (extent_of (always (checked_of c.now.program.now)) extent (function_or_none (option_map (λ x. x.now) function.entry)) (frame_of frame.now) (context_of c.now) (world_of G.told c.now.depth w.old)) result (world_of G.told c.now.depth w.new) }
{
    match extent {
        Extent::Body => statements(calls, c, w, frame, body_of(function)),
        Extent::Construction(class) => {
            let types = parts_of(c.alloc, c.program, class)?;
            let plan = Plan::Declared(function);
            build_parts(calls, c, w, &plan, frame, 0, types.as_slice(), function)
        }
        Extent::Destruction(class) => {
            let types = parts_of(c.alloc, c.program, class)?;
            destroy_parts(calls, c, w, frame, 0, types.as_slice(), function)
        }
    }
}

fn own_specification(function: Option<&Func>) -> Option<&Spec>
    ensures { option_map (λ x. specification_of x.now) result ≡ (function_or_none (option_map (λ x. x.now) function.entry)).specification }
{
    match function {
        Some(it) => match &it.spec {
            Some(spec) => Some(spec),
            None => None,
        },
        None => None,
    }
}

/// The extent of a function's specification; without one the function has no guard.
#[tactic(auto, using(scope_flow::proofs::Passing::passing, crate::proofs::Called::unguarded, crate::proofs::Called::guarded, crate::proofs::Called::ended))]
pub fn under_specification<G: Outside, C: Calls<G>>(
    calls: &C,
    c: &Context<'_>,
    w: &mut World<G>,
    extent: Extent,
    function: Option<&Func>,
    frame: &Frame<'_>,
) -> Result<Flow, Halt>
    requires { C.answers calls.now c.now.depth }
    ensures { GivesBy flow_of (rules.under_specification (always (checked_of c.now.program.now)) (function_or_none (option_map (λ x. x.now) function.entry)).specification (extent_of (always (checked_of c.now.program.now)) extent (function_or_none (option_map (λ x. x.now) function.entry)) (frame_of frame.now)) (context_of c.now) (world_of G.told c.now.depth w.old)) result (world_of G.told c.now.depth w.new) }
{
    let Some(specification) = own_specification(function) else {
        return run_extent(calls, c, w, extent, function, frame);
    };
    match specification {
        Spec::Throw(types) => {
            let guards = Guards::More(Guard::Specification(types.as_slice()), c.guards);
            let inner = Context {
                guards: &guards,
                ..*c
            };
            let outcome = run_extent(calls, &inner, w, extent, function, frame);
            after_extent(calls, c, w, types.as_slice(), outcome)
        }
        Spec::Noexcept(_, _) => {
            let guards = Guards::More(Guard::CatchAll, c.guards);
            let inner = Context {
                guards: &guards,
                ..*c
            };
            let outcome = run_extent(calls, &inner, w, extent, function, frame);
            after_noexcept(calls, c, w, outcome)
        }
    }
}
