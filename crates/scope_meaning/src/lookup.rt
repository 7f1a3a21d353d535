// What names name, where it is read or bound.

ghost use Rattle.std.specs.Prelude.{◌≡◌, ℕ, IfOk};
ghost use Rattle.cxx_ast.specs.Plain.{path};
ghost use Rattle.cxx_ast.specs.View.{checked_of};
ghost use Rattle.meaning_forms.specs.Expression as rules;
ghost use Rattle.meaning_forms.specs.Frame as frame_rules;
ghost use Rattle.scope_world.specs.Gives.{Gives};
ghost use Rattle.scope_world.specs.Inward.{context_of, frame_of};
ghost use Rattle.scope_world.specs.Objects.{reference_of};
ghost use Rattle.scope_world.specs.Seen.{world_of};
ghost use Rattle.scope_flow.specs.Always.{always};

use crate::NoMemory;
use cxx_ast::name::Name;
use cxx_ast::types::Ty;
use scope_world::{Context, Frame, Halt, Outside, Reference, World, bound_as, lvalue};

/// The int that names name.
#[inline(never)]
#[tactic(auto, using(scope_flow::proofs::Passing::passing, crate::proofs::Evaluated::read_so))]
pub fn read_named<G: Outside>(
    c: &Context<'_>,
    w: &World<G>,
    frame: &Frame<'_>,
    names: &[Name],
) -> Result<i32, Halt>
    ensures { (d : ℕ) → Gives (rules.value_of (always (checked_of c.now.program.now)) (frame_of frame.now) (path names.now) (context_of c.now) (world_of G.told d w.now)) result (world_of G.told d w.now) }
{
    let at = lvalue(c, w, frame, names)?;
    w.read(&at)
}

/// What a reference of a type names, bound to what names name.
#[inline(never)]
#[tactic(auto, using(crate::proofs::Declared::bound_so))]
pub fn bound_to<G: Outside>(
    c: &Context<'_>,
    w: &World<G>,
    frame: &Frame<'_>,
    ty: &Ty,
    names: &[Name],
) -> Result<Reference, NoMemory>
    ensures { (d : ℕ) → IfOk result (λ r. reference_of r ≡ frame_rules.bound_as (world_of G.told d w.now) ty.now (frame_rules.lvalue (checked_of c.now.program.now) (world_of G.told d w.now) (frame_of frame.now) names.now)) }
{
    let at = lvalue(c, w, frame, names)?;
    bound_as(w, ty, at)
}
