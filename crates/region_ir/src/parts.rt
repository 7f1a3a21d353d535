// The parts of an object are built in order and destroyed in reverse order, around the statements of a body.
ghost use Rattle.std.specs.Prelude.{◌≡◌, ◌++◌, map, IfOk, OnOk};
ghost use Rattle.cxx_ast.specs.View.{statements_of};
ghost use Rattle.scope_world.specs.Objects.{type_of};
ghost use Rattle.region_forms.specs.Form.{in_order, protect};
ghost use Rattle.region_forms.specs.LowerStatement.{statements as statements_meant};
ghost use Rattle.region_forms.specs.LowerProgram as rules;
ghost use Rattle.region_ir.specs.Given.{lowering_of};
ghost use Rattle.region_ir.specs.Planned.{building_of};
ghost use Rattle.region_ir.specs.View.{cleanup_of, region_of};

use crate::NoMemory;
use crate::expression::in_order;
use crate::held::{boxed, put};
use crate::lowering::Lowering;
use crate::numbers::behind;
use crate::operation::Cleanup;
use crate::part::{Part, Plan, build_part, part_place};
use crate::region::Region;
use crate::statement::{Standing, statements};
use cxx_ast::statement::Stmt;
use scope_world::ObjectType;
use std::alloc::Global;

/// What a constructor does: how it builds the parts of its class, and the statements that are left then.
#[derive(Clone, Copy)]
pub struct Construction<'a> {
    pub class: u32,
    pub plan: Plan<'a>,
    pub left: &'a [Stmt],
}

/// What a destructor does: the statements of its body, then it destroys the parts of its class.
#[derive(Clone, Copy)]
pub struct Destruction<'a> {
    pub class: u32,
    pub body: &'a [Stmt],
}

// Regions that a cleanup follows.
fn protected(alloc: Global, regions: Vec<Region>, cleanup: Cleanup) -> Result<Region, NoMemory>
    ensures { IfOk result (λ r. region_of r ≡ protect (in_order (map region_of regions.items)) (cleanup_of cleanup)) }
{
    let body = boxed(alloc, in_order(regions))?;
    Ok(Region::Protect(body, cleanup))
}

/// The parts of an object from a place on are built in order, then the statements that are left are done, behind other regions. Where that
/// is exited by an exception or a forced unwind, the parts that are complete are destroyed in reverse order.
#[tactic(auto, using(crate::proofs::Around::int_built, crate::proofs::Around::object_built))]
pub fn build_parts(
    l: &Lowering<'_>,
    work: Construction<'_>,
    place: u32,
    types: &[ObjectType],
    at: Standing,
    before: &mut Vec<Region>,
) -> Result<(), NoMemory>
    ensures { OnOk result (map region_of before.new.items ≡ map region_of before.old.items ++ rules.build_parts (lowering_of l.now) work.entry.class (building_of (lowering_of l.now) work.entry.class work.entry.plan) place (map type_of types.now) (λ e. statements_meant (lowering_of l.now) (statements_of work.entry.left.now) at.innermost_loop at.next_variable e) at.depth) }
{
    let Some((ty, others)) = types.split_first() else {
        return statements(l, work.left, at, before);
    };
    let part = Part {
        class: work.class,
        place,
        ty: *ty,
    };
    build_part(l, work.plan, part, before)?;
    let next = behind(place, 1)?;
    match *ty {
        ObjectType::Int => build_parts(l, work, next, others, at, before),
        ObjectType::Class(class) => {
            let deeper = at.inside(2)?;
            let mut more = Vec::new(l.alloc);
            build_parts(l, work, next, others, deeper, &mut more)?;
            let built = part_place(l, work.class, 0, place);
            let cleanup = Cleanup::Part(built, l.numbering.destructor(class));
            let region = protected(l.alloc, more, cleanup)?;
            put(region, before)?;
            Ok(())
        }
    }
}

/// The statements of a destructor's body are done in the scope of the parts from a place on, behind other regions; then these parts are
/// destroyed in reverse order.
#[tactic(auto, using(crate::proofs::Around::int_destroyed, crate::proofs::Around::object_destroyed))]
pub fn destroy_parts(
    l: &Lowering<'_>,
    work: Destruction<'_>,
    place: u32,
    types: &[ObjectType],
    at: Standing,
    before: &mut Vec<Region>,
) -> Result<(), NoMemory>
    ensures { OnOk result (map region_of before.new.items ≡ map region_of before.old.items ++ rules.destroy_parts (lowering_of l.now) work.entry.class place (map type_of types.now) (λ e. statements_meant (lowering_of l.now) (statements_of work.entry.body.now) at.innermost_loop at.next_variable e) at.depth) }
{
    let Some((ty, others)) = types.split_first() else {
        return statements(l, work.body, at, before);
    };
    let next = behind(place, 1)?;
    match *ty {
        ObjectType::Int => destroy_parts(l, work, next, others, at, before),
        ObjectType::Class(class) => {
            let deeper = at.inside(2)?;
            let mut more = Vec::new(l.alloc);
            destroy_parts(l, work, next, others, deeper, &mut more)?;
            let built = part_place(l, work.class, 0, place);
            let cleanup = Cleanup::Scope(built, l.numbering.destructor(class));
            let region = protected(l.alloc, more, cleanup)?;
            put(region, before)?;
            Ok(())
        }
    }
}
