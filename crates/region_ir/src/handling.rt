// What handlers and specifications are lowered to: copies, parameters, and the numbers of types.
ghost use Rattle.std.specs.Prelude.{◌≡◌, ◌∷◌, [], map, IfOk};
ghost use Rattle.meaning_forms.specs.Class.{object_type};
ghost use Rattle.region_forms.specs.Numbering.{type_number};
ghost use Rattle.region_forms.specs.LowerStatement as rules;
ghost use Rattle.region_ir.specs.Given.{lowering_of};
ghost use Rattle.region_ir.specs.View.{place_of, region_of};

use crate::NoMemory;
use crate::held::boxed;
use crate::lowering::{Lowering, slot_place, through_place};
use crate::numbering::type_number;
use crate::operation::RegionOp;
use crate::part::copy_built;
use crate::place::Place;
use crate::region::Region;
use crate::value::Value;
use cxx_ast::types::Ty;
use scope_world::{class_named, object_type};
use std::alloc::Global;

/// The place of an exception's object.
pub fn thrown_place(l: &Lowering<'_>) -> Result<Place, NoMemory>
    ensures { IfOk result (λ p. place_of p ≡ rules.thrown_place (lowering_of l.now)) }
{
    Ok(through_place(l.exception_slot()?, 0))
}

/// An object of a class is copied from a place to another, behind a barrier.
pub fn copied(
    l: &Lowering<'_>,
    class: u32,
    target: Place,
    source: Place,
) -> Result<Region, NoMemory>
    ensures { IfOk result (λ r. region_of r ≡ rules.copied (lowering_of l.now) class (place_of target) (place_of source)) }
{
    let copy = copy_built(l, class, target, source)?;
    let copy = boxed(l.alloc, copy)?;
    Ok(Region::Barrier(copy))
}

/// A handler's parameter in a slot: by value it is a copy, and by reference it names the exception's object.
pub fn caught_parameter(l: &Lowering<'_>, ty: &Ty, slot: u32) -> Result<Region, NoMemory>
    ensures { IfOk result (λ r. region_of r ∷ [] ≡ rules.caught_parameter (lowering_of l.now) ty.now slot) }
{
    let source = thrown_place(l)?;
    match ty {
        Ty::Int => Ok(Region::Op(RegionOp::Store(slot_place(slot), Value::Load(source)))),
        Ty::Object(name) => copied(l, class_named(name), slot_place(slot), source),
        _ => Ok(Region::Op(RegionOp::Bind(slot, source))),
    }
}

/// The number of the type that a handler catches.
pub fn clause_type(ty: &Ty) -> Result<u32, NoMemory>
    ensures { IfOk result (λ n. n ≡ rules.clause_type ty.now) }
{
    type_number(object_type(ty))
}

/// The numbers of the types that a specification lists.
pub fn listed(alloc: Global, types: &[Ty]) -> Result<Vec<u32>, NoMemory>
    ensures { IfOk result (λ ns. ns.items ≡ map (λ t. type_number (object_type t)) types.now) }
{
    let mut numbers = Vec::new(alloc);
    for ty in types {
        numbers.push(clause_type(ty)?)?;
    }
    Ok(numbers)
}
