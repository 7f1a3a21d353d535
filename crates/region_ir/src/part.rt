// How a part of an object is built.
ghost use Rattle.std.specs.Prelude.{◌≡◌, ◌++◌, ◌∷◌, [], map, IfOk, OnOk};
ghost use Rattle.cxx_ast.specs.View.{checked_of, expressions_of, option_of};
ghost use Rattle.class_layout.specs.View.{laid_out};
ghost use Rattle.scope_world.specs.Objects.{type_of};
ghost use Rattle.region_forms.specs.Form.{op, store};
ghost use Rattle.region_forms.specs.Layout.{laid_part};
ghost use Rattle.region_forms.specs.LowerProgram as rules;
ghost use Rattle.region_ir.specs.Given.{lowering_of};
ghost use Rattle.region_ir.specs.Planned.{building_of};
ghost use Rattle.region_ir.specs.View.{place_of, region_of, value_of};

use crate::NoMemory;
use crate::held::put;
use crate::initialiser::initialiser_for;
use crate::lower::{lower_construct, value_stored};
use crate::lowering::{Lowering, member_offset, through_place};
use crate::operation::RegionOp;
use crate::place::Place;
use crate::region::Region;
use crate::value::{Arg, Value};
use cxx_ast::declaration::Init;
use cxx_ast::expression::Expr;
use scope_flow::{constructor_for, copy_constructor};
use scope_world::{ObjectType, base_of};

/// How a constructor builds the parts of its object: by default, as copies of those of the object that slot 1 refers to, or by its
/// initialisers.
#[derive(Clone, Copy)]
pub enum Plan<'a> {
    Default,
    Copy,
    Declared(&'a [Init]),
}

/// A part of a class by its place among the class's parts.
#[derive(Clone, Copy)]
pub struct Part {
    pub class: u32,
    pub place: u32,
    pub ty: ObjectType,
}

// The offset of a part in its class: the base is at the beginning, and the members follow.
#[tactic(auto, using(crate::proofs::Offsets::without_base, crate::proofs::Offsets::base_first, crate::proofs::Offsets::behind_base))]
fn part_offset(l: &Lowering<'_>, class: u32, place: u32) -> u32
    ensures { result ≡ laid_part (laid_out l.now.layout.now) (checked_of l.now.numbering.now.program.now) class place }
{
    match base_of(l.numbering.program, class) {
        None => member_offset(l.layout, class, place),
        Some(_) if place == 0 => 0,
        Some(_) => member_offset(l.layout, class, place - 1),
    }
}

/// The place of a part of the object of a class whose address a slot holds.
pub fn part_place(l: &Lowering<'_>, class: u32, slot: u32, place: u32) -> Place
    ensures { place_of result ≡ rules.part_place (laid_out l.now.layout.now) (checked_of l.now.numbering.now.program.now) class slot place }
{
    through_place(slot, part_offset(l, class, place))
}

// A value is stored in a place.
fn store(target: Place, value: Value) -> Region
    ensures { region_of result ≡ op (store (place_of target) (value_of value)) }
{
    Region::Op(RegionOp::Store(target, value))
}

// An object is built by its default constructor.
fn default_built(l: &Lowering<'_>, class: u32, target: Place) -> Result<Region, NoMemory>
    ensures { IfOk result (λ r. region_of r ∷ [] ≡ rules.default_built (lowering_of l.now) class (place_of target)) }
{
    let which = constructor_for(l.numbering.program, class, 0);
    let function = l.numbering.constructor(class, which)?;
    let given = Vec::new(l.alloc);
    Ok(Region::Op(RegionOp::Construct(target, function, given)))
}

/// An object is copied from a place to another.
pub fn copy_built(
    l: &Lowering<'_>,
    class: u32,
    target: Place,
    source: Place,
) -> Result<Region, NoMemory>
    ensures { IfOk result (λ r. region_of r ∷ [] ≡ rules.copy_built (lowering_of l.now) class (place_of target) (place_of source)) }
{
    let which = copy_constructor(l.numbering.program, class);
    let function = l.numbering.constructor(class, which)?;
    let mut given = Vec::new(l.alloc);
    put(Arg::Address(source), &mut given)?;
    Ok(Region::Op(RegionOp::Construct(target, function, given)))
}

// An implicit default constructor sets an int to 0.
fn default_part(l: &Lowering<'_>, part: Part) -> Result<Region, NoMemory>
    ensures { IfOk result (λ r. region_of r ∷ [] ≡ rules.default_part (lowering_of l.now) part.class part.place (type_of part.ty)) }
{
    let target = part_place(l, part.class, 0, part.place);
    match part.ty {
        ObjectType::Int => Ok(store(target, Value::Number(0))),
        ObjectType::Class(class) => default_built(l, class, target),
    }
}

// An implicit copy constructor copies each part of what slot 1 refers to.
fn copy_part(l: &Lowering<'_>, part: Part) -> Result<Region, NoMemory>
    ensures { IfOk result (λ r. region_of r ∷ [] ≡ rules.copy_part (lowering_of l.now) part.class part.place (type_of part.ty)) }
{
    let target = part_place(l, part.class, 0, part.place);
    let source = part_place(l, part.class, 1, part.place);
    match part.ty {
        ObjectType::Int => Ok(store(target, Value::Load(source))),
        ObjectType::Class(class) => copy_built(l, class, target, source),
    }
}

// An int gets the value of its initialiser, behind other regions.
#[tactic(auto, using(crate::proofs::Behind::one_behind))]
fn initial_value(
    l: &Lowering<'_>,
    target: Place,
    arguments: &[Expr],
    before: &mut Vec<Region>,
) -> Result<(), NoMemory>
    ensures { OnOk result (map region_of before.new.items ≡ map region_of before.old.items ++ rules.initial_value (lowering_of l.now) (place_of target) (expressions_of arguments.now)) }
{
    match arguments.first() {
        None => {
            put(store(target, Value::Number(0)), before)?;
            Ok(())
        }
        Some(first) => value_stored(l, first, target, l.first_temporary()?, before),
    }
}

// A declared constructor builds a part by its initialiser; without one an object is default-constructed, and an int stays unset.
fn initial_part(
    l: &Lowering<'_>,
    part: Part,
    initialiser: Option<&[Expr]>,
    before: &mut Vec<Region>,
) -> Result<(), NoMemory>
    ensures { OnOk result (map region_of before.new.items ≡ map region_of before.old.items ++ rules.initial_part (lowering_of l.now) part.class part.place (option_of (λ x. expressions_of x.now) initialiser.entry) (type_of part.ty)) }
{
    let target = part_place(l, part.class, 0, part.place);
    match (initialiser, part.ty) {
        (None, ObjectType::Int) => Ok(()),
        (None, ObjectType::Class(class)) => {
            let built = default_built(l, class, target)?;
            put(built, before)?;
            Ok(())
        }
        (Some(arguments), ObjectType::Int) => initial_value(l, target, arguments, before),
        (Some(arguments), ObjectType::Class(class)) => {
            lower_construct(l, class, arguments, target, l.first_temporary()?, before)
        }
    }
}

/// A part of an object is built, behind other regions.
pub fn build_part(
    l: &Lowering<'_>,
    plan: Plan<'_>,
    part: Part,
    before: &mut Vec<Region>,
) -> Result<(), NoMemory>
    ensures { OnOk result (map region_of before.new.items ≡ map region_of before.old.items ++ building_of (lowering_of l.now) part.class plan.entry part.place (type_of part.ty)) }
{
    match plan {
        Plan::Default => {
            let built = default_part(l, part)?;
            put(built, before)?;
            Ok(())
        }
        Plan::Copy => {
            let built = copy_part(l, part)?;
            put(built, before)?;
            Ok(())
        }
        Plan::Declared(inits) => {
            let initialiser = initialiser_for(l.numbering.program, inits, u64::from(part.place));
            initial_part(l, part, initialiser, before)
        }
    }
}
