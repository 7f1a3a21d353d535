// How values are stored and tested where an expression makes calls.
ghost use Rattle.std.specs.Prelude.{◌≡◌, ◌++◌, ◌∷◌, [], List, map, pos, IfOk};
ghost use Rattle.region_forms.specs.Form.{Region as RegionMeant, branch, binary as binary_value, in_order, load, number as number_value, unary as unary_value};
ghost use Rattle.region_forms.specs.LowerExpression as rules;
ghost use Rattle.region_forms.specs.LowerExpression.{Lowered as LoweredMeant};
ghost use Rattle.region_ir.specs.Lowers.{Lowers};
ghost use Rattle.region_ir.specs.View.{region_of, value_of};

use crate::NoMemory;
use crate::held::{beside, boxed, put};
use crate::lowering::slot_place;
use crate::numbers::behind;
use crate::operation::RegionOp;
use crate::region::Region;
use crate::value::Value;
use cxx_ast::expression::{BinaryOp, UnaryOp};
use std::alloc::Global;

/// A value without calls, and the first slot that is free behind it.
#[derive(Drop)]
pub struct Lowered {
    pub value: Value,
    pub next: u32,
}

/// Regions one after the other.
#[tactic(auto, using(crate::proofs::Rows::region_rows))]
pub fn in_order(regions: Vec<Region>) -> Region
    ensures { region_of result ≡ in_order (map region_of regions.items) }
{
    Region::Seq(regions)
}

/// A value is stored in a slot.
pub fn stored_in(slot: u32, value: Value) -> Region
    ensures { region_of result ≡ rules.stored_in slot (value_of value) }
{
    Region::Op(RegionOp::Store(slot_place(slot), value))
}

/// The value in a slot.
pub fn in_slot(slot: u32) -> Value
    ensures { value_of result ≡ load (rules.slot_place slot) }
{
    Value::Load(slot_place(slot))
}

/// An operator before its operand.
pub fn unary(alloc: Global, op: UnaryOp, operand: Value) -> Result<Value, NoMemory>
    ensures { IfOk result (λ v. value_of v ≡ unary_value op (value_of operand)) }
{
    let operand = boxed(alloc, operand)?;
    Ok(Value::Unary(op, operand))
}

/// An operator between its operands.
pub fn binary(alloc: Global, op: BinaryOp, left: Value, right: Value) -> Result<Value, NoMemory>
    ensures { IfOk result (λ v. value_of v ≡ binary_value op (value_of left) (value_of right)) }
{
    let (right, left) = beside(right, boxed(alloc, left))?;
    let (left, right) = beside(left, boxed(alloc, right))?;
    Ok(Value::Binary(op, left, right))
}

// 1 where a value is not 0.
fn truth_of(alloc: Global, value: Value) -> Result<Value, NoMemory>
    ensures { IfOk result (λ v. value_of v ≡ rules.truth_of (value_of value)) }
{
    binary(alloc, BinaryOp::NotEqual, value, Value::Number(0))
}

/// The truth of a value is stored in a slot, behind what comes before the value.
#[tactic(auto, using(crate::proofs::Behind::put_behind))]
pub fn truth_stored(
    alloc: Global,
    slot: u32,
    before: Vec<Region>,
    value: Value,
) -> Result<Region, NoMemory>
    ensures { IfOk result (λ r. region_of r ≡ in_order (map region_of before.items ++ rules.stored_in slot (rules.truth_of (value_of value)) ∷ [])) }
{
    let (mut regions, truth) = beside(before, truth_of(alloc, value))?;
    put(stored_in(slot, truth), &mut regions)?;
    Ok(in_order(regions))
}

/// A number is stored in a slot.
pub fn number_stored(alloc: Global, slot: u32, value: i32) -> Result<Region, NoMemory>
    ensures { IfOk result (λ r. region_of r ≡ in_order (rules.stored_in slot (number_value value) ∷ [])) }
{
    let mut regions = Vec::new(alloc);
    put(stored_in(slot, Value::Number(value)), &mut regions)?;
    Ok(in_order(regions))
}

/// A branch between two regions.
pub fn branch_of(alloc: Global, value: Value, yes: Region, no: Region) -> Result<Region, NoMemory>
    ensures { IfOk result (λ r. region_of r ≡ branch (value_of value) (region_of yes) (region_of no)) }
{
    let ((value, no), yes) = beside((value, no), boxed(alloc, yes))?;
    let ((value, yes), no) = beside((value, yes), boxed(alloc, no))?;
    Ok(Region::Branch(value, yes, no))
}

/// Two regions between which the left side of `&&` or `||` decides, and the value that they store in a slot.
#[inline(never)]
#[tactic(auto, using(crate::proofs::Behind::put_behind))]
pub fn branched(
    alloc: Global,
    slot: u32,
    test: Value,
    first: Region,
    second: Region,
    before: &mut Vec<Region>,
) -> Result<Lowered, NoMemory>
    ensures { (others : List RegionMeant) (a : LoweredMeant) → map region_of before.old.items ≡ others ++ a.before → value_of test ≡ a.value → IfOk result (λ r. Lowers (rules.in_temporary (a.before ++ branch a.value (region_of first) (region_of second) ∷ []) slot) others before.new.items r.value r.next) }
{
    let made = branch_of(alloc, test, first, second)?;
    put(made, before)?;
    let next = behind(slot, 1)?;
    Ok(Lowered {
        value: in_slot(slot),
        next,
    })
}

/// The left side of `&&` decides whether a region that stores the truth of the right side is entered.
#[inline(never)]
pub fn decided_and(
    alloc: Global,
    slot: u32,
    test: Value,
    right: Region,
    before: &mut Vec<Region>,
) -> Result<Lowered, NoMemory>
    ensures { (others : List RegionMeant) (a : LoweredMeant) → map region_of before.old.items ≡ others ++ a.before → value_of test ≡ a.value → IfOk result (λ r. Lowers (rules.in_temporary (a.before ++ branch a.value (region_of right) (in_order (rules.stored_in slot (number_value (pos 0)) ∷ [])) ∷ []) slot) others before.new.items r.value r.next) }
{
    let ((test, right), known) = beside((test, right), number_stored(alloc, slot, 0))?;
    branched(alloc, slot, test, right, known, before)
}

/// The left side of `||` decides whether a region that stores the truth of the right side is entered.
#[inline(never)]
pub fn decided_or(
    alloc: Global,
    slot: u32,
    test: Value,
    right: Region,
    before: &mut Vec<Region>,
) -> Result<Lowered, NoMemory>
    ensures { (others : List RegionMeant) (a : LoweredMeant) → map region_of before.old.items ≡ others ++ a.before → value_of test ≡ a.value → IfOk result (λ r. Lowers (rules.in_temporary (a.before ++ branch a.value (in_order (rules.stored_in slot (number_value (pos 1)) ∷ [])) (region_of right) ∷ []) slot) others before.new.items r.value r.next) }
{
    let ((test, right), known) = beside((test, right), number_stored(alloc, slot, 1))?;
    branched(alloc, slot, test, known, right, before)
}
