// Copies of values and operations.
ghost use Rattle.std.specs.Prelude.{◌≡◌, ◌++◌, ◌∷◌, [], map, IfOk, OnOk};
ghost use Rattle.region_ir.specs.View.{argument_of, arguments_of, operation_of, value_of};

use crate::NoMemory;
use region_ir::held::{beside, boxed, put};
use region_ir::operation::RegionOp;
use region_ir::value::{Arg, Value};
use std::alloc::Global;

/// A copy of a value.
#[cycle(copies)]
#[tactic(auto, using(region_ir::proofs::Rows::rows))]
pub fn value_copied(alloc: Global, value: &Value) -> Result<Value, NoMemory>
    ensures { IfOk result (λ v. value_of v ≡ value_of value.now) }
{
    match value {
        Value::Number(number) => Ok(Value::Number(*number)),
        Value::Load(place) => Ok(Value::Load(*place)),
        Value::Unary(op, operand) => {
            let operand = value_copied(alloc, operand)?;
            let operand = boxed(alloc, operand)?;
            Ok(Value::Unary(*op, operand))
        }
        Value::Binary(op, left, right) => {
            let left = value_copied(alloc, left)?;
            let (left, right) = beside(left, value_copied(alloc, right))?;
            let (right, left) = beside(right, boxed(alloc, left))?;
            let (left, right) = beside(left, boxed(alloc, right))?;
            Ok(Value::Binary(*op, left, right))
        }
        Value::Call(callee, arguments) => {
            let arguments = arguments_copied(alloc, arguments.as_slice())?;
            Ok(Value::Call(*callee, arguments))
        }
    }
}

#[cycle(copies)]
fn argument_copied(alloc: Global, argument: &Arg) -> Result<Arg, NoMemory>
    ensures { IfOk result (λ a. argument_of a ≡ argument_of argument.now) }
{
    match argument {
        Arg::Int(value) => Ok(Arg::Int(value_copied(alloc, value)?)),
        Arg::Address(place) => Ok(Arg::Address(*place)),
        Arg::Handler(function) => Ok(Arg::Handler(*function)),
    }
}

// A copy of an argument, behind others.
#[cycle(copies)]
fn put_copied(alloc: Global, argument: &Arg, copied: &mut Vec<Arg>) -> Result<(), NoMemory>
    ensures { OnOk result (map argument_of copied.new.items ≡ map argument_of copied.old.items ++ argument_of argument.now ∷ []) }
{
    let copy = argument_copied(alloc, argument)?;
    put(copy, copied)?;
    Ok(())
}

#[cycle(copies)]
#[tactic(auto, using(crate::proofs::Listed::same_arguments))]
fn arguments_copied(alloc: Global, arguments: &[Arg]) -> Result<Vec<Arg>, NoMemory>
    ensures { IfOk result (λ copied. arguments_of copied.items ≡ arguments_of arguments.now) }
{
    let mut copied = Vec::new(alloc);
    for argument in arguments {
        put_copied(alloc, argument, &mut copied)?;
    }
    Ok(copied)
}

/// A copy of an operation.
pub fn operation_copied(alloc: Global, operation: &RegionOp) -> Result<RegionOp, NoMemory>
    ensures { IfOk result (λ o. operation_of o ≡ operation_of operation.now) }
{
    match operation {
        RegionOp::Evaluate(value) => Ok(RegionOp::Evaluate(value_copied(alloc, value)?)),
        RegionOp::Store(place, value) => Ok(RegionOp::Store(*place, value_copied(alloc, value)?)),
        RegionOp::Bind(slot, place) => Ok(RegionOp::Bind(*slot, *place)),
        RegionOp::Call(callee, arguments) => {
            let arguments = arguments_copied(alloc, arguments.as_slice())?;
            Ok(RegionOp::Call(*callee, arguments))
        }
        RegionOp::Construct(place, function, arguments) => {
            let arguments = arguments_copied(alloc, arguments.as_slice())?;
            Ok(RegionOp::Construct(*place, *function, arguments))
        }
        RegionOp::Destroy(place, function) => Ok(RegionOp::Destroy(*place, *function)),
        RegionOp::Make(slot) => Ok(RegionOp::Make(*slot)),
        RegionOp::Throw(slot, ty, destructor) => Ok(RegionOp::Throw(*slot, *ty, *destructor)),
        RegionOp::Rethrow => Ok(RegionOp::Rethrow),
        RegionOp::Enter(slot) => Ok(RegionOp::Enter(*slot)),
        RegionOp::Leave => Ok(RegionOp::Leave),
    }
}
