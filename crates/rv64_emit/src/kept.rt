// Which variables of a function are kept in registers: the first ten ints whose address no operation takes.
ghost use Rattle.std.specs.Prelude.{◌≡◌, false, replicate, IfOk, map};
ghost use Rattle.region_ir.specs.View.{arguments_of, operation_of, place_of, slot_of, value_of};
ghost use Rattle.landing_pads.specs.View.{code_of, linear_of};
ghost use Rattle.machine_forms.specs.Kept as rules;
ghost use Rattle.rv64_emit.specs.Marks.{all_marked, arguments_marked, op_marked, root_marked, unmarked, value_marked};

use crate::NoMemory;
use crate::numbers::behind;
use landing_pads::unit::{FuncCode, LinearOp};
use region_ir::operation::RegionOp;
use region_ir::place::{Place, Root, Slot, SlotKind};
use region_ir::value::{Arg, Value};
use std::alloc::Global;

// How many variables have registers at most.
const MOST: usize = 10;

// How many bytes an int has.
const INT_SIZE: u32 = 4;

// Marks the slot at which a place begins, if it begins at one.
fn mark_place(place: Place, taken: &mut [bool])
    ensures { taken.new ≡ root_marked (place_of place).root taken.old }
{
    if let Root::Slot(slot) = place.root {
        let slot = slot as usize;
        if slot < taken.len() {
            taken[slot] = true;
        }
    }
}

// Marks the slots whose addresses are arguments.
fn mark_arguments(arguments: &[Arg], taken: &mut [bool])
    ensures { taken.new ≡ arguments_marked (arguments_of arguments.now) taken.old }
{
    for argument in arguments {
        if let Arg::Address(place) = argument {
            mark_place(*place, taken);
        }
    }
}

// Marks those whose addresses a value takes: a call has arguments.
#[tactic(auto, using(region_ir::proofs::Rows::rows))]
fn mark_value(value: &Value, taken: &mut [bool])
    ensures { taken.new ≡ value_marked (value_of value.now) taken.old }
{
    if let Value::Call(_, arguments) = value {
        mark_arguments(arguments.as_slice(), taken);
    }
}

// Marks those whose addresses an operation takes.
fn mark_operation(operation: &RegionOp, taken: &mut [bool])
    ensures { taken.new ≡ op_marked (operation_of operation.now) taken.old }
{
    match operation {
        RegionOp::Evaluate(value) | RegionOp::Store(_, value) => mark_value(value, taken),
        RegionOp::Bind(_, place) | RegionOp::Destroy(place, _) => mark_place(*place, taken),
        RegionOp::Call(_, arguments) => mark_arguments(arguments.as_slice(), taken),
        RegionOp::Construct(place, _, arguments) => {
            mark_place(*place, taken);
            mark_arguments(arguments.as_slice(), taken);
        }
        RegionOp::Make(_)
        | RegionOp::Throw(_, _, _)
        | RegionOp::Rethrow
        | RegionOp::Enter(_)
        | RegionOp::Leave => {}
    }
}

// Marks those whose addresses operations take.
fn mark_operations(ops: &[LinearOp], taken: &mut [bool])
    ensures { taken.new ≡ all_marked (map linear_of ops.now) taken.old }
{
    for op in ops {
        if let LinearOp::Op(operation) = op {
            mark_operation(operation, taken);
        }
    }
}

// Which of so many slots operations take the address of.
fn marks(alloc: Global, ops: &[LinearOp], slots: usize) -> Result<Vec<bool>, NoMemory>
    ensures { IfOk result (λ taken. taken.items ≡ all_marked (map linear_of ops.now) (replicate slots false)) }
{
    let mut taken = vec![in alloc; false; slots]?;
    mark_operations(ops, taken.as_mut_slice());
    Ok(taken)
}

// The ints among slots that have no mark.
fn unmarked_ints(alloc: Global, slots: &[Slot], taken: &[bool]) -> Result<Vec<u32>, NoMemory>
    ensures { IfOk result (λ kept. kept.items ≡ unmarked taken.now 0 (map slot_of slots.now)) }
{
    let mut kept = Vec::new(alloc);
    for (number, slot) in slots.iter().enumerate() {
        let is_taken = taken.get(number).copied().unwrap_or(false);
        if slot.kind == SlotKind::Int && slot.size == INT_SIZE && !is_taken {
            kept.push(behind(0, number)?)?;
        }
    }
    Ok(kept)
}

/// The slots of a function's kept variables, in their order.
pub fn kept_slots(alloc: Global, function: &FuncCode) -> Result<Vec<u32>, NoMemory>
    ensures { IfOk result (λ kept. kept.items ≡ rules.kept_slots (code_of function.now)) }
{
    let slots = function.slots.as_slice();
    let taken = marks(alloc, function.ops.as_slice(), slots.len())?;
    let mut kept = unmarked_ints(alloc, slots, taken.as_slice())?;
    kept.truncate(MOST);
    Ok(kept)
}
