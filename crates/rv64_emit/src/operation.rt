// The code of operations of regions.
ghost use Rattle.std.specs.Prelude.{◌≡◌, ◌++◌, IfOk, OnOk};
ghost use Rattle.region_ir.specs.View.{arguments_of, operation_of, place_of, value_of};
ghost use Rattle.region_forms.specs.Form.{throw};
ghost use Rattle.machine_forms.specs.KeptCode.{root_register};
ghost use Rattle.machine_forms.specs.OperationCode as rules;

use crate::NoMemory;
use crate::call::{pass, put_call, put_function_call, put_passed, put_valued_call};
use crate::code::Code;
use crate::piece::{Function, Target};
use crate::place::{copy, put_address, put_number, put_store, put_target, slot_load, slot_store};
use crate::register::{a0, a1, a2, register};
use crate::runtime_call::{ALLOCATE, BEGIN_CATCH, RETHROW, THROW, put_runtime_call};
use crate::shape::Frame;
use crate::value::{put_operand, put_value};
use region_ir::operation::RegionOp;
use region_ir::place::Place;
use region_ir::value::{Arg, Value};
use rv64_isa::Register;

// A value for its effects alone: it has none unless it is a call.
#[tactic(auto, using(region_ir::proofs::Rows::rows))]
fn put_dropped(frame: &Frame<'_>, value: &Value, code: &mut Code) -> Result<(), NoMemory>
    ensures { OnOk result (code.new ≡ code.old ++ rules.dropped_code frame.now (value_of value.now)) }
{
    match value {
        Value::Call(callee, arguments) => put_call(frame, *callee, arguments.as_slice(), code),
        _ => Ok(()),
    }
}

// A value, at whose top a call may stand; gives the register in which it is then.
#[tactic(auto, using(region_ir::proofs::Rows::rows))]
fn put_whole(frame: &Frame<'_>, value: &Value, code: &mut Code) -> Result<Register, NoMemory>
    ensures code { OnOk result (code.new ≡ code.old ++ rules.whole_value frame.now (value_of value.now)) }
    ensures register { IfOk result (λ r. r ≡ rules.whole_register frame.now (value_of value.now)) }
{
    match value {
        Value::Call(callee, arguments) => {
            put_valued_call(frame, *callee, arguments.as_slice(), code)?;
            Ok(register(0))
        }
        _ => put_operand(frame, 0, value, code),
    }
}

// A kept variable gets a value. An operator or a number writes its register itself; all else comes from another register, so that no load
// writes it but at a function's end.
fn put_kept(frame: &Frame<'_>, rd: Register, value: &Value, code: &mut Code) -> Result<(), NoMemory>
    ensures { OnOk result (code.new ≡ code.old ++ rules.value_kept frame.now rd (value_of value.now)) }
{
    match value {
        Value::Number(_) | Value::Unary(_, _) | Value::Binary(_, _, _) => {
            put_value(frame, rd, 0, value, code)
        }
        Value::Load(_) | Value::Call(_, _) => {
            let x = put_whole(frame, value, code)?;
            code.put(copy(rd, x))
        }
    }
}

// A value is written to a place: to the register of a kept variable, or else to memory.
fn put_stored(
    frame: &Frame<'_>,
    place: Place,
    value: &Value,
    code: &mut Code,
) -> Result<(), NoMemory>
    ensures { OnOk result (code.new ≡ code.old ++ rules.value_stored frame.now (root_register frame.now (place_of place).root) (place_of place) (value_of value.now)) }
{
    match frame.register_at(place.root) {
        Some(rd) => put_kept(frame, rd, value, code),
        None => {
            let x = put_whole(frame, value, code)?;
            put_store(frame, x, register(1), place, code)
        }
    }
}

// A function is called with the address of a place, and with arguments behind it.
fn put_call_at(
    frame: &Frame<'_>,
    place: Place,
    function: u32,
    arguments: &[Arg],
    code: &mut Code,
) -> Result<(), NoMemory>
    ensures { OnOk result (code.new ≡ code.old ++ rules.called_at frame.now (place_of place) function (arguments_of arguments.now)) }
{
    put_address(frame, a0(), place, code)?;
    code.put(pass(a0(), 0))?;
    put_passed(frame, 1, arguments, code)?;
    put_function_call(Function::Compiled(function), code)
}

// A register gets the destructor of an exception object, or 0.
fn put_destructor(rd: Register, destructor: Option<u32>, code: &mut Code) -> Result<(), NoMemory>
    ensures { OnOk result (code.new ≡ code.old ++ rules.destructor_set rd destructor) }
{
    match destructor {
        None => put_number(rd, 0, code),
        Some(function) => put_target(rd, Target::Entry(Function::Compiled(function)), code),
    }
}

// The object of a slot is thrown.
fn put_throw(
    frame: &Frame<'_>,
    slot: u32,
    ty: u32,
    destructor: Option<u32>,
    code: &mut Code,
) -> Result<(), NoMemory>
    ensures { OnOk result (code.new ≡ code.old ++ rules.op_code frame.now (throw slot ty destructor)) }
{
    code.put(slot_load(frame, a0(), slot))?;
    put_target(a1(), Target::TypeRecord(ty), code)?;
    put_destructor(a2(), destructor, code)?;
    put_runtime_call(THROW, code)
}

/// The code of an operation.
pub fn put_operation(
    frame: &Frame<'_>,
    operation: &RegionOp,
    code: &mut Code,
) -> Result<(), NoMemory>
    ensures { OnOk result (code.new ≡ code.old ++ rules.op_code frame.now (operation_of operation.now)) }
{
    match operation {
        RegionOp::Evaluate(value) => put_dropped(frame, value, code),
        RegionOp::Store(place, value) => put_stored(frame, *place, value, code),
        RegionOp::Bind(slot, place) => {
            put_address(frame, a0(), *place, code)?;
            code.put(slot_store(frame, a0(), *slot))
        }
        RegionOp::Call(callee, arguments) => put_call(frame, *callee, arguments.as_slice(), code),
        RegionOp::Construct(place, function, arguments) => {
            put_call_at(frame, *place, *function, arguments.as_slice(), code)
        }
        RegionOp::Destroy(place, function) => put_call_at(frame, *place, *function, &[], code),
        RegionOp::Make(slot) => {
            put_runtime_call(ALLOCATE, code)?;
            code.put(slot_store(frame, a0(), *slot))
        }
        RegionOp::Throw(slot, ty, destructor) => put_throw(frame, *slot, *ty, *destructor, code),
        RegionOp::Rethrow => put_runtime_call(RETHROW, code),
        RegionOp::Enter(slot) => {
            code.put(slot_load(frame, a0(), *slot))?;
            put_runtime_call(BEGIN_CATCH, code)
        }
        RegionOp::Leave => put_function_call(Function::EndCatch, code),
    }
}
