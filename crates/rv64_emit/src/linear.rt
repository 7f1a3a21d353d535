// The code of operations of linear code.
ghost use Rattle.std.specs.Prelude.{◌≡◌, ◌++◌, OnOk};
ghost use Rattle.landing_pads.specs.View.{linear_of};
ghost use Rattle.linear_forms.specs.Linear.{jump_filter, unexpected};
ghost use Rattle.machine_forms.specs.LinearCode as rules;

use crate::NoMemory;
use crate::call::{pass, put_function_call};
use crate::code::Code;
use crate::immediate::over_one;
use crate::operation::put_operation;
use crate::piece::{Function, Piece};
use crate::place::{int_load, put_number, slot_load, slot_store};
use crate::register::{a0, a1};
use crate::runtime_call::{FREE, RESUME, put_runtime_call, put_zero};
use crate::saving::put_restores;
use crate::shape::{Frame, put_epilogue};
use crate::test::put_test;
use landing_pads::unit::LinearOp;
use rv64_isa::Instr;

// A jump where a slot holds a filter.
fn put_filter_jump(
    frame: &Frame<'_>,
    slot: u32,
    filter: i64,
    label: u32,
    code: &mut Code,
) -> Result<(), NoMemory>
    ensures { OnOk result (code.new ≡ code.old ++ rules.linear_code frame.now (jump_filter slot filter label)) }
{
    code.put(int_load(frame, a0(), slot))?;
    put_number(a1(), filter, code)?;
    code.put(Instr::Bne(a0(), a1(), over_one()))?;
    code.push(Piece::JumpTo(label))
}

// The object and the selector are passed to the runtime, since a specification stopped the exception.
fn put_unexpected(
    frame: &Frame<'_>,
    object: u32,
    selector: u32,
    code: &mut Code,
) -> Result<(), NoMemory>
    ensures { OnOk result (code.new ≡ code.old ++ rules.linear_code frame.now (unexpected object selector)) }
{
    code.put(slot_load(frame, a0(), object))?;
    code.put(pass(a0(), 0))?;
    code.put(slot_load(frame, a0(), selector))?;
    code.put(pass(a0(), 1))?;
    put_function_call(Function::CallUnexpected, code)
}

// What a function gives, in a0.
fn put_result(frame: &Frame<'_>, result_slot: Option<u32>, code: &mut Code) -> Result<(), NoMemory>
    ensures { OnOk result (code.new ≡ code.old ++ rules.result_set frame.now result_slot) }
{
    match result_slot {
        None => put_zero(code),
        Some(slot) => code.put(int_load(frame, a0(), slot)),
    }
}

/// The code of an operation.
pub fn put_linear(frame: &Frame<'_>, operation: &LinearOp, code: &mut Code) -> Result<(), NoMemory>
    ensures { OnOk result (code.new ≡ code.old ++ rules.linear_code frame.now (linear_of operation.now)) }
{
    match operation {
        LinearOp::Op(operation) => put_operation(frame, operation, code),
        LinearOp::Label(_) => Ok(()),
        LinearOp::Jump(label) => code.push(Piece::JumpTo(*label)),
        LinearOp::JumpZero(value, label) => {
            put_test(frame, value, code)?;
            code.push(Piece::JumpTo(*label))
        }
        LinearOp::Pad(object, selector) => {
            code.put(slot_store(frame, a0(), *object))?;
            code.put(slot_store(frame, a1(), *selector))
        }
        LinearOp::JumpFilter(slot, filter, label) => {
            put_filter_jump(frame, *slot, *filter, *label, code)
        }
        LinearOp::Free(slot) => {
            code.put(slot_load(frame, a0(), *slot))?;
            put_runtime_call(FREE, code)
        }
        LinearOp::Resume(slot) => {
            code.put(slot_load(frame, a0(), *slot))?;
            put_runtime_call(RESUME, code)
        }
        LinearOp::Unexpected(object, selector) => {
            put_unexpected(frame, *object, *selector, code)
        }
        LinearOp::Return(slot) => {
            put_result(frame, *slot, code)?;
            put_restores(frame, code)?;
            put_epilogue(frame, code)
        }
    }
}
