// Tests: a branch over one word where a value is not 0.
ghost use Rattle.std.specs.Prelude.{◌≡◌, ◌++◌, nat_le, OnOk};
ghost use Rattle.region_ir.specs.View.{value_of};
ghost use Rattle.machine_forms.specs.ValueCode as rules;

use crate::NoMemory;
use crate::code::Code;
use crate::operator::{put_branch, put_branch_truth};
use crate::register::register;
use crate::shape::Frame;
use crate::value::{put_binary, put_operand, put_operands};
use cxx_ast::expression::BinaryOp;
use region_ir::value::Value;

// The test of a binary operator.
fn put_binary_test(
    frame: &Frame<'_>,
    op: BinaryOp,
    left: &Value,
    right: &Value,
    code: &mut Code,
) -> Result<(), NoMemory>
    ensures { OnOk result (code.new ≡ code.old ++ rules.binary_test op (nat_le (rules.needs (value_of right.now)) (rules.needs (value_of left.now))) (rules.operand frame.now (value_of left.now)) (rules.operand frame.now (value_of right.now))) }
{
    match op {
        BinaryOp::And | BinaryOp::Or => {
            put_binary(frame, op, register(0), 0, left, right, code)?;
            put_branch_truth(register(0), code)
        }
        _ => {
            let operands = put_operands(frame, 0, left, right, code)?;
            put_branch(op, register(0), operands.left, operands.right, code)
        }
    }
}

/// A branch over one word where a value is not 0.
pub fn put_test(frame: &Frame<'_>, value: &Value, code: &mut Code) -> Result<(), NoMemory>
    ensures { OnOk result (code.new ≡ code.old ++ rules.test_code frame.now (value_of value.now)) }
{
    match value {
        Value::Binary(op, left, right) => put_binary_test(frame, *op, left, right, code),
        _ => {
            let x = put_operand(frame, 0, value, code)?;
            put_branch_truth(x, code)
        }
    }
}
