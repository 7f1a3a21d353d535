// Functions that call nothing, and enter the runtime nowhere.
ghost use Rattle.std.specs.Prelude.{◌≡◌};
ghost use Rattle.std.specs.List.{list_all};
ghost use Rattle.region_ir.specs.View.{operation_of, value_of};
ghost use Rattle.landing_pads.specs.View.{code_of, linear_of};
ghost use Rattle.machine_forms.specs.Leaf as rules;

use landing_pads::unit::{FuncCode, LinearOp};
use region_ir::operation::RegionOp;
use region_ir::value::Value;

// Whether a value is computed without a call.
fn value_stays(value: &Value) -> bool
    ensures { result ≡ rules.value_stays (value_of value.now) }
{
    !matches!(value, Value::Call(_, _))
}

// Whether an operation is done inside its function.
fn operation_stays(operation: &RegionOp) -> bool
    ensures { result ≡ rules.op_stays (operation_of operation.now) }
{
    match operation {
        RegionOp::Evaluate(value) | RegionOp::Store(_, value) => value_stays(value),
        RegionOp::Bind(_, _) => true,
        _ => false,
    }
}

fn linear_stays(operation: &LinearOp) -> bool
    ensures { result ≡ rules.linear_stays (linear_of operation.now) }
{
    match operation {
        LinearOp::Op(operation) => operation_stays(operation),
        LinearOp::Label(_) | LinearOp::Jump(_) | LinearOp::JumpZero(_, _) | LinearOp::Return(_) =>
            true,
        _ => false,
    }
}

// Whether all operations are.
fn all_stay(ops: &[LinearOp]) -> bool
    ensures { result ≡ list_all (λ o. rules.linear_stays (linear_of o)) ops.now }
{
    ops.iter().all(|operation| linear_stays(operation))
}

/// Whether a function is a leaf.
pub fn is_leaf(function: &FuncCode) -> bool
    ensures { result ≡ rules.is_leaf (code_of function.now) }
{
    all_stay(function.ops.as_slice())
}
