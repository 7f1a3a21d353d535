// Operations out of which an exception or a forced unwind may come.
ghost use Rattle.std.specs.Prelude.{◌≡◌};
ghost use Rattle.linear_forms.specs.Emission as rules;
ghost use Rattle.region_ir.specs.View.{callee_of, operation_of, value_of};

use cxx_ast::name::Builtin;
use region_ir::operation::RegionOp;
use region_ir::value::{Callee, Value};

// Whether a callee may raise: a module may, and a forced unwind is raised.
fn callee_raises(callee: &Callee) -> bool
    ensures { result ≡ rules.callee_raises (callee_of callee.now) }
{
    match callee {
        Callee::Func(_) => true,
        Callee::Builtin(builtin) => matches!(builtin, Builtin::Module | Builtin::Cancel),
    }
}

// Whether a value may raise.
fn value_raises(value: &Value) -> bool
    ensures { result ≡ rules.value_raises (value_of value.now) }
{
    match value {
        Value::Call(callee, _) => callee_raises(callee),
        _ => false,
    }
}

/// Whether an exception or a forced unwind may come out of an operation.
pub fn may_raise(operation: &RegionOp) -> bool
    ensures { result ≡ rules.may_raise (operation_of operation.now) }
{
    match operation {
        RegionOp::Evaluate(value) | RegionOp::Store(_, value) => value_raises(value),
        RegionOp::Call(callee, _) => callee_raises(callee),
        RegionOp::Construct(_, _, _)
        | RegionOp::Destroy(_, _)
        | RegionOp::Throw(_, _, _)
        | RegionOp::Rethrow
        | RegionOp::Leave => true,
        RegionOp::Bind(_, _) | RegionOp::Make(_) | RegionOp::Enter(_) => false,
    }
}
