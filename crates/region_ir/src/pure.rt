// Expressions that make no calls are values.
ghost use Rattle.std.specs.Prelude.{◌≡◌, ℕ, false, IfOk};
ghost use Rattle.cxx_ast.specs.View.{expression_of};
ghost use Rattle.region_forms.specs.LowerExpression as rules;
ghost use Rattle.region_ir.specs.Given.{lowering_of};
ghost use Rattle.region_ir.specs.View.{value_of};

use crate::NoMemory;
use crate::expression::{binary, unary};
use crate::held::beside;
use crate::lowering::Lowering;
use crate::value::Value;
use cxx_ast::expression::Expr;

/// The value of an expression that makes no call, as `has_call` tells.
#[tactic(auto, using(crate::proofs::Quiet::pure_both, crate::proofs::Quiet::left_quiet, crate::proofs::Quiet::right_quiet))]
pub fn pure_value(l: &Lowering<'_>, e: &Expr) -> Result<Value, NoMemory>
    requires { rules.has_call (expression_of e.now) ≡ false }
    ensures { (t : ℕ) → IfOk result (λ v. value_of v ≡ (rules.lower (lowering_of l.now) (expression_of e.now) t).value) }
{
    match e {
        Expr::Number(value, _) => Ok(Value::Number(*value)),
        Expr::Path(it) => Ok(Value::Load(l.place_of(it.path.as_slice())?)),
        Expr::Paren(inner, _) => pure_value(l, inner),
        Expr::Unary(op, inner, _) => {
            let value = pure_value(l, inner)?;
            let value = unary(l.alloc, *op, value)?;
            Ok(value)
        }
        Expr::Binary(op, left, right) => {
            let left = pure_value(l, left)?;
            let (left, right) = beside(left, pure_value(l, right))?;
            let value = binary(l.alloc, *op, left, right)?;
            Ok(value)
        }
        Expr::Call(_, _) | Expr::StdCall(_, _, _) => unreachable!(),
    }
}
