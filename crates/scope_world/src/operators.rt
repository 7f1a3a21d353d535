// The arithmetic of int.
ghost use Rattle.std.specs.Prelude.{◌≡◌};
ghost use Rattle.meaning_forms.specs.Arithmetic as rules;
ghost use Rattle.meaning_forms.specs.World.{World};
ghost use Rattle.scope_world.specs.Gives.{Gives};

use crate::outcome::Halt;
use cxx_ast::expression::{BinaryOp, UnaryOp};

/// A truth is 1 or 0.
pub fn truth(holds: bool) -> i32
    ensures { result ≡ rules.truth holds }
{
    if holds { 1 } else { 0 }
}

/// `-` and `!`.
pub fn unary_value(op: UnaryOp, x: i32) -> Result<i32, Halt>
    ensures { (w : World) → Gives (rules.unary_value op x w) result w }
{
    match op {
        UnaryOp::Minus => match x.checked_neg() {
            Some(value) => Ok(value),
            None => Err(Halt::Undefined),
        },
        UnaryOp::Not => Ok(truth(x == 0)),
    }
}

/// An operator on two values; `&&` and `||` come here where the right side decides.
pub fn binary_value(op: BinaryOp, x: i32, y: i32) -> Result<i32, Halt>
    ensures { (w : World) → Gives (rules.binary_value op x y w) result w }
{
    match op {
        BinaryOp::Add => match x.checked_add(y) {
            Some(value) => Ok(value),
            None => Err(Halt::Undefined),
        },
        BinaryOp::Subtract => match x.checked_sub(y) {
            Some(value) => Ok(value),
            None => Err(Halt::Undefined),
        },
        BinaryOp::Multiply => match x.checked_mul(y) {
            Some(value) => Ok(value),
            None => Err(Halt::Undefined),
        },
        BinaryOp::Divide => match x.checked_div(y) {
            Some(value) => Ok(value),
            None => Err(Halt::Undefined),
        },
        BinaryOp::Remainder => match x.checked_rem(y) {
            Some(value) => Ok(value),
            None => Err(Halt::Undefined),
        },
        BinaryOp::Less => Ok(truth(x < y)),
        BinaryOp::Greater => Ok(truth(y < x)),
        BinaryOp::LessEqual => Ok(truth(x <= y)),
        BinaryOp::GreaterEqual => Ok(truth(y <= x)),
        BinaryOp::Equal => Ok(truth(x == y)),
        BinaryOp::NotEqual => Ok(truth(x != y)),
        BinaryOp::And | BinaryOp::Or => Ok(truth(y != 0)),
    }
}

/// The value of `&&` or `||` where the left side decides it.
pub fn decided(op: BinaryOp, x: i32) -> Option<i32>
    ensures { result ≡ rules.decided op x }
{
    match op {
        BinaryOp::And if x == 0 => Some(0),
        BinaryOp::Or if x != 0 => Some(1),
        _ => None,
    }
}
