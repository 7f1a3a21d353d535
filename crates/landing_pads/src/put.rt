// Operations that are put behind others.
ghost use Rattle.std.specs.Prelude.{◌≡◌, ◌+◌, [], ◌∷◌, length, OnOk, IfOk};
ghost use Rattle.linear_forms.specs.Emission as rules;
ghost use Rattle.linear_forms.specs.Linear.{jump_zero};
ghost use Rattle.region_ir.specs.View.{operation_of, value_of};
ghost use Rattle.landing_pads.specs.Emitted.{Emitted};
ghost use Rattle.landing_pads.specs.View.{cover_of, linear_of};

use crate::NoMemory;
use crate::copied::{operation_copied, value_copied};
use crate::numbers::behind;
use crate::placed::{Cover, Placed};
use crate::raising::may_raise;
use crate::unit::LinearOp;
use region_ir::held::{beside, put};
use region_ir::operation::RegionOp;
use region_ir::value::Value;
use std::alloc::Global;

/// Puts an operation out of which nothing comes behind others.
#[tactic(auto, using(crate::proofs::Behind::one_put))]
pub fn put_quiet(op: LinearOp, code: &mut Vec<Placed>) -> Result<(), NoMemory>
    ensures { OnOk result (Emitted code.old.items code.new.items (rules.quiet (linear_of op) ∷ [])) }
{
    let placed = Placed {
        op,
        cover: Cover::Bare,
    };
    put(placed, code)?;
    Ok(())
}

/// Puts an operation that goes on outwards behind others, in the surroundings' cover.
#[tactic(auto, using(crate::proofs::Behind::one_put))]
pub fn put_outward(op: LinearOp, cover: &Cover, code: &mut Vec<Placed>) -> Result<(), NoMemory>
    ensures { OnOk result (Emitted code.old.items code.new.items (rules.outward (linear_of op) (cover_of cover.now) ∷ [])) }
{
    let (op, cover) = beside(op, cover.shared())?;
    put(Placed { op, cover }, code)?;
    Ok(())
}

/// Puts an operation of regions behind others.
pub fn put_operation(
    alloc: Global,
    operation: &RegionOp,
    cover: &Cover,
    code: &mut Vec<Placed>,
) -> Result<(), NoMemory>
    ensures { OnOk result (Emitted code.old.items code.new.items (rules.put (operation_of operation.now) (cover_of cover.now) ∷ [])) }
{
    let op = LinearOp::Op(operation_copied(alloc, operation)?);
    if may_raise(operation) {
        put_outward(op, cover, code)
    } else {
        put_quiet(op, code)
    }
}

/// Puts a jump behind others, which is made where the value of a test is 0.
pub fn put_test(
    alloc: Global,
    test: &Value,
    label: u32,
    code: &mut Vec<Placed>,
) -> Result<(), NoMemory>
    ensures { OnOk result (Emitted code.old.items code.new.items (rules.quiet (jump_zero (value_of test.now) label) ∷ [])) }
{
    let test = value_copied(alloc, test)?;
    put_quiet(LinearOp::JumpZero(test, label), code)?;
    Ok(())
}

/// The place of a landing pad that normal code jumps over, so that one operation more comes before it.
pub fn pad_place(code: &[Placed]) -> Result<u32, NoMemory>
    ensures { IfOk result (λ p. p ≡ length code.now + 1) }
{
    behind(1, code.len())
}
