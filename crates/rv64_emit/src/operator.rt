// Operators on registers.
ghost use Rattle.std.specs.Prelude.{◌≡◌, ◌+◌, ◌++◌, IfOk, OnOk};
ghost use Rattle.machine_forms.specs.ValueCode as rules;

use crate::NoMemory;
use crate::code::Code;
use crate::immediate::over_one;
use crate::register::zero;
use cxx_ast::expression::{BinaryOp, UnaryOp};
use rv64_isa::{Immediate12, Instr, Register};

/// How many registers an operator needs whose operands need so many.
pub fn operator_needs(op: BinaryOp, left: u32, right: u32) -> Result<u32, NoMemory>
    ensures { IfOk result (λ n. n ≡ rules.operator_needs op left right) }
{
    match op {
        BinaryOp::And | BinaryOp::Or => Ok(left.max(right)),
        _ if left == right => left.checked_add(1).ok_or(NoMemory),
        _ => Ok(left.max(right)),
    }
}

/// A register gets 1 where another one is not 0, else 0.
pub fn put_truth(rd: Register, x: Register, code: &mut Code) -> Result<(), NoMemory>
    ensures { OnOk result (code.new ≡ code.old ++ rules.made_truth rd x) }
{
    code.put(Instr::Sltu(rd, zero(), x))
}

// A truth becomes the other one.
fn put_turned(rd: Register, code: &mut Code) -> Result<(), NoMemory>
    ensures { OnOk result (code.new ≡ code.old ++ rules.turned rd) }
{
    code.put(Instr::Xori(rd, rd, Immediate12::new(1)))
}

/// A unary operator on a register.
pub fn put_unary(op: UnaryOp, rd: Register, x: Register, code: &mut Code) -> Result<(), NoMemory>
    ensures { OnOk result (code.new ≡ code.old ++ rules.unary_code op rd x) }
{
    match op {
        UnaryOp::Minus => code.put(Instr::Subw(rd, zero(), x)),
        UnaryOp::Not => code.put(Instr::Sltiu(rd, x, Immediate12::new(1))),
    }
}

/// A binary operator on two registers; `&&` and `||` have no code of this kind.
pub fn put_operator(
    op: BinaryOp,
    rd: Register,
    x: Register,
    y: Register,
    code: &mut Code,
) -> Result<(), NoMemory>
    ensures { OnOk result (code.new ≡ code.old ++ rules.operator_code op rd x y) }
{
    match op {
        BinaryOp::Add => code.put(Instr::Addw(rd, x, y)),
        BinaryOp::Subtract => code.put(Instr::Subw(rd, x, y)),
        BinaryOp::Multiply => code.put(Instr::Mulw(rd, x, y)),
        BinaryOp::Divide => code.put(Instr::Divw(rd, x, y)),
        BinaryOp::Remainder => code.put(Instr::Remw(rd, x, y)),
        BinaryOp::Less => code.put(Instr::Slt(rd, x, y)),
        BinaryOp::Greater => code.put(Instr::Slt(rd, y, x)),
        BinaryOp::LessEqual => {
            code.put(Instr::Slt(rd, y, x))?;
            put_turned(rd, code)
        }
        BinaryOp::GreaterEqual => {
            code.put(Instr::Slt(rd, x, y))?;
            put_turned(rd, code)
        }
        BinaryOp::Equal => {
            code.put(Instr::Subw(rd, x, y))?;
            code.put(Instr::Sltiu(rd, rd, Immediate12::new(1)))
        }
        BinaryOp::NotEqual => {
            code.put(Instr::Subw(rd, x, y))?;
            put_truth(rd, rd, code)
        }
        BinaryOp::And | BinaryOp::Or => Ok(()),
    }
}

/// A branch over one word where a register is not 0.
pub fn put_branch_truth(x: Register, code: &mut Code) -> Result<(), NoMemory>
    ensures { OnOk result (code.new ≡ code.old ++ rules.branch_truth x) }
{
    code.put(Instr::Bne(x, zero(), over_one()))
}

/// A branch over one word where an operator on two registers gives no 0.
pub fn put_branch(
    op: BinaryOp,
    rd: Register,
    x: Register,
    y: Register,
    code: &mut Code,
) -> Result<(), NoMemory>
    ensures { OnOk result (code.new ≡ code.old ++ rules.branch_operator op rd x y) }
{
    match op {
        BinaryOp::Less => code.put(Instr::Blt(x, y, over_one())),
        BinaryOp::Greater => code.put(Instr::Blt(y, x, over_one())),
        BinaryOp::LessEqual => code.put(Instr::Bge(y, x, over_one())),
        BinaryOp::GreaterEqual => code.put(Instr::Bge(x, y, over_one())),
        BinaryOp::Equal => code.put(Instr::Beq(x, y, over_one())),
        BinaryOp::NotEqual => code.put(Instr::Bne(x, y, over_one())),
        _ => {
            put_operator(op, rd, x, y, code)?;
            put_branch_truth(rd, code)
        }
    }
}
