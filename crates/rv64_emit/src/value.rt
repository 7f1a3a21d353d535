// Values without calls, each in a register of choice, by means of those for values from the k-th on.
ghost use Rattle.std.specs.Prelude.{◌≡◌, ◌<◌, ◌+◌, ◌-◌, ◌*◌, ◌++◌, [], ◌∷◌, ℕ, List, Some, None, length, nat_le, slice_set, if◌then◌else◌, IfOk, OnOk};
ghost use Rattle.rv64_isa.specs.declared.instr.Instr.TheVariants.{Jal};
ghost use Rattle.region_ir.specs.View.{value_of};
ghost use Rattle.machine_forms.specs.Immediate.{is_small};
ghost use Rattle.machine_forms.specs.Piece.{Piece as PlainPiece, instruction};
ghost use Rattle.machine_forms.specs.Registers as registers;
ghost use Rattle.machine_forms.specs.ValueCode as rules;

use crate::NoMemory;
use crate::code::Code;
use crate::immediate::{immediate, is_small, over_one};
use crate::numbers::behind;
use crate::operator::{operator_needs, put_operator, put_truth, put_unary};
use crate::piece::Piece;
use crate::place::{put_load, put_number};
use crate::register::{register, zero};
use crate::shape::Frame;
use cxx_ast::expression::BinaryOp;
use region_ir::value::Value;
use rv64_isa::{Instr, JumpOffset, Register};

/// The registers of two operands.
#[derive(Drop, Clone, Copy)]
pub struct Operands {
    pub left: Register,
    pub right: Register,
}

/// How many registers a value needs.
pub fn needs(value: &Value) -> Result<u32, NoMemory>
    ensures { IfOk result (λ n. n ≡ rules.needs (value_of value.now)) }
{
    match value {
        Value::Number(_) | Value::Load(_) | Value::Call(_, _) => Ok(1),
        Value::Unary(_, operand) => needs(operand),
        Value::Binary(op, left, right) => operator_needs(*op, needs(left)?, needs(right)?),
    }
}

// The register of a kept variable that is a value.
fn held_in(frame: &Frame<'_>, value: &Value) -> Option<Register>
    ensures { result ≡ rules.held_in frame.now (value_of value.now) }
{
    match value {
        Value::Load(place) => frame.register_at(place.root),
        _ => None,
    }
}

// A number, if it is small.
fn small(number: i64) -> Option<i64>
    ensures { result ≡ if is_small number then Some number else None }
{
    if is_small(number) { Some(number) } else { None }
}

// The small number that a sum or a difference adds to its left operand, if its right one is such a number.
fn addend(op: BinaryOp, right: &Value) -> Option<i64>
    ensures { result ≡ rules.addend op (value_of right.now) }
{
    match right {
        Value::Number(number) => match op {
            BinaryOp::Add => small(i64::from(*number)),
            BinaryOp::Subtract => small(-i64::from(*number)),
            _ => None,
        },
        _ => None,
    }
}

/// A value in a register, by means of those for values from the k-th on. A call has no code here.
#[cycle(values)]
pub fn put_value(
    frame: &Frame<'_>,
    rd: Register,
    k: u32,
    value: &Value,
    code: &mut Code,
) -> Result<(), NoMemory>
    ensures { OnOk result (code.new ≡ code.old ++ rules.value_code frame.now rd k (value_of value.now)) }
{
    match value {
        Value::Number(number) => put_number(rd, i64::from(*number), code),
        Value::Load(place) => put_load(frame, rd, *place, code),
        Value::Unary(op, operand) => {
            let x = put_operand(frame, k, operand, code)?;
            put_unary(*op, rd, x, code)
        }
        Value::Binary(op, left, right) => put_result(frame, *op, rd, k, left, right, code),
        Value::Call(_, _) => Ok(()),
    }
}

/// An operand, in its own register or in the k-th one; gives that register.
#[cycle(values)]
pub fn put_operand(
    frame: &Frame<'_>,
    k: u32,
    value: &Value,
    code: &mut Code,
) -> Result<Register, NoMemory>
    ensures code { OnOk result (code.new ≡ code.old ++ rules.brought (rules.operand frame.now (value_of value.now)) k) }
    ensures register { IfOk result (λ r. r ≡ rules.read_in (rules.operand frame.now (value_of value.now)) k) }
{
    match held_in(frame, value) {
        Some(held) => Ok(held),
        None => {
            put_value(frame, register(k), k, value, code)?;
            Ok(register(k))
        }
    }
}

// The value of a binary operator: a small number is added to the left operand, or both are computed.
#[cycle(values)]
fn put_result(
    frame: &Frame<'_>,
    op: BinaryOp,
    rd: Register,
    k: u32,
    left: &Value,
    right: &Value,
    code: &mut Code,
) -> Result<(), NoMemory>
    ensures { OnOk result (code.new ≡ code.old ++ rules.sum_code (rules.addend op (value_of right.now)) rd k (rules.operand frame.now (value_of left.now)) (rules.binary_code op (nat_le (rules.needs (value_of right.now)) (rules.needs (value_of left.now))) rd k (rules.operand frame.now (value_of left.now)) (rules.operand frame.now (value_of right.now)))) }
{
    match addend(op, right) {
        Some(number) => put_sum(frame, rd, k, left, number, code),
        None => put_binary(frame, op, rd, k, left, right, code),
    }
}

// A small number is added to an operand.
#[cycle(values)]
fn put_sum(
    frame: &Frame<'_>,
    rd: Register,
    k: u32,
    left: &Value,
    number: i64,
    code: &mut Code,
) -> Result<(), NoMemory>
    ensures { (other : List PlainPiece) → OnOk result (code.new ≡ code.old ++ rules.sum_code (Some number) rd k (rules.operand frame.now (value_of left.now)) other) }
{
    let x = put_operand(frame, k, left, code)?;
    code.put(Instr::Addiw(rd, x, immediate(number)))
}

/// A binary operator and its operands.
#[cycle(values)]
pub fn put_binary(
    frame: &Frame<'_>,
    op: BinaryOp,
    rd: Register,
    k: u32,
    left: &Value,
    right: &Value,
    code: &mut Code,
) -> Result<(), NoMemory>
    ensures { OnOk result (code.new ≡ code.old ++ rules.binary_code op (nat_le (rules.needs (value_of right.now)) (rules.needs (value_of left.now))) rd k (rules.operand frame.now (value_of left.now)) (rules.operand frame.now (value_of right.now))) }
{
    match op {
        BinaryOp::And => put_and(frame, rd, k, left, right, code),
        BinaryOp::Or => put_or(frame, rd, k, left, right, code),
        _ => {
            let operands = put_operands(frame, k, left, right, code)?;
            put_operator(op, rd, operands.left, operands.right, code)
        }
    }
}

/// Two operands by means of the registers from the k-th on, the one that needs more of them first.
#[cycle(values)]
pub fn put_operands(
    frame: &Frame<'_>,
    k: u32,
    left: &Value,
    right: &Value,
    code: &mut Code,
) -> Result<Operands, NoMemory>
    ensures { IfOk result (λ o. (done : ℕ → ℕ → List PlainPiece) → code.new ++ done o.left o.right ≡ code.old ++ rules.operands_code (nat_le (rules.needs (value_of right.now)) (rules.needs (value_of left.now))) k (rules.operand frame.now (value_of left.now)) (rules.operand frame.now (value_of right.now)) done) }
{
    let next = behind(k, 1)?;
    if needs(right)? <= needs(left)? {
        let x = put_operand(frame, k, left, code)?;
        let y = put_operand(frame, next, right, code)?;
        Ok(Operands { left: x, right: y })
    } else {
        let y = put_operand(frame, k, right, code)?;
        let x = put_operand(frame, next, left, code)?;
        Ok(Operands { left: x, right: y })
    }
}

// A jump over so many words, this one counted.
fn jump_over(words: usize) -> Result<Instr, NoMemory>
    ensures { IfOk result (λ i. i ≡ Jal registers.zero_register (2 * words)) }
{
    if words < 0x8_0000 {
        Ok(Instr::Jal(zero(), JumpOffset::new(2 * words as u32)))
    } else {
        Err(NoMemory)
    }
}

// A branch over the word behind it, and in this word a jump whose distance is not known yet; gives its place.
fn put_open_jump(branch: Instr, code: &mut Code) -> Result<usize, NoMemory>
    ensures code { OnOk result (code.new ≡ code.old ++ instruction branch ∷ instruction (Jal registers.zero_register 0) ∷ []) }
    ensures place { IfOk result (λ at. at ≡ length code.old + 1) }
{
    code.put(branch)?;
    let place = code.len();
    code.put(jump_over(0)?)?;
    Ok(place)
}

// The jump at a place goes over the code behind it.
fn close_jump(place: usize, code: &mut Code) -> Result<(), NoMemory>
    requires { place < length code.old }
    ensures { OnOk result (code.new ≡ slice_set code.old place (instruction (Jal registers.zero_register (2 * (length code.old - place))))) }
{
    let jump = jump_over(code.len() - place)?;
    code.set(place, Piece::Instruction(jump));
    Ok(())
}

// The truth of the left side and of the right side, which is passed over where the left one is 0.
#[cycle(values)]
fn put_and(
    frame: &Frame<'_>,
    rd: Register,
    k: u32,
    left: &Value,
    right: &Value,
    code: &mut Code,
) -> Result<(), NoMemory>
    ensures { OnOk result (code.new ≡ code.old ++ (rules.value_code frame.now (registers.register k) k (value_of left.now) ++ rules.unless_zero (registers.register k) (rules.value_code frame.now (registers.register k) k (value_of right.now)) ++ rules.made_truth rd (registers.register k))) }
{
    let side = register(k);
    put_value(frame, side, k, left, code)?;
    let jump = put_open_jump(Instr::Bne(side, zero(), over_one()), code)?;
    put_value(frame, side, k, right, code)?;
    close_jump(jump, code)?;
    put_truth(rd, side, code)
}

// The truth of the left side or of the right side, which is passed over where the left one is not 0.
#[cycle(values)]
fn put_or(
    frame: &Frame<'_>,
    rd: Register,
    k: u32,
    left: &Value,
    right: &Value,
    code: &mut Code,
) -> Result<(), NoMemory>
    ensures { OnOk result (code.new ≡ code.old ++ (rules.value_code frame.now (registers.register k) k (value_of left.now) ++ rules.if_zero (registers.register k) (rules.value_code frame.now (registers.register k) k (value_of right.now)) ++ rules.made_truth rd (registers.register k))) }
{
    let side = register(k);
    put_value(frame, side, k, left, code)?;
    let jump = put_open_jump(Instr::Beq(side, zero(), over_one()), code)?;
    put_value(frame, side, k, right, code)?;
    close_jump(jump, code)?;
    put_truth(rd, side, code)
}
