// Arguments and calls.
ghost use Rattle.std.specs.Prelude.{◌≡◌, ◌++◌, OnOk};
ghost use Rattle.region_ir.specs.View.{argument_of, arguments_of, callee_of};
ghost use Rattle.machine_forms.specs.CallCode as rules;
ghost use Rattle.machine_forms.specs.Piece.{instruction};
ghost use Rattle.rv64_emit.specs.View.{function_of};

use crate::NoMemory;
use crate::builtin::{put_builtin_call, put_builtin_value};
use crate::code::Code;
use crate::immediate::immediate;
use crate::numbers::behind;
use crate::piece::{Function, Piece, Target};
use crate::place::{put_address, put_target};
use crate::register::{ra, register, sp};
use crate::shape::Frame;
use crate::value::{put_operand, put_value};
use region_ir::value::{Arg, Callee};
use rv64_isa::{Instr, Register};

// An argument in the k-th register.
fn put_argument(frame: &Frame<'_>, k: u32, argument: &Arg, code: &mut Code) -> Result<(), NoMemory>
    ensures { OnOk result (code.new ≡ code.old ++ rules.argument_code frame.now k (argument_of argument.now)) }
{
    match argument {
        Arg::Int(value) => put_value(frame, register(k), k, value, code),
        Arg::Address(place) => put_address(frame, register(k), *place, code),
        Arg::Handler(function) => {
            let entry = Target::Entry(Function::Compiled(*function));
            put_target(register(k), entry, code)
        }
    }
}

/// A register is passed as the i-th argument.
pub fn pass(value: Register, i: u32) -> Instr
    ensures { instruction result ≡ rules.passed value i }
{
    Instr::Sd(sp(), value, immediate(-8 * (i64::from(i) + 1)))
}

// The i-th argument is passed: an int from where it is read, anything else from the first register.
fn put_argument_passed(
    frame: &Frame<'_>,
    i: u32,
    argument: &Arg,
    code: &mut Code,
) -> Result<(), NoMemory>
    ensures { OnOk result (code.new ≡ code.old ++ rules.argument_passed frame.now i (argument_of argument.now)) }
{
    match argument {
        Arg::Int(value) => {
            let x = put_operand(frame, 0, value, code)?;
            code.put(pass(x, i))
        }
        _ => {
            put_argument(frame, 0, argument, code)?;
            code.put(pass(register(0), i))
        }
    }
}

/// Arguments are passed, from the i-th on.
pub fn put_passed(
    frame: &Frame<'_>,
    i: u32,
    arguments: &[Arg],
    code: &mut Code,
) -> Result<(), NoMemory>
    ensures { OnOk result (code.new ≡ code.old ++ rules.arguments_passed frame.now i (arguments_of arguments.now)) }
{
    let mut next = i;
    for argument in arguments {
        put_argument_passed(frame, next, argument, code)?;
        next = behind(next, 1)?;
    }
    Ok(())
}

// Arguments in registers, from the k-th on.
fn put_held(frame: &Frame<'_>, k: u32, arguments: &[Arg], code: &mut Code) -> Result<(), NoMemory>
    ensures { OnOk result (code.new ≡ code.old ++ rules.arguments_held frame.now k (arguments_of arguments.now)) }
{
    let mut next = k;
    for argument in arguments {
        put_argument(frame, next, argument, code)?;
        next = behind(next, 1)?;
    }
    Ok(())
}

/// A function is called.
pub fn put_function_call(function: Function, code: &mut Code) -> Result<(), NoMemory>
    ensures { OnOk result (code.new ≡ code.old ++ rules.function_called (function_of function)) }
{
    let entry = Target::Entry(function);
    code.push(Piece::UpperPart(ra(), entry))?;
    code.push(Piece::JumpRest(ra(), ra(), entry))
}

/// A call, which gives its value in a0.
pub fn put_call(
    frame: &Frame<'_>,
    callee: Callee,
    arguments: &[Arg],
    code: &mut Code,
) -> Result<(), NoMemory>
    ensures { OnOk result (code.new ≡ code.old ++ rules.call_code frame.now (callee_of callee) (arguments_of arguments.now)) }
{
    match callee {
        Callee::Func(number) => {
            put_passed(frame, 0, arguments, code)?;
            put_function_call(Function::Compiled(number), code)
        }
        Callee::Builtin(builtin) => {
            put_held(frame, 0, arguments, code)?;
            put_builtin_call(builtin, code)
        }
    }
}

// The value of a call in a0, where it is wanted.
fn put_call_value(callee: Callee, code: &mut Code) -> Result<(), NoMemory>
    ensures { OnOk result (code.new ≡ code.old ++ rules.value_given (callee_of callee)) }
{
    match callee {
        Callee::Func(_) => Ok(()),
        Callee::Builtin(builtin) => put_builtin_value(builtin, code),
    }
}

/// A call whose value is wanted in a0.
pub fn put_valued_call(
    frame: &Frame<'_>,
    callee: Callee,
    arguments: &[Arg],
    code: &mut Code,
) -> Result<(), NoMemory>
    ensures { OnOk result (code.new ≡ code.old ++ (rules.call_code frame.now (callee_of callee) (arguments_of arguments.now) ++ rules.value_given (callee_of callee))) }
{
    put_call(frame, callee, arguments, code)?;
    put_call_value(callee, code)
}
