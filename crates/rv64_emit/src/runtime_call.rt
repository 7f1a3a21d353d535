// The runtime calls: an ECALL with the number of the call in a7.
ghost use Rattle.std.specs.Prelude.{◌≡◌, ◌++◌, ◌<◌, ◌^◌, OnOk};
ghost use Rattle.machine_forms.specs.RuntimeCall as rules;

use crate::NoMemory;
use crate::code::Code;
use crate::register::{a0, a7, zero};
use rv64_isa::{Immediate12, Instr};

pub const EXIT: u16 = 0;

pub const WRITE_INT: u16 = 1;

pub const READ_BYTE: u16 = 2;

pub const ALLOCATE: u16 = 3;

pub const FREE: u16 = 4;

pub const THROW: u16 = 5;

pub const BEGIN_CATCH: u16 = 6;

pub const RETHROW: u16 = 8;

pub const RESUME: u16 = 9;

pub const UNCAUGHT: u16 = 10;

pub const SET_TERMINATE: u16 = 11;

pub const SET_UNEXPECTED: u16 = 12;

pub const TERMINATE: u16 = 13;

pub const MODULE: u16 = 14;

pub const CANCEL: u16 = 15;

pub const STACK: u16 = 17;

/// A runtime call.
pub fn put_runtime_call(number: u16, code: &mut Code) -> Result<(), NoMemory>
    requires { number < 2 ^ 12 }
    ensures { OnOk result (code.new ≡ code.old ++ rules.runtime_call number) }
{
    code.put(Instr::Addi(a7(), zero(), Immediate12::new(number)))?;
    code.put(Instr::Ecall)
}

/// a0 becomes 0.
pub fn put_zero(code: &mut Code) -> Result<(), NoMemory>
    ensures { OnOk result (code.new ≡ code.old ++ rules.zero_given) }
{
    code.put(Instr::Addi(a0(), zero(), Immediate12::new(0)))
}
