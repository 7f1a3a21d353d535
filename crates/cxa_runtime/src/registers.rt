// Arguments and results of runtime calls.
ghost use Rattle.std.specs.Prelude.{◌≡◌, ◌<◌};
ghost use Rattle.rv64_isa.specs.State.{reg_of, with_reg};
ghost use Rattle.cxa_runtime.specs.Number.{as_int, as_register};

use crate::runtime::Runtime;

/// The registers of arguments and results, and of a call's number (RISC-V ABIs, "Integer Register Convention").
pub const A0: u8 = 10;

pub const A1: u8 = 11;

pub const A2: u8 = 12;

pub const A7: u8 = 17;

/// The int that the low 32 bits of a register are.
pub fn as_int(register: u64) -> i32
    ensures { result ≡ as_int register }
{
    ((register % 0x1_0000_0000) as u32).cast_signed()
}

/// A number as a register holds it.
pub fn as_register(n: i64) -> u64
    ensures { result ≡ as_register n }
{
    n.cast_unsigned()
}

impl Runtime {
    /// A register.
    pub(crate) fn argument(&self, n: u8) -> u64
        requires { n < 32 }
        ensures { result ≡ reg_of self.now.hart.regs n }
    {
        self.unwinder.machine().reg(n)
    }

    /// Sets a register.
    pub(crate) fn give(&mut self, n: u8, value: u64)
        requires { n < 32 }
        ensures { self.new ≡ record self.old { hart = record self.old.hart { regs = with_reg self.old.hart.regs n value } } }
    {
        self.unwinder.set_reg(n, value);
    }
}
