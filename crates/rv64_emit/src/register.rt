// The registers that code uses, by the names of the RISC-V calling convention.
ghost use Rattle.std.specs.Prelude.{◌≡◌, slice_get};
ghost use Rattle.machine_forms.specs.Registers as rules;

use rv64_isa::Register;

pub fn zero() -> Register
    ensures { result ≡ rules.zero_register }
{
    Register::new(0)
}

pub fn ra() -> Register
    ensures { result ≡ rules.ra }
{
    Register::new(1)
}

pub fn sp() -> Register
    ensures { result ≡ rules.sp }
{
    Register::new(2)
}

pub fn t0() -> Register
    ensures { result ≡ rules.t0 }
{
    Register::new(5)
}

pub fn a0() -> Register
    ensures { result ≡ rules.a0 }
{
    Register::new(10)
}

pub fn a1() -> Register
    ensures { result ≡ rules.a1 }
{
    Register::new(11)
}

pub fn a2() -> Register
    ensures { result ≡ rules.a2 }
{
    Register::new(12)
}

/// The register for the number of a runtime call.
pub fn a7() -> Register
    ensures { result ≡ rules.a7 }
{
    Register::new(17)
}

/// The k-th register in which values are computed: a0 to a7, then t0 to t6. Behind them it is x0.
pub fn register(k: u32) -> Register
    ensures { result ≡ rules.register k }
{
    let number = match k {
        0 => 10,
        1 => 11,
        2 => 12,
        3 => 13,
        4 => 14,
        5 => 15,
        6 => 16,
        7 => 17,
        8 => 5,
        9 => 6,
        10 => 7,
        11 => 28,
        12 => 29,
        13 => 30,
        14 => 31,
        _ => 0,
    };
    Register::new(number)
}

/// The k-th register of a kept variable, s1 to s10, if there are so many.
pub fn saved(k: usize) -> Option<Register>
    ensures { result ≡ slice_get rules.saved_registers k }
{
    match k {
        0 => Some(Register::new(9)),
        1 => Some(Register::new(18)),
        2 => Some(Register::new(19)),
        3 => Some(Register::new(20)),
        4 => Some(Register::new(21)),
        5 => Some(Register::new(22)),
        6 => Some(Register::new(23)),
        7 => Some(Register::new(24)),
        8 => Some(Register::new(25)),
        9 => Some(Register::new(26)),
        _ => None,
    }
}
