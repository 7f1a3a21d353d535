// Sizes of classes.
ghost use Rattle.std.specs.Prelude.{◌≡◌, ◌+◌, ◌++◌, ◌<◌, ◌≤◌, ◌==◌, [], ℕ, IfOk, min, slice_index};
ghost use Rattle.cxx_rules.specs.SizeOf.{number_of, added};

use crate::NoMemory;
use std::alloc::Global;
use std::marker::Model;

/// A number of bytes without a bound: a class with two members of the class before it has twice its size. Contracts see the
/// number.
#[derive(Drop)]
pub struct Size {
    digits: Vec<u32>,
}

impl Model for Size {
    ghost use Rattle.std.specs.Prelude.{ℕ};
    ghost use Rattle.cxx_rules.specs.SizeOf.{number_of};

    ghost Value = { ℕ };

    ghost view = { λ s. number_of s.digits.items };
}

// A digit, or 0 behind the last.
fn digit(digits: &[u32], i: usize) -> u64
    ensures is { result ≡ slice_index digits.now i }
    ensures small { result < 4294967296 }
{
    match digits.get(i) {
        None => 0,
        Some(d) => u64::from(*d),
    }
}

// All digits are 0.
fn is_zero(digits: &[u32]) -> bool
    ensures { result ≡ (number_of digits.now == 0) }
{
    for d in digits {
        if *d != 0 {
            return false;
        }
    }
    true
}

// Digits with a carry behind them, where there is one.
fn with_carry(digits: Vec<u32>, carry: u64) -> Result<Vec<u32>, NoMemory>
    requires { carry ≤ 1 }
    ensures { IfOk result (λ s. s.items ≡ digits.items ++ added 0 carry [] []) }
{
    let mut digits = digits;
    if carry == 0 {
        return Ok(digits);
    }
    digits.push(carry as u32)?;
    Ok(digits)
}

// The sum of two numbers, digit by digit.
fn sum(alloc: Global, a: &[u32], b: &[u32]) -> Result<Vec<u32>, NoMemory>
    ensures { IfOk result (λ s. number_of s.items ≡ number_of a.now + number_of b.now) }
{
    let count = a.len().max(b.len());
    let mut digits = Vec::new(alloc);
    let mut carry = 0;
    for i in 0..count {
        let sum = digit(a, i) + digit(b, i) + carry;
        digits.push((sum % 0x1_0000_0000) as u32)?;
        carry = sum / 0x1_0000_0000;
    }
    let all = with_carry(digits, carry)?;
    Ok(all)
}

impl Size {
    /// A size that fits a register.
    pub fn new(alloc: Global, bytes: u32) -> Result<Self, NoMemory>
        ensures { IfOk result (λ s. s ≡ bytes) }
    {
        let mut digits = Vec::new(alloc);
        digits.push(bytes)?;
        Ok(Size { digits })
    }

    /// The sum of two sizes.
    pub fn plus(&self, alloc: Global, other: &Size) -> Result<Self, NoMemory>
        ensures { IfOk result (λ s. s ≡ self.now + other.now) }
    {
        let digits = sum(alloc, self.digits.as_slice(), other.digits.as_slice())?;
        Ok(Size { digits })
    }

    /// The size, or a limit where that is less.
    pub fn capped(&self, limit: u32) -> u32
        ensures { result ≡ min self.now limit }
    {
        match self.digits.as_slice() {
            [] => 0,
            [low, high @ ..] => {
                if is_zero(high) {
                    (*low).min(limit)
                } else {
                    limit
                }
            }
        }
    }
}
