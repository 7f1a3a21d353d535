// Registers and shift amounts, as fields of an instruction.
ghost use Rattle.std.specs.Prelude.{◌≡◌, ◌<◌, ◌^◌};

use std::marker::Model;

/// A register, x0 to x31.
#[derive(Clone, Copy, Debug, PartialEq, Eq)]
pub struct Register {
    bits: u8,
}

impl Model for Register {
    ghost use Rattle.std.specs.Prelude.{ℕ, ◌<◌, ◌^◌};

    ghost Value = { ℕ };

    ghost view = { λ field. field.bits };

    ghost invariant = { λ field. field.bits < 32 };

    ghost inverse = { λ bits. record { bits = bits } };
}

impl Register {
    /// The register of this number.
    pub fn new(bits: u8) -> Register
        requires { bits < 32 }
        ensures { result ≡ bits }
    {
        Register { bits }
    }

    /// Its number, 0 to 31.
    pub fn get(self) -> u8
        ensures value { result ≡ self }
        ensures in_range { result < 32 }
    {
        self.bits
    }
}

/// How far to shift 32 bits.
#[derive(Clone, Copy, Debug, PartialEq, Eq)]
pub struct Shift5 {
    bits: u8,
}

impl Model for Shift5 {
    ghost use Rattle.std.specs.Prelude.{ℕ, ◌<◌, ◌^◌};

    ghost Value = { ℕ };

    ghost view = { λ field. field.bits };

    ghost invariant = { λ field. field.bits < 32 };

    ghost inverse = { λ bits. record { bits = bits } };
}

impl Shift5 {
    /// A shift by so many bits.
    pub fn new(bits: u8) -> Shift5
        requires { bits < 32 }
        ensures { result ≡ bits }
    {
        Shift5 { bits }
    }

    /// The number of bits, 0 to 31.
    pub fn get(self) -> u8
        ensures value { result ≡ self }
        ensures in_range { result < 32 }
    {
        self.bits
    }
}

/// How far to shift 64 bits.
#[derive(Clone, Copy, Debug, PartialEq, Eq)]
pub struct Shift6 {
    bits: u8,
}

impl Model for Shift6 {
    ghost use Rattle.std.specs.Prelude.{ℕ, ◌<◌, ◌^◌};

    ghost Value = { ℕ };

    ghost view = { λ field. field.bits };

    ghost invariant = { λ field. field.bits < 64 };

    ghost inverse = { λ bits. record { bits = bits } };
}

impl Shift6 {
    /// A shift by so many bits.
    pub fn new(bits: u8) -> Shift6
        requires { bits < 64 }
        ensures { result ≡ bits }
    {
        Shift6 { bits }
    }

    /// The number of bits, 0 to 63.
    pub fn get(self) -> u8
        ensures value { result ≡ self }
        ensures in_range { result < 64 }
    {
        self.bits
    }
}
