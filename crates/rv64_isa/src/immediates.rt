// Immediates and distances, as fields of an instruction.
ghost use Rattle.std.specs.Prelude.{◌≡◌, ◌<◌, ◌*◌, ◌^◌, ◌≤ℤ◌, pos, negsuc, int_rem};
ghost use Rattle.std.specs.Int.{cast_unsigned, w64};
ghost use Rattle.rv64_isa.specs.Arithmetic.{sign_extended};

use std::marker::Model;

/// An immediate of format I or S: 12 bits, which stand for a number with sign (two's complement).
#[derive(Clone, Copy, Debug, PartialEq, Eq)]
pub struct Immediate12 {
    bits: u16,
}

impl Model for Immediate12 {
    ghost use Rattle.std.specs.Prelude.{ℕ, ◌<◌, ◌^◌};

    ghost Value = { ℕ };

    ghost view = { λ field. field.bits };

    ghost invariant = { λ field. field.bits < 2 ^ 12 };

    ghost inverse = { λ bits. record { bits = bits } };
}

impl Immediate12 {
    /// The field of these bits.
    pub fn new(bits: u16) -> Immediate12
        requires { bits < 2 ^ 12 }
        ensures { result ≡ bits }
    {
        Immediate12 { bits }
    }

    /// The 12 bits.
    pub fn get(self) -> u16
        ensures value { result ≡ self }
        ensures in_range { result < 2 ^ 12 }
    {
        self.bits
    }

    /// The immediate of a number from -2048 to 2047.
    pub fn from_signed(value: i16) -> Immediate12
        requires low { negsuc 2047 ≤ℤ value }
        requires high { value ≤ℤ pos 2047 }
        ensures { sign_extended 12 result ≡ cast_unsigned w64 value }
    {
        Immediate12::new(value.cast_unsigned() % 0x1000)
    }

    /// The number as 64 bits.
    pub fn extended(self) -> u64
        ensures { result ≡ sign_extended 12 self }
    {
        let bits = u64::from(self.get());
        if bits < 0x800 {
            bits
        } else {
            bits + 0xffff_ffff_ffff_f000
        }
    }
}

/// The distance of a branch (format B): its bits 12 to 1, which stand for a number with sign. Bit 0 of a
/// distance is 0.
#[derive(Clone, Copy, Debug, PartialEq, Eq)]
pub struct BranchOffset {
    bits: u16,
}

impl Model for BranchOffset {
    ghost use Rattle.std.specs.Prelude.{ℕ, ◌<◌, ◌^◌};

    ghost Value = { ℕ };

    ghost view = { λ field. field.bits };

    ghost invariant = { λ field. field.bits < 2 ^ 12 };

    ghost inverse = { λ bits. record { bits = bits } };
}

impl BranchOffset {
    /// The field of these bits.
    pub fn new(bits: u16) -> BranchOffset
        requires { bits < 2 ^ 12 }
        ensures { result ≡ bits }
    {
        BranchOffset { bits }
    }

    /// Bits 12 to 1 of the distance.
    pub fn get(self) -> u16
        ensures value { result ≡ self }
        ensures in_range { result < 2 ^ 12 }
    {
        self.bits
    }

    /// The field of an even distance from -4096 to 4094 bytes.
    pub fn from_distance(distance: i16) -> BranchOffset
        requires low { negsuc 4095 ≤ℤ distance }
        requires high { distance ≤ℤ pos 4094 }
        requires even { int_rem distance (pos 2) ≡ pos 0 }
        ensures { sign_extended 13 (2 * result) ≡ cast_unsigned w64 distance }
    {
        BranchOffset::new(distance.cast_unsigned() % 0x2000 / 2)
    }

    /// The distance in bytes as 64 bits.
    pub fn distance(self) -> u64
        ensures { result ≡ sign_extended 13 (2 * self) }
    {
        let bits = 2 * u64::from(self.get());
        if bits < 0x1000 {
            bits
        } else {
            bits + 0xffff_ffff_ffff_e000
        }
    }
}

/// An immediate of format U: bits 31 to 12 of a number of 32 bits with sign, whose other bits are 0.
#[derive(Clone, Copy, Debug, PartialEq, Eq)]
pub struct Immediate20 {
    bits: u32,
}

impl Model for Immediate20 {
    ghost use Rattle.std.specs.Prelude.{ℕ, ◌<◌, ◌^◌};

    ghost Value = { ℕ };

    ghost view = { λ field. field.bits };

    ghost invariant = { λ field. field.bits < 2 ^ 20 };

    ghost inverse = { λ bits. record { bits = bits } };
}

impl Immediate20 {
    /// The field of these bits.
    pub fn new(bits: u32) -> Immediate20
        requires { bits < 2 ^ 20 }
        ensures { result ≡ bits }
    {
        Immediate20 { bits }
    }

    /// Bits 31 to 12 of the number.
    pub fn get(self) -> u32
        ensures value { result ≡ self }
        ensures in_range { result < 2 ^ 20 }
    {
        self.bits
    }

    /// The number as 64 bits.
    pub fn extended(self) -> u64
        ensures { result ≡ sign_extended 32 (2 ^ 12 * self) }
    {
        let bits = 0x1000 * u64::from(self.get());
        if bits < 0x8000_0000 {
            bits
        } else {
            bits + 0xffff_ffff_0000_0000
        }
    }
}

/// The distance of a jump (format J): its bits 20 to 1, which stand for a number with sign. Bit 0 of a
/// distance is 0.
#[derive(Clone, Copy, Debug, PartialEq, Eq)]
pub struct JumpOffset {
    bits: u32,
}

impl Model for JumpOffset {
    ghost use Rattle.std.specs.Prelude.{ℕ, ◌<◌, ◌^◌};

    ghost Value = { ℕ };

    ghost view = { λ field. field.bits };

    ghost invariant = { λ field. field.bits < 2 ^ 20 };

    ghost inverse = { λ bits. record { bits = bits } };
}

impl JumpOffset {
    /// The field of these bits.
    pub fn new(bits: u32) -> JumpOffset
        requires { bits < 2 ^ 20 }
        ensures { result ≡ bits }
    {
        JumpOffset { bits }
    }

    /// Bits 20 to 1 of the distance.
    pub fn get(self) -> u32
        ensures value { result ≡ self }
        ensures in_range { result < 2 ^ 20 }
    {
        self.bits
    }

    /// The field of an even distance from -1048576 to 1048574 bytes.
    pub fn from_distance(distance: i32) -> JumpOffset
        requires low { negsuc 1048575 ≤ℤ distance }
        requires high { distance ≤ℤ pos 1048574 }
        requires even { int_rem distance (pos 2) ≡ pos 0 }
        ensures { sign_extended 21 (2 * result) ≡ cast_unsigned w64 distance }
    {
        JumpOffset::new(distance.cast_unsigned() % 0x20_0000 / 2)
    }

    /// The distance in bytes as 64 bits.
    pub fn distance(self) -> u64
        ensures { result ≡ sign_extended 21 (2 * self) }
    {
        let bits = 2 * u64::from(self.get());
        if bits < 0x10_0000 {
            bits
        } else {
            bits + 0xffff_ffff_ffe0_0000
        }
    }
}
