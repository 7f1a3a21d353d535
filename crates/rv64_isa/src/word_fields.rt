// The fields of a word.
ghost use Rattle.std.specs.Prelude.{◌≡◌, ◌<◌};
ghost use Rattle.rv64_isa.specs.Format.{fields_of};

use crate::immediates::{BranchOffset, Immediate12, Immediate20, JumpOffset};
use crate::registers::{Register, Shift5, Shift6};

pub(crate) fn opcode(word: u32) -> u32
    ensures { result ≡ (fields_of word).opcode }
{
    word % 0x80
}

pub(crate) fn funct3(word: u32) -> u32
    ensures value { result ≡ (fields_of word).funct3 }
    ensures in_range { result < 8 }
{
    word / 0x1000 % 8
}

pub(crate) fn funct6(word: u32) -> u32
    ensures value { result ≡ (fields_of word).funct6 }
    ensures in_range { result < 64 }
{
    word / 0x400_0000
}

pub(crate) fn funct7(word: u32) -> u32
    ensures value { result ≡ (fields_of word).funct7 }
    ensures in_range { result < 128 }
{
    word / 0x200_0000
}

pub(crate) fn rd(word: u32) -> Register
    ensures { result ≡ (fields_of word).rd }
{
    Register::new((word / 0x80 % 0x20) as u8)
}

pub(crate) fn rs1(word: u32) -> Register
    ensures { result ≡ (fields_of word).rs1 }
{
    Register::new((word / 0x8000 % 0x20) as u8)
}

pub(crate) fn rs2(word: u32) -> Register
    ensures { result ≡ (fields_of word).rs2 }
{
    Register::new((word / 0x10_0000 % 0x20) as u8)
}

pub(crate) fn shamt5(word: u32) -> Shift5
    ensures { result ≡ (fields_of word).rs2 }
{
    Shift5::new((word / 0x10_0000 % 0x20) as u8)
}

pub(crate) fn shamt6(word: u32) -> Shift6
    ensures { result ≡ (fields_of word).shamt }
{
    Shift6::new((word / 0x10_0000 % 0x40) as u8)
}

pub(crate) fn imm_i(word: u32) -> Immediate12
    ensures { result ≡ (fields_of word).imm_i }
{
    Immediate12::new((word / 0x10_0000) as u16)
}

pub(crate) fn imm_s(word: u32) -> Immediate12
    ensures { result ≡ (fields_of word).imm_s }
{
    Immediate12::new((word / 0x80 % 0x20 + 0x20 * (word / 0x200_0000)) as u16)
}

pub(crate) fn offset_b(word: u32) -> BranchOffset
    ensures { result ≡ (fields_of word).offset_b }
{
    let low = word / 0x100 % 0x10 + 0x10 * (word / 0x200_0000 % 0x40);
    BranchOffset::new((low + 0x400 * (word / 0x80 % 2) + 0x800 * (word / 0x8000_0000)) as u16)
}

pub(crate) fn imm_u(word: u32) -> Immediate20
    ensures { result ≡ (fields_of word).imm_u }
{
    Immediate20::new(word / 0x1000)
}

pub(crate) fn offset_j(word: u32) -> JumpOffset
    ensures { result ≡ (fields_of word).offset_j }
{
    let low = word / 0x20_0000 % 0x400 + 0x400 * (word / 0x10_0000 % 2);
    JumpOffset::new(low + 0x800 * (word / 0x1000 % 0x100) + 0x8_0000 * (word / 0x8000_0000))
}
