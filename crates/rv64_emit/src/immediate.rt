// Numbers with sign as fields of instructions (RISC-V unprivileged ISA, volume I, "Immediate Encoding Variants").
ghost use Rattle.std.specs.Prelude.{◌≡◌};
ghost use Rattle.machine_forms.specs.Immediate as rules;

use rv64_isa::{BranchOffset, Immediate12, Immediate20, JumpOffset};

/// The lowest 12 bits of a number.
pub fn immediate(value: i64) -> Immediate12
    ensures { result ≡ rules.immediate value }
{
    Immediate12::new((value.cast_unsigned() % 0x1000) as u16)
}

/// The upper part of a number of 32 bits, rounded, since the lower part has a sign.
pub fn upper(value: i64) -> Immediate20
    ensures { result ≡ rules.upper value }
{
    let bits = value.cast_unsigned() % 0x1_0000_0000;
    Immediate20::new(((bits + 0x800) / 0x1000 % 0x10_0000) as u32)
}

/// The field of a jump over so many words.
pub fn jump_field(words: i64) -> JumpOffset
    ensures { result ≡ rules.jump_field words }
{
    JumpOffset::new((words.cast_unsigned() % 0x8_0000 * 2) as u32)
}

/// Whether a number is its lower part alone.
pub fn is_small(value: i64) -> bool
    ensures { result ≡ rules.is_small value }
{
    (-0x800..0x800).contains(&value)
}

/// The distance of a branch over the word behind it.
pub fn over_one() -> BranchOffset
    ensures { result ≡ 4 }
{
    BranchOffset::new(4)
}
