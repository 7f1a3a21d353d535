// Call frame instructions (DWARF 5, 6.4.2).
ghost use Rattle.std.specs.Prelude.{◌≡◌, ◌*◌};
ghost use Rattle.frame_read.specs.Fits.{Fits};

use table_forms::Rule;

/// What a CIE says of instructions: the factors, and the encoding of locations.
#[derive(Clone, Copy, Drop)]
pub struct Coding {
    pub code_factor: u64,
    pub data_factor: i64,
    pub encoding: u8,
}

/// An instruction with its factors applied.
#[derive(Clone, Copy, Drop)]
pub enum Instruction {
    Nop,
    GoTo(u64),
    Advance(u128),
    SetCfa(u8, i64),
    SetCfaRegister(u8),
    SetCfaOffset(i64),
    SetRule(u8, Rule),
    Restore(u8),
    RememberState,
    RestoreState,
}

impl Coding {
    /// The location moves by so many of the CIE's units of code.
    pub fn advance(self, count: u32) -> Instruction
        ensures advance { result ≡ Instruction.Advance (count * self.code_factor) }
        ensures fits { Fits result }
    {
        Instruction::Advance(count as u128 * self.code_factor as u128)
    }
}
