// The words of lines of assembly.
ghost use Rattle.std.specs.Prelude.{◌≡◌, ◌+◌, ◌++◌, ◌/◌, ◌%◌, ◌^◌, map, OnOk};
ghost use Rattle.machine_forms.specs.Immediate.{immediate};
ghost use Rattle.rv64_isa.specs.Listing.{word_of};
ghost use Rattle.rt_stubs.specs.Listing.{number_of, instruction_of, words_of};

use crate::NoMemory;
use crate::line::{Line, Name};
use rv64_isa::{BranchOffset, Immediate12, Immediate20, Instr, JumpOffset, Register, encode};

fn register(name: Name) -> Register
    ensures { result ≡ number_of name }
{
    Register::new(match name {
        Name::Zero => 0,
        Name::Ra => 1,
        Name::Sp => 2,
        Name::A0 => 10,
        Name::A1 => 11,
        Name::A2 => 12,
        Name::A7 => 17,
    })
}

fn immediate(number: i16) -> Immediate12
    ensures { result ≡ immediate number }
{
    Immediate12::new(number.cast_unsigned() % 0x1000)
}

fn branch(bytes: u16) -> BranchOffset
    ensures { result ≡ bytes / 2 % 2 ^ 12 }
{
    BranchOffset::new(bytes / 2 % 0x1000)
}

fn instruction(line: Line) -> Instr
    ensures { result ≡ instruction_of line }
{
    match line {
        Line::Addi(to, from, n) => Instr::Addi(register(to), register(from), immediate(n)),
        Line::Auipc(to, n) => Instr::Auipc(register(to), Immediate20::new(n % 0x10_0000)),
        Line::Beq(x, y, bytes) => Instr::Beq(register(x), register(y), branch(bytes)),
        Line::Bne(x, y, bytes) => Instr::Bne(register(x), register(y), branch(bytes)),
        Line::Ecall => Instr::Ecall,
        Line::Jal(to, bytes) => Instr::Jal(register(to), JumpOffset::new(u32::from(bytes / 2))),
        Line::Jalr(to, n, from) => Instr::Jalr(register(to), register(from), immediate(n)),
        Line::Ld(to, n, from) => Instr::Ld(register(to), register(from), immediate(n)),
        Line::Lw(to, n, from) => Instr::Lw(register(to), register(from), immediate(n)),
        Line::Sd(value, n, to) => Instr::Sd(register(to), register(value), immediate(n)),
        Line::Subw(to, x, y) => Instr::Subw(register(to), register(x), register(y)),
    }
}

fn word(line: Line) -> u32
    ensures { result ≡ word_of (instruction_of line) }
{
    encode(instruction(line))
}

/// Puts the words of lines behind others.
pub fn put_words(words: &mut Vec<u32>, code: &[Line]) -> Result<(), NoMemory>
    ensures { OnOk result (words.new.items ≡ words.old.items ++ words_of code.now) }
{
    for line in code {
        words.push(word(*line))?;
    }
    Ok(())
}
