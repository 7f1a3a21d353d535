// The instruction of a word.
ghost use Rattle.std.specs.Prelude.{◌≡◌, IfOk, IfErr};
ghost use Rattle.std.specs.Option.{ok_or};
ghost use Rattle.rv64_isa.specs.Decoding.{decoded};
ghost use Rattle.rv64_isa.specs.Listing.{IsListed};
ghost use Rattle.rv64_isa.specs.declared.instr.Instr.{Instr};

use crate::instr::Instr;
use crate::opcodes;
use crate::word_fields::{
    funct3, funct6, funct7, imm_i, imm_s, imm_u, offset_b, offset_j, opcode, rd, rs1, rs2, shamt5,
    shamt6,
};

/// No instruction has this word.
#[derive(Clone, Copy, Debug, PartialEq, Eq)]
pub struct Illegal(pub u32);

#[tactic(auto, unfolding(crate::specs::Decoding::named))]
fn named(word: u32) -> Option<Instr>
    ensures { result ≡ decoded word }
{
    let funct3 = funct3(word);
    match opcode(word) {
        0x37 => Some(Instr::Lui(rd(word), imm_u(word))),
        0x17 => Some(Instr::Auipc(rd(word), imm_u(word))),
        0x6f => Some(Instr::Jal(rd(word), offset_j(word))),
        0x67 if funct3 == 0 => Some(Instr::Jalr(rd(word), rs1(word), imm_i(word))),
        0x63 => opcodes::branch(funct3, rs1(word), rs2(word), offset_b(word)),
        0x03 => opcodes::load(funct3, rd(word), rs1(word), imm_i(word)),
        0x23 => opcodes::store(funct3, rs1(word), rs2(word), imm_s(word)),
        0x13 if funct3 % 4 == 1 => {
            opcodes::shift(funct3 + 8 * funct6(word), rd(word), rs1(word), shamt6(word))
        }
        0x13 => opcodes::immediate(funct3, rd(word), rs1(word), imm_i(word)),
        0x33 => opcodes::register(funct3 + 8 * funct7(word), rd(word), rs1(word), rs2(word)),
        0x1b if funct3 == 0 => Some(Instr::Addiw(rd(word), rs1(word), imm_i(word))),
        0x1b => opcodes::shift_w(funct3 + 8 * funct7(word), rd(word), rs1(word), shamt5(word)),
        0x3b => opcodes::register_w(funct3 + 8 * funct7(word), rd(word), rs1(word), rs2(word)),
        0x0f if funct3 == 0 => Some(Instr::Fence(rd(word), rs1(word), imm_i(word))),
        0x73 if word == 0x73 => Some(Instr::Ecall),
        0x73 if word == 0x10_0073 => Some(Instr::Ebreak),
        _ => None,
    }
}

/// The instruction of a word.
///
/// ```rust
/// // addi sp, sp, -48
/// let instr = decode(0xfd01_0113)?;
/// assert_eq!(rt; encode(instr), 0xfd01_0113);
/// ```
pub fn decode(word: u32) -> Result<Instr, Illegal>
    ensures decoded { result ≡ ok_or (decoded word) (record { 0 = word }) }
    ensures listed { IfOk result (λ instr. IsListed instr word) }
    ensures illegal { IfErr result (λ _. (instr : Instr) → ¬ IsListed instr word) }
{
    named(word).ok_or(Illegal(word))
}
