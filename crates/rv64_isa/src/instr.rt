// The instructions of RV64IM.
use crate::immediates::{BranchOffset, Immediate12, Immediate20, JumpOffset};
use crate::registers::{Register, Shift5, Shift6};

/// An instruction of RV64I or the M extension (RISC-V unprivileged ISA, volume I, "RV32/64G
/// Instruction Set Listings"). Its fields are rd, rs1 and rs2, as far as it has them, and then the
/// immediate, the distance or the shift amount.
#[derive(Clone, Copy)]
pub enum Instr {
    // RV64I: upper immediates and jumps.
    Lui(Register, Immediate20),
    Auipc(Register, Immediate20),
    Jal(Register, JumpOffset),
    Jalr(Register, Register, Immediate12),
    // Branches.
    Beq(Register, Register, BranchOffset),
    Bne(Register, Register, BranchOffset),
    Blt(Register, Register, BranchOffset),
    Bge(Register, Register, BranchOffset),
    Bltu(Register, Register, BranchOffset),
    Bgeu(Register, Register, BranchOffset),
    // Loads.
    Lb(Register, Register, Immediate12),
    Lh(Register, Register, Immediate12),
    Lw(Register, Register, Immediate12),
    Ld(Register, Register, Immediate12),
    Lbu(Register, Register, Immediate12),
    Lhu(Register, Register, Immediate12),
    Lwu(Register, Register, Immediate12),
    // Stores.
    Sb(Register, Register, Immediate12),
    Sh(Register, Register, Immediate12),
    Sw(Register, Register, Immediate12),
    Sd(Register, Register, Immediate12),
    // Operations on a register and an immediate.
    Addi(Register, Register, Immediate12),
    Slti(Register, Register, Immediate12),
    Sltiu(Register, Register, Immediate12),
    Xori(Register, Register, Immediate12),
    Ori(Register, Register, Immediate12),
    Andi(Register, Register, Immediate12),
    Slli(Register, Register, Shift6),
    Srli(Register, Register, Shift6),
    Srai(Register, Register, Shift6),
    // Operations on two registers.
    Add(Register, Register, Register),
    Sub(Register, Register, Register),
    Sll(Register, Register, Register),
    Slt(Register, Register, Register),
    Sltu(Register, Register, Register),
    Xor(Register, Register, Register),
    Srl(Register, Register, Register),
    Sra(Register, Register, Register),
    Or(Register, Register, Register),
    And(Register, Register, Register),
    // Operations on 32 bits.
    Addiw(Register, Register, Immediate12),
    Slliw(Register, Register, Shift5),
    Srliw(Register, Register, Shift5),
    Sraiw(Register, Register, Shift5),
    Addw(Register, Register, Register),
    Subw(Register, Register, Register),
    Sllw(Register, Register, Register),
    Srlw(Register, Register, Register),
    Sraw(Register, Register, Register),
    // Memory ordering and the environment.
    /// Its immediate has the fields fm, pred and succ. None of its fields has an effect.
    Fence(Register, Register, Immediate12),
    Ecall,
    Ebreak,
    // M extension: multiplication and division.
    Mul(Register, Register, Register),
    Mulh(Register, Register, Register),
    Mulhsu(Register, Register, Register),
    Mulhu(Register, Register, Register),
    Div(Register, Register, Register),
    Divu(Register, Register, Register),
    Rem(Register, Register, Register),
    Remu(Register, Register, Register),
    Mulw(Register, Register, Register),
    Divw(Register, Register, Register),
    Divuw(Register, Register, Register),
    Remw(Register, Register, Register),
    Remuw(Register, Register, Register),
}
