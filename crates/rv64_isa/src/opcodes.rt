// The instructions of one opcode, by funct3, funct6 or funct7.
ghost use Rattle.std.specs.Prelude.{◌≡◌, ◌+◌, ◌*◌, ◌<◌};
ghost use Rattle.rv64_isa.specs.Decoding.{branches, immediates, loads, made, registers, registers_w, shifts, shifts_w, stores};

use crate::immediates::{BranchOffset, Immediate12};
use crate::instr::Instr;
use crate::registers::{Register, Shift5, Shift6};

pub(crate) fn branch(
    funct3: u32,
    rs1: Register,
    rs2: Register,
    offset: BranchOffset,
) -> Option<Instr>
    ensures { result ≡ made branches funct3 rs1 rs2 offset }
{
    match funct3 {
        0 => Some(Instr::Beq(rs1, rs2, offset)),
        1 => Some(Instr::Bne(rs1, rs2, offset)),
        4 => Some(Instr::Blt(rs1, rs2, offset)),
        5 => Some(Instr::Bge(rs1, rs2, offset)),
        6 => Some(Instr::Bltu(rs1, rs2, offset)),
        7 => Some(Instr::Bgeu(rs1, rs2, offset)),
        _ => None,
    }
}

pub(crate) fn load(funct3: u32, rd: Register, rs1: Register, imm: Immediate12) -> Option<Instr>
    ensures { result ≡ made loads funct3 rd rs1 imm }
{
    match funct3 {
        0 => Some(Instr::Lb(rd, rs1, imm)),
        1 => Some(Instr::Lh(rd, rs1, imm)),
        2 => Some(Instr::Lw(rd, rs1, imm)),
        3 => Some(Instr::Ld(rd, rs1, imm)),
        4 => Some(Instr::Lbu(rd, rs1, imm)),
        5 => Some(Instr::Lhu(rd, rs1, imm)),
        6 => Some(Instr::Lwu(rd, rs1, imm)),
        _ => None,
    }
}

pub(crate) fn store(funct3: u32, rs1: Register, rs2: Register, imm: Immediate12) -> Option<Instr>
    ensures { result ≡ made stores funct3 rs1 rs2 imm }
{
    match funct3 {
        0 => Some(Instr::Sb(rs1, rs2, imm)),
        1 => Some(Instr::Sh(rs1, rs2, imm)),
        2 => Some(Instr::Sw(rs1, rs2, imm)),
        3 => Some(Instr::Sd(rs1, rs2, imm)),
        _ => None,
    }
}

pub(crate) fn immediate(funct3: u32, rd: Register, rs1: Register, imm: Immediate12) -> Option<Instr>
    ensures { result ≡ made immediates funct3 rd rs1 imm }
{
    match funct3 {
        0 => Some(Instr::Addi(rd, rs1, imm)),
        2 => Some(Instr::Slti(rd, rs1, imm)),
        3 => Some(Instr::Sltiu(rd, rs1, imm)),
        4 => Some(Instr::Xori(rd, rs1, imm)),
        6 => Some(Instr::Ori(rd, rs1, imm)),
        7 => Some(Instr::Andi(rd, rs1, imm)),
        _ => None,
    }
}

pub(crate) fn shift(key: u32, rd: Register, rs1: Register, shamt: Shift6) -> Option<Instr>
    ensures { result ≡ made shifts key rd rs1 shamt }
{
    match key {
        1 => Some(Instr::Slli(rd, rs1, shamt)),
        5 => Some(Instr::Srli(rd, rs1, shamt)),
        0x85 => Some(Instr::Srai(rd, rs1, shamt)),
        _ => None,
    }
}

pub(crate) fn register(key: u32, rd: Register, rs1: Register, rs2: Register) -> Option<Instr>
    ensures { result ≡ made registers key rd rs1 rs2 }
{
    match key {
        0 => Some(Instr::Add(rd, rs1, rs2)),
        0x100 => Some(Instr::Sub(rd, rs1, rs2)),
        1 => Some(Instr::Sll(rd, rs1, rs2)),
        2 => Some(Instr::Slt(rd, rs1, rs2)),
        3 => Some(Instr::Sltu(rd, rs1, rs2)),
        4 => Some(Instr::Xor(rd, rs1, rs2)),
        5 => Some(Instr::Srl(rd, rs1, rs2)),
        0x105 => Some(Instr::Sra(rd, rs1, rs2)),
        6 => Some(Instr::Or(rd, rs1, rs2)),
        7 => Some(Instr::And(rd, rs1, rs2)),
        8 => Some(Instr::Mul(rd, rs1, rs2)),
        9 => Some(Instr::Mulh(rd, rs1, rs2)),
        0xa => Some(Instr::Mulhsu(rd, rs1, rs2)),
        0xb => Some(Instr::Mulhu(rd, rs1, rs2)),
        0xc => Some(Instr::Div(rd, rs1, rs2)),
        0xd => Some(Instr::Divu(rd, rs1, rs2)),
        0xe => Some(Instr::Rem(rd, rs1, rs2)),
        0xf => Some(Instr::Remu(rd, rs1, rs2)),
        _ => None,
    }
}

pub(crate) fn shift_w(key: u32, rd: Register, rs1: Register, shamt: Shift5) -> Option<Instr>
    ensures { result ≡ made shifts_w key rd rs1 shamt }
{
    match key {
        1 => Some(Instr::Slliw(rd, rs1, shamt)),
        5 => Some(Instr::Srliw(rd, rs1, shamt)),
        0x105 => Some(Instr::Sraiw(rd, rs1, shamt)),
        _ => None,
    }
}

pub(crate) fn register_w(key: u32, rd: Register, rs1: Register, rs2: Register) -> Option<Instr>
    ensures { result ≡ made registers_w key rd rs1 rs2 }
{
    match key {
        0 => Some(Instr::Addw(rd, rs1, rs2)),
        0x100 => Some(Instr::Subw(rd, rs1, rs2)),
        1 => Some(Instr::Sllw(rd, rs1, rs2)),
        5 => Some(Instr::Srlw(rd, rs1, rs2)),
        0x105 => Some(Instr::Sraw(rd, rs1, rs2)),
        8 => Some(Instr::Mulw(rd, rs1, rs2)),
        0xc => Some(Instr::Divw(rd, rs1, rs2)),
        0xd => Some(Instr::Divuw(rd, rs1, rs2)),
        0xe => Some(Instr::Remw(rd, rs1, rs2)),
        0xf => Some(Instr::Remuw(rd, rs1, rs2)),
        _ => None,
    }
}
