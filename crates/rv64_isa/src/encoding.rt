// The word of an instruction.
ghost use Rattle.std.specs.Prelude.{◌≡◌, ◌<◌, Some};
ghost use Rattle.rv64_isa.specs.Decoding.{decoded};
ghost use Rattle.rv64_isa.specs.Format.{B, HasWord, I, J, R, S, Shift, U};
ghost use Rattle.rv64_isa.specs.Listing.{IsListed};

use crate::immediates::{BranchOffset, Immediate12, Immediate20, JumpOffset};
use crate::instr::Instr;
use crate::registers::{Register, Shift5, Shift6};

fn format_r(opcode: u32, funct3: u32, funct7: u32, rd: Register, rs1: Register, rs2: u8) -> u32
    requires opcode_small { opcode < 128 }
    requires funct3_small { funct3 < 8 }
    requires funct7_small { funct7 < 128 }
    requires rs2_small { rs2 < 32 }
    ensures { HasWord (R opcode funct3 funct7 rd rs1 rs2) result }
{
    let (rd, rs1, rs2) = (u32::from(rd.get()), u32::from(rs1.get()), u32::from(rs2));
    opcode + 0x80 * rd + 0x1000 * funct3 + 0x8000 * rs1 + 0x10_0000 * rs2 + 0x200_0000 * funct7
}

fn format_shift(funct3: u32, funct6: u32, rd: Register, rs1: Register, shamt: Shift6) -> u32
    requires funct3_small { funct3 < 8 }
    requires funct6_small { funct6 < 64 }
    ensures { HasWord (Shift 0x13 funct3 funct6 rd rs1 shamt) result }
{
    let (rd, rs1, shamt) = (
        u32::from(rd.get()),
        u32::from(rs1.get()),
        u32::from(shamt.get()),
    );
    0x13 + 0x80 * rd + 0x1000 * funct3 + 0x8000 * rs1 + 0x10_0000 * shamt + 0x400_0000 * funct6
}

fn format_i(opcode: u32, funct3: u32, rd: Register, rs1: Register, imm: Immediate12) -> u32
    requires opcode_small { opcode < 128 }
    requires funct3_small { funct3 < 8 }
    ensures { HasWord (I opcode funct3 rd rs1 imm) result }
{
    let (rd, rs1, imm) = (
        u32::from(rd.get()),
        u32::from(rs1.get()),
        u32::from(imm.get()),
    );
    opcode + 0x80 * rd + 0x1000 * funct3 + 0x8000 * rs1 + 0x10_0000 * imm
}

fn format_s(funct3: u32, rs1: Register, rs2: Register, imm: Immediate12) -> u32
    requires { funct3 < 8 }
    ensures { HasWord (S 0x23 funct3 rs1 rs2 imm) result }
{
    let (rs1, rs2, imm) = (
        u32::from(rs1.get()),
        u32::from(rs2.get()),
        u32::from(imm.get()),
    );
    let registers = 0x8000 * rs1 + 0x10_0000 * rs2;
    0x23 + 0x80 * (imm % 0x20) + 0x1000 * funct3 + registers + 0x200_0000 * (imm / 0x20)
}

fn format_b(funct3: u32, rs1: Register, rs2: Register, offset: BranchOffset) -> u32
    requires { funct3 < 8 }
    ensures { HasWord (B 0x63 funct3 rs1 rs2 offset) result }
{
    let (rs1, rs2, offset) = (
        u32::from(rs1.get()),
        u32::from(rs2.get()),
        u32::from(offset.get()),
    );
    let low = 0x80 * (offset / 0x400 % 2) + 0x100 * (offset % 0x10);
    let registers = 0x8000 * rs1 + 0x10_0000 * rs2;
    let high = 0x200_0000 * (offset / 0x10 % 0x40) + 0x8000_0000 * (offset / 0x800);
    0x63 + low + 0x1000 * funct3 + registers + high
}

fn format_u(opcode: u32, rd: Register, imm: Immediate20) -> u32
    requires { opcode < 128 }
    ensures { HasWord (U opcode rd imm) result }
{
    opcode + 0x80 * u32::from(rd.get()) + 0x1000 * imm.get()
}

fn format_j(rd: Register, offset: JumpOffset) -> u32
    ensures { HasWord (J 0x6f rd offset) result }
{
    let (rd, offset) = (u32::from(rd.get()), offset.get());
    let low = 0x1000 * (offset / 0x800 % 0x100) + 0x10_0000 * (offset / 0x400 % 2);
    let high = 0x20_0000 * (offset % 0x400) + 0x8000_0000 * (offset / 0x8_0000);
    0x6f + 0x80 * rd + low + high
}

fn register(funct3: u32, funct7: u32, rd: Register, rs1: Register, rs2: Register) -> u32
    requires funct3_small { funct3 < 8 }
    requires funct7_small { funct7 < 128 }
    ensures { HasWord (R 0x33 funct3 funct7 rd rs1 rs2) result }
{
    format_r(0x33, funct3, funct7, rd, rs1, rs2.get())
}

fn register_w(funct3: u32, funct7: u32, rd: Register, rs1: Register, rs2: Register) -> u32
    requires funct3_small { funct3 < 8 }
    requires funct7_small { funct7 < 128 }
    ensures { HasWord (R 0x3b funct3 funct7 rd rs1 rs2) result }
{
    format_r(0x3b, funct3, funct7, rd, rs1, rs2.get())
}

fn shift_w(funct3: u32, funct7: u32, rd: Register, rs1: Register, shamt: Shift5) -> u32
    requires funct3_small { funct3 < 8 }
    requires funct7_small { funct7 < 128 }
    ensures { HasWord (R 0x1b funct3 funct7 rd rs1 shamt) result }
{
    format_r(0x1b, funct3, funct7, rd, rs1, shamt.get())
}

// A match of an instruction that gives each its word: those of two registers by funct3 and funct7, the others as they stand.
macro_rules! words {
    (
        $instr:ident:
        register { $($name:ident $funct3:literal $funct7:literal),* $(,)? }
        register_w { $($name_w:ident $funct3_w:literal $funct7_w:literal),* $(,)? }
        $($other:pat => $word:expr),* $(,)?
    ) => {
        match $instr {
            $(Instr::$name(rd, rs1, rs2) => register($funct3, $funct7, rd, rs1, rs2),)*
            $(Instr::$name_w(rd, rs1, rs2) => register_w($funct3_w, $funct7_w, rd, rs1, rs2),)*
            $($other => $word,)*
        }
    };
}

// The word that the listing has for the instruction.
fn word(instr: Instr) -> u32
    ensures { IsListed instr result }
{
    words! { instr:
        register {
            Add 0 0x00, Sub 0 0x20, Sll 1 0x00, Slt 2 0x00, Sltu 3 0x00, Xor 4 0x00, Srl 5 0x00,
            Sra 5 0x20, Or 6 0x00, And 7 0x00, Mul 0 0x01, Mulh 1 0x01, Mulhsu 2 0x01, Mulhu 3 0x01,
            Div 4 0x01, Divu 5 0x01, Rem 6 0x01, Remu 7 0x01,
        }
        register_w {
            Addw 0 0x00, Subw 0 0x20, Sllw 1 0x00, Srlw 5 0x00, Sraw 5 0x20, Mulw 0 0x01,
            Divw 4 0x01, Divuw 5 0x01, Remw 6 0x01, Remuw 7 0x01,
        }
        Instr::Lui(rd, imm) => format_u(0x37, rd, imm),
        Instr::Auipc(rd, imm) => format_u(0x17, rd, imm),
        Instr::Jal(rd, offset) => format_j(rd, offset),
        Instr::Jalr(rd, rs1, imm) => format_i(0x67, 0, rd, rs1, imm),
        Instr::Beq(rs1, rs2, offset) => format_b(0, rs1, rs2, offset),
        Instr::Bne(rs1, rs2, offset) => format_b(1, rs1, rs2, offset),
        Instr::Blt(rs1, rs2, offset) => format_b(4, rs1, rs2, offset),
        Instr::Bge(rs1, rs2, offset) => format_b(5, rs1, rs2, offset),
        Instr::Bltu(rs1, rs2, offset) => format_b(6, rs1, rs2, offset),
        Instr::Bgeu(rs1, rs2, offset) => format_b(7, rs1, rs2, offset),
        Instr::Lb(rd, rs1, imm) => format_i(0x03, 0, rd, rs1, imm),
        Instr::Lh(rd, rs1, imm) => format_i(0x03, 1, rd, rs1, imm),
        Instr::Lw(rd, rs1, imm) => format_i(0x03, 2, rd, rs1, imm),
        Instr::Ld(rd, rs1, imm) => format_i(0x03, 3, rd, rs1, imm),
        Instr::Lbu(rd, rs1, imm) => format_i(0x03, 4, rd, rs1, imm),
        Instr::Lhu(rd, rs1, imm) => format_i(0x03, 5, rd, rs1, imm),
        Instr::Lwu(rd, rs1, imm) => format_i(0x03, 6, rd, rs1, imm),
        Instr::Sb(rs1, rs2, imm) => format_s(0, rs1, rs2, imm),
        Instr::Sh(rs1, rs2, imm) => format_s(1, rs1, rs2, imm),
        Instr::Sw(rs1, rs2, imm) => format_s(2, rs1, rs2, imm),
        Instr::Sd(rs1, rs2, imm) => format_s(3, rs1, rs2, imm),
        Instr::Addi(rd, rs1, imm) => format_i(0x13, 0, rd, rs1, imm),
        Instr::Slti(rd, rs1, imm) => format_i(0x13, 2, rd, rs1, imm),
        Instr::Sltiu(rd, rs1, imm) => format_i(0x13, 3, rd, rs1, imm),
        Instr::Xori(rd, rs1, imm) => format_i(0x13, 4, rd, rs1, imm),
        Instr::Ori(rd, rs1, imm) => format_i(0x13, 6, rd, rs1, imm),
        Instr::Andi(rd, rs1, imm) => format_i(0x13, 7, rd, rs1, imm),
        Instr::Slli(rd, rs1, shamt) => format_shift(1, 0x00, rd, rs1, shamt),
        Instr::Srli(rd, rs1, shamt) => format_shift(5, 0x00, rd, rs1, shamt),
        Instr::Srai(rd, rs1, shamt) => format_shift(5, 0x10, rd, rs1, shamt),
        Instr::Addiw(rd, rs1, imm) => format_i(0x1b, 0, rd, rs1, imm),
        Instr::Slliw(rd, rs1, shamt) => shift_w(1, 0x00, rd, rs1, shamt),
        Instr::Srliw(rd, rs1, shamt) => shift_w(5, 0x00, rd, rs1, shamt),
        Instr::Sraiw(rd, rs1, shamt) => shift_w(5, 0x20, rd, rs1, shamt),
        Instr::Fence(rd, rs1, imm) => format_i(0x0f, 0, rd, rs1, imm),
        Instr::Ecall => 0x73,
        Instr::Ebreak => 0x10_0073,
    }
}

/// The word of an instruction, from which `decode` gives the instruction.
pub fn encode(instr: Instr) -> u32
    ensures listed { IsListed instr result }
    ensures decoded { decoded result ≡ Some instr }
{
    word(instr)
}
