// The words of an assembler, both ways.
use rv64_isa::*;

mod results;
mod words;

use results::RESULTS;
use words::{LISTED, UNLISTED};

fn x(register: Register) -> u32 {
    u32::from(register.get())
}

// The name of an instruction, and the bits of its fields.
fn parts(instr: Instr) -> (&'static str, (u32, u32, u32)) {
    match instr {
        Instr::Lui(rd, imm) => ("lui", (x(rd), imm.get(), 0)),
        Instr::Auipc(rd, imm) => ("auipc", (x(rd), imm.get(), 0)),
        Instr::Jal(rd, offset) => ("jal", (x(rd), offset.get(), 0)),
        Instr::Jalr(rd, rs1, imm) => ("jalr", (x(rd), x(rs1), u32::from(imm.get()))),
        Instr::Beq(rs1, rs2, offset) => ("beq", (x(rs1), x(rs2), u32::from(offset.get()))),
        Instr::Bne(rs1, rs2, offset) => ("bne", (x(rs1), x(rs2), u32::from(offset.get()))),
        Instr::Blt(rs1, rs2, offset) => ("blt", (x(rs1), x(rs2), u32::from(offset.get()))),
        Instr::Bge(rs1, rs2, offset) => ("bge", (x(rs1), x(rs2), u32::from(offset.get()))),
        Instr::Bltu(rs1, rs2, offset) => ("bltu", (x(rs1), x(rs2), u32::from(offset.get()))),
        Instr::Bgeu(rs1, rs2, offset) => ("bgeu", (x(rs1), x(rs2), u32::from(offset.get()))),
        Instr::Lb(rd, rs1, imm) => ("lb", (x(rd), x(rs1), u32::from(imm.get()))),
        Instr::Lh(rd, rs1, imm) => ("lh", (x(rd), x(rs1), u32::from(imm.get()))),
        Instr::Lw(rd, rs1, imm) => ("lw", (x(rd), x(rs1), u32::from(imm.get()))),
        Instr::Ld(rd, rs1, imm) => ("ld", (x(rd), x(rs1), u32::from(imm.get()))),
        Instr::Lbu(rd, rs1, imm) => ("lbu", (x(rd), x(rs1), u32::from(imm.get()))),
        Instr::Lhu(rd, rs1, imm) => ("lhu", (x(rd), x(rs1), u32::from(imm.get()))),
        Instr::Lwu(rd, rs1, imm) => ("lwu", (x(rd), x(rs1), u32::from(imm.get()))),
        Instr::Sb(rs1, rs2, imm) => ("sb", (x(rs1), x(rs2), u32::from(imm.get()))),
        Instr::Sh(rs1, rs2, imm) => ("sh", (x(rs1), x(rs2), u32::from(imm.get()))),
        Instr::Sw(rs1, rs2, imm) => ("sw", (x(rs1), x(rs2), u32::from(imm.get()))),
        Instr::Sd(rs1, rs2, imm) => ("sd", (x(rs1), x(rs2), u32::from(imm.get()))),
        Instr::Addi(rd, rs1, imm) => ("addi", (x(rd), x(rs1), u32::from(imm.get()))),
        Instr::Slti(rd, rs1, imm) => ("slti", (x(rd), x(rs1), u32::from(imm.get()))),
        Instr::Sltiu(rd, rs1, imm) => ("sltiu", (x(rd), x(rs1), u32::from(imm.get()))),
        Instr::Xori(rd, rs1, imm) => ("xori", (x(rd), x(rs1), u32::from(imm.get()))),
        Instr::Ori(rd, rs1, imm) => ("ori", (x(rd), x(rs1), u32::from(imm.get()))),
        Instr::Andi(rd, rs1, imm) => ("andi", (x(rd), x(rs1), u32::from(imm.get()))),
        Instr::Slli(rd, rs1, shamt) => ("slli", (x(rd), x(rs1), u32::from(shamt.get()))),
        Instr::Srli(rd, rs1, shamt) => ("srli", (x(rd), x(rs1), u32::from(shamt.get()))),
        Instr::Srai(rd, rs1, shamt) => ("srai", (x(rd), x(rs1), u32::from(shamt.get()))),
        Instr::Addiw(rd, rs1, imm) => ("addiw", (x(rd), x(rs1), u32::from(imm.get()))),
        Instr::Fence(rd, rs1, imm) => ("fence", (x(rd), x(rs1), u32::from(imm.get()))),
        Instr::Ecall => ("ecall", (0, 0, 0)),
        Instr::Ebreak => ("ebreak", (0, 0, 0)),
        _ => register_parts(instr),
    }
}

fn register_parts(instr: Instr) -> (&'static str, (u32, u32, u32)) {
    match instr {
        Instr::Add(rd, rs1, rs2) => ("add", (x(rd), x(rs1), x(rs2))),
        Instr::Sub(rd, rs1, rs2) => ("sub", (x(rd), x(rs1), x(rs2))),
        Instr::Sll(rd, rs1, rs2) => ("sll", (x(rd), x(rs1), x(rs2))),
        Instr::Slt(rd, rs1, rs2) => ("slt", (x(rd), x(rs1), x(rs2))),
        Instr::Sltu(rd, rs1, rs2) => ("sltu", (x(rd), x(rs1), x(rs2))),
        Instr::Xor(rd, rs1, rs2) => ("xor", (x(rd), x(rs1), x(rs2))),
        Instr::Srl(rd, rs1, rs2) => ("srl", (x(rd), x(rs1), x(rs2))),
        Instr::Sra(rd, rs1, rs2) => ("sra", (x(rd), x(rs1), x(rs2))),
        Instr::Or(rd, rs1, rs2) => ("or", (x(rd), x(rs1), x(rs2))),
        Instr::And(rd, rs1, rs2) => ("and", (x(rd), x(rs1), x(rs2))),
        Instr::Slliw(rd, rs1, shamt) => ("slliw", (x(rd), x(rs1), u32::from(shamt.get()))),
        Instr::Srliw(rd, rs1, shamt) => ("srliw", (x(rd), x(rs1), u32::from(shamt.get()))),
        Instr::Sraiw(rd, rs1, shamt) => ("sraiw", (x(rd), x(rs1), u32::from(shamt.get()))),
        Instr::Addw(rd, rs1, rs2) => ("addw", (x(rd), x(rs1), x(rs2))),
        Instr::Subw(rd, rs1, rs2) => ("subw", (x(rd), x(rs1), x(rs2))),
        Instr::Sllw(rd, rs1, rs2) => ("sllw", (x(rd), x(rs1), x(rs2))),
        Instr::Srlw(rd, rs1, rs2) => ("srlw", (x(rd), x(rs1), x(rs2))),
        Instr::Sraw(rd, rs1, rs2) => ("sraw", (x(rd), x(rs1), x(rs2))),
        Instr::Mul(rd, rs1, rs2) => ("mul", (x(rd), x(rs1), x(rs2))),
        Instr::Mulh(rd, rs1, rs2) => ("mulh", (x(rd), x(rs1), x(rs2))),
        Instr::Mulhsu(rd, rs1, rs2) => ("mulhsu", (x(rd), x(rs1), x(rs2))),
        Instr::Mulhu(rd, rs1, rs2) => ("mulhu", (x(rd), x(rs1), x(rs2))),
        Instr::Div(rd, rs1, rs2) => ("div", (x(rd), x(rs1), x(rs2))),
        Instr::Divu(rd, rs1, rs2) => ("divu", (x(rd), x(rs1), x(rs2))),
        Instr::Rem(rd, rs1, rs2) => ("rem", (x(rd), x(rs1), x(rs2))),
        Instr::Remu(rd, rs1, rs2) => ("remu", (x(rd), x(rs1), x(rs2))),
        Instr::Mulw(rd, rs1, rs2) => ("mulw", (x(rd), x(rs1), x(rs2))),
        Instr::Divw(rd, rs1, rs2) => ("divw", (x(rd), x(rs1), x(rs2))),
        Instr::Divuw(rd, rs1, rs2) => ("divuw", (x(rd), x(rs1), x(rs2))),
        Instr::Remw(rd, rs1, rs2) => ("remw", (x(rd), x(rs1), x(rs2))),
        Instr::Remuw(rd, rs1, rs2) => ("remuw", (x(rd), x(rs1), x(rs2))),
        _ => ("", (0, 0, 0)),
    }
}

// Whether the word is that of an instruction with these parts.
fn has_parts(word: u32, name: &str, (a, b, c): (u32, u32, u32)) -> bool {
    match decode(word) {
        Ok(instr) => {
            let (held, (x, y, z)) = parts(instr);
            held == name && x == a && y == b && z == c
        }
        Err(_) => false,
    }
}

// Whether the word is that of an instruction with this word.
fn is_encoded_again(word: u32) -> bool {
    match decode(word) {
        Ok(instr) => encode(instr) == word,
        Err(_) => false,
    }
}

#[test]
fn words_of_an_assembler_are_listed(rt: HostRuntime) {
    for (word, name, fields) in LISTED.iter() {
        assert!(rt; has_parts(*word, name, *fields), "{name} at {word}");
        assert!(rt; is_encoded_again(*word), "{name} at {word}");
    }
}

// Whether the word is no instruction's, and is told as it is.
fn is_illegal(word: u32) -> bool {
    match decode(word) {
        Ok(_) => false,
        Err(Illegal(told)) => told == word,
    }
}

#[test]
fn words_of_other_extensions_are_illegal(rt: HostRuntime) {
    for word in UNLISTED.iter() {
        assert!(rt; is_illegal(*word), "at {word}");
    }
}

// The operations of two numbers, in the order of the table below.
fn operations(x: u64, y: u64) -> [u64; 28] {
    [
        arithmetic::add(x, y),
        arithmetic::sub(x, y),
        arithmetic::sll(x, y),
        arithmetic::slt(x, y),
        arithmetic::sltu(x, y),
        arithmetic::xor(x, y),
        arithmetic::srl(x, y),
        arithmetic::sra(x, y),
        arithmetic::or(x, y),
        arithmetic::and(x, y),
        arithmetic::addw(x, y),
        arithmetic::subw(x, y),
        arithmetic::sllw(x, y),
        arithmetic::srlw(x, y),
        arithmetic::sraw(x, y),
        arithmetic::mul(x, y),
        arithmetic::mulh(x, y),
        arithmetic::mulhsu(x, y),
        arithmetic::mulhu(x, y),
        arithmetic::div(x, y),
        arithmetic::divu(x, y),
        arithmetic::rem(x, y),
        arithmetic::remu(x, y),
        arithmetic::mulw(x, y),
        arithmetic::divw(x, y),
        arithmetic::divuw(x, y),
        arithmetic::remw(x, y),
        arithmetic::remuw(x, y),
    ]
}

#[test]
fn operations_give_what_the_manual_says(rt: HostRuntime) {
    for (x, y, results) in RESULTS.iter() {
        assert!(rt; operations(*x, *y) == *results, "at {x} and {y}");
    }
}

#[test]
fn fields_are_made_of_numbers(rt: HostRuntime) {
    assert_eq!(rt; Immediate12::from_signed(-2048).get(), 0x800);
    assert_eq!(rt; Immediate12::from_signed(2047).extended(), 2047);
    assert_eq!(rt; BranchOffset::from_distance(-4096).get(), 0x800);
    assert_eq!(rt; BranchOffset::from_distance(-2).distance(), u64::MAX - 1);
    assert_eq!(rt; JumpOffset::from_distance(-1048576).get(), 0x8_0000);
    assert_eq!(rt; JumpOffset::from_distance(2).distance(), 2);
    assert_eq!(rt;
        Immediate20::new(0x8_0000).extended(),
        0xffff_ffff_8000_0000
    );
    assert!(rt; !arithmetic::is_less(1, u64::MAX), "1 is not less than -1");
}
