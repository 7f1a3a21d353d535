// Operations of eight words each.
use rv64_isa::{Immediate12, Immediate20, Instr, JumpOffset, Register, encode};
use std::alloc::AllocError;

/// The selector of the first list, as an immediate.
pub const LIST: u16 = 0xfff;

/// The bytes of an operation, and of the place of a function.
pub const SIZE: u64 = 32;

pub const ROOM: u64 = 0x400;

pub const START: u64 = 0x1_0000;

const RA: u8 = 1;

const SP: u8 = 2;

const T0: u8 = 5;

const A0: u8 = 10;

const A1: u8 = 11;

const A2: u8 = 12;

const A7: u8 = 17;

#[derive(Clone, Copy)]
pub enum Op {
    /// Takes a frame of 16 bytes, and saves x1 there.
    Enter,
    /// Gives the frame back, and returns.
    Return,
    /// Calls the function of a number.
    Call(u64),
    /// Makes an exception object with an int, for a type record so far behind 0x14000.
    Make(u16, u16),
    /// A runtime call, with the registers as they are, or with a number in a0.
    Runtime(u16),
    With(u16, u16),
    /// Prints the int in the object at a0.
    Show,
    /// Leaves a handler, and gives back the object that the call gives.
    Leave,
    /// Keeps a0 in the frame, and loads it from there.
    Keep,
    Back,
    /// Keeps a1 in place of x1, for which the outermost function has no use.
    KeepTable,
    /// Prints what the list of a selector, in the table that is kept, says of the object at a0.
    Check(u16),
    /// Sets the stack pointer 16 bytes below a page.
    Spoil(u32),
}

fn x(number: u8) -> Register {
    Register::new(number % 32)
}

fn imm(bits: u16) -> Immediate12 {
    Immediate12::new(bits % 4096)
}

fn addi(rd: u8, rs: u8, bits: u16) -> Instr {
    Instr::Addi(x(rd), x(rs), imm(bits))
}

fn set(rd: u8, bits: u16) -> Instr {
    addi(rd, 0, bits)
}

// A jump from an address to the first word of a function.
fn jump(function: u64, here: u64) -> Instr {
    let target = function.wrapping_mul(ROOM).wrapping_add(START);
    let distance = target.wrapping_sub(here) / 2 % 0x10_0000;
    Instr::Jal(x(RA), JumpOffset::new(distance as u32))
}

fn put(bytes: &mut Vec<u8>, words: &[Instr]) -> Result<(), AllocError> {
    for word in words {
        bytes.extend_from_slice(&encode(*word).to_le_bytes())?;
    }
    Ok(())
}

fn put_runtime(bytes: &mut Vec<u8>, number: u16) -> Result<(), AllocError> {
    put(bytes, &[set(A7, number), Instr::Ecall])
}

fn put_enter(bytes: &mut Vec<u8>) -> Result<(), AllocError> {
    let saves = Instr::Sd(x(SP), x(RA), imm(8));
    put(bytes, &[addi(SP, SP, 0xff0), saves])
}

fn put_return(bytes: &mut Vec<u8>) -> Result<(), AllocError> {
    let loads = Instr::Ld(x(RA), x(SP), imm(8));
    let returns = Instr::Jalr(x(0), x(RA), imm(0));
    put(bytes, &[loads, addi(SP, SP, 16), returns])
}

fn put_make(bytes: &mut Vec<u8>, n: u16, record: u16) -> Result<(), AllocError> {
    put_runtime(bytes, 3)?;
    let stores = Instr::Sw(x(A0), x(T0), imm(0));
    let high = Instr::Lui(x(A1), Immediate20::new(0x14));
    put(bytes, &[set(T0, n), stores])?;
    put(bytes, &[high, addi(A1, A1, record), set(A2, 0)])
}

fn put_with(bytes: &mut Vec<u8>, number: u16, n: u16) -> Result<(), AllocError> {
    put(bytes, &[set(A0, n)])?;
    put_runtime(bytes, number)
}

fn put_show(bytes: &mut Vec<u8>) -> Result<(), AllocError> {
    put(bytes, &[Instr::Lw(x(A0), x(A0), imm(0))])?;
    put_runtime(bytes, 1)
}

fn put_leave(bytes: &mut Vec<u8>) -> Result<(), AllocError> {
    put_runtime(bytes, 7)?;
    put_runtime(bytes, 4)
}

fn put_check(bytes: &mut Vec<u8>, selector: u16) -> Result<(), AllocError> {
    let table = Instr::Ld(x(A0), x(SP), imm(8));
    put(bytes, &[addi(A2, A0, 0), table, set(A1, selector)])?;
    put_runtime(bytes, 19)?;
    put_runtime(bytes, 1)
}

fn put_spoil(bytes: &mut Vec<u8>, page: u32) -> Result<(), AllocError> {
    let high = Instr::Lui(x(SP), Immediate20::new(page % 0x10_0000));
    put(bytes, &[high, addi(SP, SP, 0xff0)])
}

fn put_op(bytes: &mut Vec<u8>, op: Op, here: u64) -> Result<(), AllocError> {
    match op {
        Op::Enter => put_enter(bytes),
        Op::Return => put_return(bytes),
        Op::Call(function) => put(bytes, &[jump(function, here)]),
        Op::Make(n, record) => put_make(bytes, n, record),
        Op::Runtime(number) => put_runtime(bytes, number),
        Op::With(number, n) => put_with(bytes, number, n),
        Op::Show => put_show(bytes),
        Op::Leave => put_leave(bytes),
        Op::Keep => put(bytes, &[Instr::Sd(x(SP), x(A0), imm(0))]),
        Op::KeepTable => put(bytes, &[Instr::Sd(x(SP), x(A1), imm(8))]),
        Op::Back => put(bytes, &[Instr::Ld(x(A0), x(SP), imm(0))]),
        Op::Check(selector) => put_check(bytes, selector),
        Op::Spoil(page) => put_spoil(bytes, page),
    }
}

// Fills an operation of one word or more up, with words that do nothing.
fn fill_up(bytes: &mut Vec<u8>) -> Result<(), AllocError> {
    for _ in 1..8u8 {
        if bytes.len() % 32 != 0 {
            put(bytes, &[addi(0, 0, 0)])?;
        }
    }
    Ok(())
}

/// Puts operations from an address on, each filled up with words that do nothing.
pub fn put_ops(bytes: &mut Vec<u8>, ops: &[Op], address: u64) -> Result<(), AllocError> {
    let mut here = address;
    for op in ops {
        put_op(bytes, *op, here)?;
        fill_up(bytes)?;
        here = here.wrapping_add(SIZE);
    }
    Ok(())
}
