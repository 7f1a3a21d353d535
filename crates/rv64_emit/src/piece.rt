// Code before its places are known. Each piece becomes one word.
use rv64_isa::{Instr, Register};

/// A function of the unit by its number, or one of the runtime's own.
#[derive(Drop, Clone, Copy)]
pub enum Function {
    Compiled(u32),
    EndCatch,
    CallUnexpected,
}

/// What code reaches outside its function.
#[derive(Drop, Clone, Copy)]
pub enum Target {
    /// The first word of a function.
    Entry(Function),
    /// The record of a type.
    TypeRecord(u32),
    /// So many bytes behind the beginning of a global.
    Global(u32, u32),
}

/// One word to be. Its registers come as in an instruction: what is written, then what is read.
#[derive(Drop, Clone, Copy)]
pub enum Piece {
    Instruction(Instr),
    /// Jumps to a label of the function.
    JumpTo(u32),
    /// Adds the upper part of the distance to the pc.
    UpperPart(Register, Target),
    /// Adds the rest of the distance from the word before.
    AddRest(Register, Target),
    /// Loads the int that far away.
    LoadRest(Register, Target),
    /// Stores the first register's int that far from the second one.
    StoreRest(Register, Register, Target),
    /// Jumps that far from the second register, and puts the return address in the first.
    JumpRest(Register, Register, Target),
}
