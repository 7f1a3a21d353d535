// Lines of assembly.

/// The registers that the runtime's own functions use, by their names in the calling convention.
#[derive(Clone, Copy)]
pub enum Name {
    Zero,
    Ra,
    Sp,
    A0,
    A1,
    A2,
    A7,
}

/// An instruction, with its operands in the assembler's order: what is written first, then what is
/// read. Loads and stores have an offset and a base. Distances are in bytes, from the instruction
/// itself; those of branches and jumps lead forward.
#[derive(Clone, Copy)]
pub enum Line {
    Addi(Name, Name, i16),
    Auipc(Name, u32),
    Beq(Name, Name, u16),
    Bne(Name, Name, u16),
    Ecall,
    Jal(Name, u16),
    /// The register that gets the address behind it, then offset and base.
    Jalr(Name, i16, Name),
    Ld(Name, i16, Name),
    Lw(Name, i16, Name),
    /// The register that is stored, then offset and base.
    Sd(Name, i16, Name),
    Subw(Name, Name, Name),
}
