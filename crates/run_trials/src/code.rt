// Programs, word by word (RISC-V Unprivileged ISA). The first word stands at 0x10100.

/// The function at 0x10100 calls that at 0x10140, which throws the int 5, and catches it.
pub const THROWS: &[u32] = &[
    0xff010113, // addi sp, sp, -16
    0x03c000ef, // jal ra, 0x3c
    0x00600893, // addi a7, zero, 6
    0x00000073, // ecall (begin_catch)
    0x00052503, // lw a0, 0(a0)
    0x00100893, // addi a7, zero, 1
    0x00000073, // ecall (write_int)
    0x00700893, // addi a7, zero, 7
    0x00000073, // ecall (end_catch)
    0x00400893, // addi a7, zero, 4
    0x00000073, // ecall (free)
    0x00000513, // addi a0, zero, 0
    0x00000893, // addi a7, zero, 0
    0x00000073, // ecall (exit)
    0x00000013, // addi zero, zero, 0
    0x00000013, // addi zero, zero, 0
    0xff010113, // addi sp, sp, -16
    0x00113423, // sd ra, 8(sp)
    0x00300893, // addi a7, zero, 3
    0x00000073, // ecall (allocate)
    0x00500293, // addi t0, zero, 5
    0x00552023, // sw t0, 0(a0)
    0x00000597, // auipc a1, 0
    0x04058593, // addi a1, a1, 64
    0x00000613, // addi a2, zero, 0
    0x00500893, // addi a7, zero, 5
    0x00000073, // ecall (throw)
];

/// Prints the int at 0x10280, and what is one less, down to 1.
pub const COUNTS: &[u32] = &[
    0x00000317, // auipc t1, 0
    0x18030313, // addi t1, t1, 384
    0x00032503, // lw a0, 0(t1)
    0x00100893, // addi a7, zero, 1
    0x00000073, // ecall (write_int)
    0xfff50513, // addi a0, a0, -1
    0x00a32023, // sw a0, 0(t1)
    0xfe0516e3, // bne a0, zero, -20
    0x00700513, // addi a0, zero, 7
    0x00000893, // addi a7, zero, 0
    0x00000073, // ecall (exit)
];

/// Prints the reply of module 0, and the next byte of the input; then its stack is used up.
pub const ASKS: &[u32] = &[
    0x00000513, // addi a0, zero, 0
    0x00900593, // addi a1, zero, 9
    0x00e00893, // addi a7, zero, 14
    0x00000073, // ecall (module)
    0x00100893, // addi a7, zero, 1
    0x00000073, // ecall (write_int)
    0x00200893, // addi a7, zero, 2
    0x00000073, // ecall (read_byte)
    0x00100893, // addi a7, zero, 1
    0x00000073, // ecall (write_int)
    0x01100893, // addi a7, zero, 17
    0x00000073, // ecall (stack)
];

/// Makes a runtime call that there is none of.
pub const LOST: &[u32] = &[
    0x06300893, // addi a7, zero, 99
    0x00000073, // ecall (a call that there is none of)
];

/// Stores a word in a type record.
pub const SPOILS: &[u32] = &[
    0x00000317, // auipc t1, 0
    0x08a32c23, // sw a0, 152(t1)
];

/// A word that is no instruction.
pub const ILLEGAL: &[u32] = &[0];
