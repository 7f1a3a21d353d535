// What functions become whose variables live in registers, beside assembly written by hand; GNU as 2.38 made its words (-march=rv64im).
use crate::lowered::linear;
use eh_bytes::{Emitted, FrameChange, FrameMove};
use rv64_emit::emit;
use std::alloc::Global;
use std::test::Fail;

// A source, with the words and moves of its first function.
#[derive(Drop)]
struct Row {
    source: &'static str,
    words: &'static [u32],
    moves: &'static [FrameMove],
}

// a lives in s1, b in s2.
static TWO: [u32; 22] = [
    0xfd01_0113, // addi sp, sp, -48
    0x0011_3423, // sd ra, 8(sp)
    0x7000_12b7, // lui t0, 0x70001
    0x0051_7663, // bgeu sp, t0, enough
    0x0110_0893, // addi a7, zero, 17
    0x0000_0073, // ecall
    0x0281_2283, // enough: lw t0, 40(sp)
    0x0291_3423, // sd s1, 40(sp)
    0x0002_8493, // addi s1, t0, 0
    0x0321_3023, // sd s2, 32(sp)
    0x0014_891b, // addiw s2, s1, 1
    0x0009_0513, // addi a0, s2, 0
    0x0010_0893, // addi a7, zero, 1
    0x0000_0073, // ecall
    0x0121_2c23, // sw s2, 24(sp)
    0x0040_006f, // jal zero, back
    0x0181_2503, // back: lw a0, 24(sp)
    0x0281_3483, // ld s1, 40(sp)
    0x0201_3903, // ld s2, 32(sp)
    0x0081_3083, // ld ra, 8(sp)
    0x0301_0113, // addi sp, sp, 48
    0x0000_8067, // jalr zero, 0(ra)
];

static TWO_MOVES: [FrameMove; 4] = [
    FrameMove {
        location: 4,
        change: FrameChange::Cfa(48),
    },
    FrameMove {
        location: 8,
        change: FrameChange::Saved(1, -40),
    },
    FrameMove {
        location: 32,
        change: FrameChange::Saved(9, -8),
    },
    FrameMove {
        location: 40,
        change: FrameChange::Saved(18, -16),
    },
];

// A leaf, which has no stack test; a to k live in s1 to s10, and l, the eleventh, in memory.
static TEN: [u32; 41] = [
    0xf801_0113, // addi sp, sp, -128
    0x0011_3423, // sd ra, 8(sp)
    0x0781_2283, // lw t0, 120(sp)
    0x0691_3c23, // sd s1, 120(sp)
    0x0002_8493, // addi s1, t0, 0
    0x0721_3823, // sd s2, 112(sp)
    0x0731_3423, // sd s3, 104(sp)
    0x0741_3023, // sd s4, 96(sp)
    0x0551_3c23, // sd s5, 88(sp)
    0x0561_3823, // sd s6, 80(sp)
    0x0571_3423, // sd s7, 72(sp)
    0x0581_3023, // sd s8, 64(sp)
    0x0391_3c23, // sd s9, 56(sp)
    0x03a1_3823, // sd s10, 48(sp)
    0x0004_8913, // addi s2, s1, 0
    0x0009_0993, // addi s3, s2, 0
    0x0009_8a13, // addi s4, s3, 0
    0x000a_0a93, // addi s5, s4, 0
    0x000a_8b13, // addi s6, s5, 0
    0x000b_0b93, // addi s7, s6, 0
    0x000b_8c13, // addi s8, s7, 0
    0x000c_0c93, // addi s9, s8, 0
    0x000c_8d13, // addi s10, s9, 0
    0x03a1_2423, // sw s10, 40(sp)
    0x0281_2503, // lw a0, 40(sp)
    0x02a1_2023, // sw a0, 32(sp)
    0x0040_006f, // jal zero, end
    0x0201_2503, // end: lw a0, 32(sp)
    0x0781_3483, // ld s1, 120(sp)
    0x0701_3903, // ld s2, 112(sp)
    0x0681_3983, // ld s3, 104(sp)
    0x0601_3a03, // ld s4, 96(sp)
    0x0581_3a83, // ld s5, 88(sp)
    0x0501_3b03, // ld s6, 80(sp)
    0x0481_3b83, // ld s7, 72(sp)
    0x0401_3c03, // ld s8, 64(sp)
    0x0381_3c83, // ld s9, 56(sp)
    0x0301_3d03, // ld s10, 48(sp)
    0x0081_3083, // ld ra, 8(sp)
    0x0801_0113, // addi sp, sp, 128
    0x0000_8067, // jalr zero, 0(ra)
];

static TEN_MOVES: [FrameMove; 12] = [
    FrameMove {
        location: 4,
        change: FrameChange::Cfa(128),
    },
    FrameMove {
        location: 8,
        change: FrameChange::Saved(1, -120),
    },
    FrameMove {
        location: 16,
        change: FrameChange::Saved(9, -8),
    },
    FrameMove {
        location: 24,
        change: FrameChange::Saved(18, -16),
    },
    FrameMove {
        location: 28,
        change: FrameChange::Saved(19, -24),
    },
    FrameMove {
        location: 32,
        change: FrameChange::Saved(20, -32),
    },
    FrameMove {
        location: 36,
        change: FrameChange::Saved(21, -40),
    },
    FrameMove {
        location: 40,
        change: FrameChange::Saved(22, -48),
    },
    FrameMove {
        location: 44,
        change: FrameChange::Saved(23, -56),
    },
    FrameMove {
        location: 48,
        change: FrameChange::Saved(24, -64),
    },
    FrameMove {
        location: 52,
        change: FrameChange::Saved(25, -72),
    },
    FrameMove {
        location: 56,
        change: FrameChange::Saved(26, -80),
    },
];

fn rows() -> [Row; 2] {
    [
        Row {
            source: "int g(int a) { int b = a + 1; write_int(b); return b; } int main() { return g(2); }",
            words: TWO.as_slice(),
            moves: TWO_MOVES.as_slice(),
        },
        Row {
            source: "int g(int a) { int b = a; int c = b; int d = c; int e = d; int f = e; int h = f; int i = h; int j = i; int k = j; int l = k; return l; } int main() { return g(2); }",
            words: TEN.as_slice(),
            moves: TEN_MOVES.as_slice(),
        },
    ]
}

// The first function stands behind the jump to main.
fn is_expected(found: &Emitted, row: &Row) -> bool {
    let Some(function) = found.functions.as_slice().first() else {
        return false;
    };
    let words = found.code.as_slice().get(2..2 + row.words.len());
    words == Some(row.words)
        && function.words as usize == row.words.len()
        && function.moves.as_slice() == row.moves
}

fn is_emitted(alloc: Global, row: &Row) -> Result<bool, Fail> {
    match linear(alloc, row.source)? {
        None => Ok(false),
        Some(unit) => Ok(is_expected(&emit(alloc, &unit)?, row)),
    }
}

#[test]
fn variables_live_in_registers(rt: HostRuntime) -> Result<(), Fail> {
    let alloc = rt.alloc();
    for row in &rows() {
        assert!(rt; is_emitted(alloc, row)?);
    }
    Ok(())
}
