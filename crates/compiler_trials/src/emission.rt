// What linear code becomes, beside assembly written by hand.
use crate::emitted_unit::unit;
use eh_bytes::{EmittedFunc, FrameChange, FrameMove, ListSite, LsdaList};
use rv64_emit::emit;
use std::alloc::{AllocError, Global};
use std::test::Fail;

// The words that GNU as 2.38 and ld make (-march=rv64im, without relaxation) of this assembly, where the runtime's own functions have 400
// bytes in front of the first word, end_catch begins 48 bytes behind their beginning, the type's record 24 bytes before it, and the global 28.
static WORDS: [u32; 40] = [
    0x0000_0297, // auipc t0, main
    0x0082_8067, // jalr zero, main(t0)
    0xfd01_0113, // main: addi sp, sp, -48
    0x0011_3423, // sd ra, 8(sp)
    0x7000_12b7, // lui t0, 0x70001
    0x0051_7663, // bgeu sp, t0, enough
    0x0110_0893, // addi a7, zero, 17
    0x0000_0073, // ecall
    0x0281_2283, // enough: lw t0, 40(sp)
    0x0291_3423, // sd s1, 40(sp)
    0x0002_8493, // addi s1, t0, 0
    0x0000_0517, // auipc a0, global
    0xe285_2503, // lw a0, global(a0)
    0x0001_85b7, // lui a1, 24
    0x6a05_859b, // addiw a1, a1, 1696
    0x40b5_04bb, // subw s1, a0, a1
    0x0004_9463, // bne s1, zero, call
    0x0100_006f, // jal zero, back
    0xfe91_3c23, // call: sd s1, -8(sp)
    0x0000_0097, // auipc ra, main
    0xfbc0_80e7, // jalr ra, main(ra)
    0x0004_8513, // back: addi a0, s1, 0
    0x0281_3483, // ld s1, 40(sp)
    0x0081_3083, // ld ra, 8(sp)
    0x0301_0113, // addi sp, sp, 48
    0x0000_8067, // jalr zero, 0(ra)
    0x02a1_3023, // pad: sd a0, 32(sp)
    0x00b1_3c23, // sd a1, 24(sp)
    0x0201_3503, // ld a0, 32(sp)
    0x0060_0893, // addi a7, zero, 6
    0x0000_0073, // ecall
    0x0000_0097, // auipc ra, end_catch
    0xe240_80e7, // jalr ra, end_catch(ra)
    0x0201_3503, // ld a0, 32(sp)
    0x0000_0597, // auipc a1, record
    0xdd05_8593, // addi a1, a1, record
    0x0000_0613, // addi a2, zero, 0
    0x0050_0893, // addi a7, zero, 5
    0x0000_0073, // ecall
    0xfb9f_f06f, // jal zero, back
];

// The sites in bytes: the call's words, from 16 on, and the throw's, from 31 on; the pad is word 24.
fn table(alloc: Global) -> Result<LsdaList, AllocError> {
    Ok(LsdaList {
        sites: vec![in alloc;
            ListSite {
                start: 64,
                length: 12,
                pad: 96,
                chain: Some(0)
            },
            ListSite {
                start: 124,
                length: 24,
                pad: 0,
                chain: None
            },
        ]?,
        chains: vec![in alloc; vec![in alloc; 1]?]?,
        types: vec![in alloc; 0]?,
        lists: vec![in alloc; vec![in alloc; 1]?]?,
    })
}

static MOVES: [FrameMove; 3] = [
    FrameMove {
        location: 4,
        change: FrameChange::Cfa(48),
    },
    FrameMove {
        location: 8,
        change: FrameChange::Saved(1, -40),
    },
    FrameMove {
        location: 32,
        change: FrameChange::Saved(9, -8),
    },
];

// The function begins at the third word.
fn is_expected(alloc: Global, function: &EmittedFunc) -> Result<bool, AllocError> {
    Ok(
        function.name.as_bytes() == b"main".as_slice()
            && function.first == 2
            && function.words == 38
            && function.table == table(alloc)?
            && function.moves.as_slice() == MOVES.as_slice(),
    )
}

#[test]
fn words_are_those_of_an_assembler(rt: HostRuntime) -> Result<(), Fail> {
    let alloc = rt.alloc();
    let unit = unit(alloc)?;
    let emitted = emit(alloc, &unit)?;
    assert_eq!(rt; emitted.code.as_slice(), WORDS.as_slice());
    assert_eq!(rt; emitted.functions.len(), 1);
    for function in &emitted.functions {
        assert!(rt; is_expected(alloc, function)?);
    }
    assert_eq!(rt; emitted.types.len(), 1);
    assert_eq!(rt; emitted.globals.as_slice(), [7].as_slice());
    assert_eq!(rt; emitted.tokens, 40);
    Ok(())
}
