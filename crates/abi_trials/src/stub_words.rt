// The whole answer of `stubs`, the runtime's own functions.
use eh_bytes::{Emitted, EmittedFunc, FrameChange};
use rt_stubs::stubs;
use std::process::Abort;
use std::test::Fail;

/// A function: its name, its words, its sites by start, length, pad and chain, its chains and types,
/// and the changes of its frame by their places.
struct Row {
    name: &'static str,
    words: &'static [u32],
    sites: &'static [(u64, u64, u64, Option<u32>)],
    chains: &'static [&'static [i64]],
    types: &'static [u64],
    moves: &'static [(u64, FrameChange)],
}

// The words are those that clang 14.0.6 and LLD 14.0.6 make of the listings in docs/RUNTIME.md; sites
// and frames are counted in them by hand.
static ROWS: &[Row] = &[
    Row {
        name: "start",
        words: &[0x0000_0097, 0x1900_80e7, 0x0000_0893, 0x0000_0073],
        sites: &[(0, 8, 0, None)],
        chains: &[],
        types: &[],
        moves: &[(0, FrameChange::Undefined(1))],
    },
    Row {
        name: "terminate",
        words: &[
            0xfe01_0113,
            0x0011_3423,
            0x00a1_3c23,
            0x0181_3503,
            0x0005_0463,
            0x0005_00e7,
            0x0100_0893,
            0x0000_0073,
        ],
        sites: &[],
        chains: &[],
        types: &[],
        moves: &[(4, FrameChange::Cfa(32)), (8, FrameChange::Saved(1, -24))],
    },
    Row {
        name: "end_catch",
        words: &[
            0xfd01_0113,
            0x0011_3423,
            0x0070_0893,
            0x0000_0073,
            0x02a1_3423,
            0x02b1_3023,
            0x0005_1463,
            0x0240_006f,
            0x0201_3583,
            0x0005_8863,
            0x0281_3503,
            0xfea1_3c23,
            0x0005_80e7,
            0x0281_3503,
            0x0040_0893,
            0x0000_0073,
            0x0000_0513,
            0x0081_3083,
            0x0301_0113,
            0x0000_8067,
            0x00a1_3c23,
            0x00b1_3823,
            0x0281_3503,
            0x0040_0893,
            0x0000_0073,
            0x0181_3503,
            0x0090_0893,
            0x0000_0073,
        ],
        sites: &[(32, 20, 80, Some(0)), (100, 12, 0, None)],
        chains: &[&[0]],
        types: &[],
        moves: &[(4, FrameChange::Cfa(48)), (8, FrameChange::Saved(1, -40))],
    },
    Row {
        name: "call_unexpected",
        words: &[
            0xfb01_0113,
            0x0011_3423,
            0x0481_3503,
            0x0120_0893,
            0x0000_0073,
            0x02a1_3823,
            0x02b1_3c23,
            0x0301_3503,
            0x0005_0463,
            0x0005_00e7,
            0x0481_3503,
            0x0140_0893,
            0x0000_0073,
            0x02a1_3423,
            0x02b1_3023,
            0x0201_2503,
            0x0000_0593,
            0x00b5_1463,
            0x0940_006f,
            0x0281_3503,
            0x0060_0893,
            0x0000_0073,
            0x0381_3503,
            0x0401_2583,
            0x0281_3603,
            0x0130_0893,
            0x0000_0073,
            0x00a1_3c23,
            0x0181_2503,
            0x0005_1463,
            0x0240_006f,
            0x0181_2503,
            0x0010_0593,
            0x40b5_053b,
            0x0005_1463,
            0x0180_006f,
            0x0481_3503,
            0x0140_0893,
            0x0000_0073,
            0x0080_0893,
            0x0000_0073,
            0x0030_0893,
            0x0000_0073,
            0x00a1_3823,
            0x0000_0013,
            0x0101_3503,
            0x0000_0597,
            0xe785_8593,
            0x0000_0613,
            0x0050_0893,
            0x0000_0073,
            0x02a1_3423,
            0x02b1_3023,
            0x0000_0097,
            0xebc0_80e7,
            0x0000_0097,
            0xeb40_80e7,
            0x0281_3503,
            0x0090_0893,
            0x0000_0073,
        ],
        sites: &[
            (28, 12, 52, Some(0)),
            (156, 8, 204, Some(1)),
            (180, 24, 204, Some(1)),
            (228, 12, 0, None),
        ],
        chains: &[&[1, 0], &[0]],
        types: &[0],
        moves: &[(4, FrameChange::Cfa(80)), (8, FrameChange::Saved(1, -72))],
    },
];

fn has_table(rt: &impl Abort, function: &EmittedFunc, row: &Row) {
    assert_eq!(rt; function.table.sites.len(), row.sites.len());
    for (site, (start, length, pad, chain)) in function.table.sites.iter().zip(row.sites) {
        assert_eq!(rt; site.start, *start);
        assert_eq!(rt; site.length, *length);
        assert_eq!(rt; site.pad, *pad);
        assert_eq!(rt; site.chain, *chain);
    }
    assert_eq!(rt; function.table.chains.len(), row.chains.len());
    for (chain, wanted) in function.table.chains.iter().zip(row.chains) {
        assert_eq!(rt; chain.as_slice(), *wanted);
    }
    assert_eq!(rt; function.table.types.as_slice(), row.types);
    assert!(rt; function.table.lists.is_empty());
}

fn has_frame(rt: &impl Abort, function: &EmittedFunc, row: &Row) {
    assert_eq!(rt; function.moves.len(), row.moves.len());
    for (change, (location, wanted)) in function.moves.iter().zip(row.moves) {
        assert_eq!(rt; change.location, *location);
        assert_eq!(rt; change.change, *wanted);
    }
}

fn has_words(rt: &impl Abort, emitted: &Emitted, function: &EmittedFunc, row: &Row) {
    assert_eq!(rt; function.words as usize, row.words.len());
    let words = emitted.code.iter().skip(function.first as usize);
    for (word, wanted) in words.zip(row.words) {
        assert_eq!(rt; *word, *wanted);
    }
}

#[test]
fn answer_at_an_address(rt: HostRuntime) -> Result<(), Fail> {
    let placed = stubs(rt.alloc(), 0x1_0000)?;
    let emitted = &placed.emitted;
    assert_eq!(rt; emitted.code.len(), 100);
    assert_eq!(rt; emitted.functions.len(), ROWS.len());
    for (function, row) in emitted.functions.iter().zip(ROWS) {
        assert_eq!(rt; function.name.as_bytes(), row.name.as_bytes());
        has_words(&rt, emitted, function, row);
        has_table(&rt, function, row);
        has_frame(&rt, function, row);
    }
    assert!(rt; emitted.types.is_empty() && emitted.globals.is_empty());
    assert_eq!(rt; emitted.tokens, 0);
    assert_eq!(rt; placed.start, 0x1_0000);
    assert_eq!(rt; placed.terminate, 0x1_0010);
    assert_eq!(rt; placed.end_catch, 0x1_0030);
    assert_eq!(rt; placed.call_unexpected, 0x1_00a0);
    Ok(())
}
