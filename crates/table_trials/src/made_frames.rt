// Frames that g++, gcc, as and ld of GNU wrote for x86-64, with what readelf says of them.
use crate::frames::memory;
use crate::rows::{row_there, wanted};
use eh_bytes::Region64;
use frame_read::{Fde, read_frames};
use std::test::Fail;
use table_forms::Rule;

// A header with four rows; then a CIE with its FDE, a CIE of a function with an exception table,
// its FDE, another FDE of the first CIE, and the CIE and FDE of a signal's trampoline. The segment
// ends behind them.
static MADE: &[u8] = b"\x01\x1b\x03\x3b\x2c\0\0\0\x04\0\0\0\
\0\xf0\xff\xff\x48\0\0\0\x04\xf0\xff\xff\x7c\0\0\0\x4e\xf0\xff\xff\xa0\0\0\0\x82\xf0\xff\xff\xd8\0\0\0\0\0\0\0\
\x14\0\0\0\0\0\0\0\x01\x7a\x52\0\x01\x78\x10\x01\x1b\x0c\x07\x08\x90\x01\0\0\
\x10\0\0\0\x1c\0\0\0\xb0\xef\xff\xff\x04\0\0\0\0\0\0\0\
\x1c\0\0\0\0\0\0\0\x01\x7a\x50\x4c\x52\0\x01\x78\x10\x07\x9b\x99\x0f\0\0\x1b\x1b\x0c\x07\x08\x90\x01\0\0\
\x20\0\0\0\x24\0\0\0\x80\xef\xff\xff\x4a\0\0\0\x04\x63\0\0\0\x41\x0e\x10\x83\x02\x44\x0e\x20\x02\x43\x0e\x10\x41\x0e\x08\
\x1c\0\0\0\x74\0\0\0\xa6\xef\xff\xff\x34\0\0\0\0\x41\x0e\x10\x86\x02\x43\x0d\x06\x6f\x0c\x07\x08\0\0\0\
\x14\0\0\0\0\0\0\0\x01\x7a\x52\x53\0\x01\x78\x10\x01\x1b\x0c\x07\x08\x90\x01\0\
\x14\0\0\0\x1c\0\0\0\xa2\xef\xff\xff\x02\0\0\0\0\x41\x0c\x07\xb0\x01\x90\x01";

// An FDE of the file, of which byte 0 is loaded at 0x400000.
fn fde(start: u64, length: u64, lsda: u64, signal: bool, place: u64) -> Fde {
    Fde {
        region: Region64 { start, length },
        lsda,
        signal,
        return_register: 16,
        place,
        address: place.wrapping_add(0x40_0000),
    }
}

// A place, the CFA, the rules but that of the return register, and where the next row begins.
static ROWS: &[(u64, u8, i64, &[(usize, Rule)], Option<u64>)] = &[
    (0x40_1000, 7, 8, &[], None),
    (0x40_1003, 7, 8, &[], None),
    (0x40_1004, 7, 8, &[], Some(0x40_1005)),
    (0x40_1005, 7, 16, &[(3, Rule::Offset(-16))], Some(0x40_1009)),
    (0x40_1009, 7, 32, &[(3, Rule::Offset(-16))], Some(0x40_104c)),
    (0x40_104b, 7, 32, &[(3, Rule::Offset(-16))], Some(0x40_104c)),
    (0x40_104c, 7, 16, &[(3, Rule::Offset(-16))], Some(0x40_104d)),
    (0x40_104d, 7, 8, &[(3, Rule::Offset(-16))], None),
    (0x40_104e, 7, 8, &[], Some(0x40_104f)),
    (0x40_104f, 7, 16, &[(6, Rule::Offset(-16))], Some(0x40_1052)),
    (0x40_1052, 6, 16, &[(6, Rule::Offset(-16))], Some(0x40_1081)),
    (0x40_1080, 6, 16, &[(6, Rule::Offset(-16))], Some(0x40_1081)),
    (0x40_1081, 7, 8, &[(6, Rule::Offset(-16))], None),
    (0x40_1082, 7, 8, &[], Some(0x40_1083)),
    (0x40_1083, 7, 176, &[], None),
];

#[test]
fn what_other_tools_wrote(rt: HostRuntime) -> Result<(), Fail> {
    let alloc = rt.alloc();
    let memory = memory(alloc, 0x40_2000, MADE, 0x2000, &[])?;
    let frames = read_frames(alloc, &memory, 0x40_2000).expect(&rt, "no refusal");
    let wanted_fdes = [
        fde(0x40_1000, 4, 0, false, 0x2048),
        fde(0x40_1004, 0x4a, 0x40_20f0, false, 0x207c),
        fde(0x40_104e, 0x34, 0, false, 0x20a0),
        fde(0x40_1082, 2, 0, true, 0x20d8),
    ];
    assert_eq!(rt; frames.fdes(), wanted_fdes.as_slice());
    let mut augmentations = frames.cies().iter().map(|cie| cie.augmentation.as_bytes());
    assert_eq!(rt; augmentations.next(), Some(b"zR".as_slice()));
    assert_eq!(rt; augmentations.next(), Some(b"zPLR".as_slice()));
    assert_eq!(rt; augmentations.next(), Some(b"zRS".as_slice()));
    for (pc, register, offset, rules, next) in ROWS {
        let mut row = wanted(*register, *offset, rules);
        if let Some(rule) = row.rules.get_mut(16) {
            *rule = Rule::Offset(-8);
        }
        assert_eq!(rt;
            row_there(&frames, &memory, *pc),
            Some((row, *next)),
            "at {pc}"
        );
    }
    Ok(())
}
