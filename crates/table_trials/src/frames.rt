// A worked list of frames with its rows, and each refusal by a change of it, by hand from DWARF 5,
// 6.4 and the LSB Core's "Exception Frames".
use crate::rows::{row_there, wanted};
use eh_bytes::{Region64, Segment, Segments};
use frame_read::{Fde, FrameError, Frames, read_frames};
use std::alloc::Global;
use std::test::Fail;
use table_forms::Rule;

// From byte 0xb0 of a file, at 0x100b0: a header, a CIE, an FDE, and the end of the list.
static WORKED: &[u8] = b"\x01\x1b\x03\x3b\x10\0\0\0\x01\0\0\0\x5c\0\0\0\x2c\0\0\0\
\x14\0\0\0\0\0\0\0\x01zLR\0\x04\x78\x01\x02\x1b\x1b\x0c\x02\0\0\0\
\x18\0\0\0\x1c\0\0\0\x28\0\0\0\x24\0\0\0\x04\x0f\0\0\0\x41\x0e\x10\x81\x01\0\0\
\0\0\0\0";

/// A segment from byte `file_at` of its file on. Bytes of it, by their places there, are changed.
pub fn memory(
    alloc: Global,
    address: u64,
    bytes: &[u8],
    file_at: u32,
    changes: &[(usize, u8)],
) -> Result<Segments, Fail> {
    let mut bytes = bytes.to_vec(alloc)?;
    for &(place, byte) in changes {
        if let Some(old) = bytes.get_mut(place.wrapping_sub(file_at as usize)) {
            *old = byte;
        }
    }
    let mut parts = Vec::new(alloc);
    if bytes.len() < 0x1000 && address < 0x100_0000 {
        parts.push(Segment {
            address,
            bytes,
            file_at: file_at as u64,
            write: false,
            exec: true,
        })?;
    }
    Ok(Segments { parts })
}

#[test]
fn a_worked_list_with_its_rows(rt: HostRuntime) -> Result<(), Fail> {
    let alloc = rt.alloc();
    let memory = memory(alloc, 0x1_00b0, WORKED, 0xb0, &[])?;
    let frames = read_frames(alloc, &memory, 0x1_00b0).expect(&rt, "no refusal");
    let fde = Fde {
        region: Region64 {
            start: 0x1_010c,
            length: 36,
        },
        lsda: 0x1_00fc,
        signal: false,
        return_register: 1,
        place: 0xdc,
        address: 0x1_00dc,
    };
    assert_eq!(rt; frames.fdes(), [fde].as_slice());
    assert_eq!(rt; frames.cies().len(), 1);
    for cie in frames.cies() {
        assert_eq!(rt; cie.augmentation.as_bytes(), b"zLR".as_slice());
        assert_eq!(rt; (cie.version, cie.code_factor, cie.data_factor), (1, 4, -8));
        assert_eq!(rt; (cie.return_register, cie.place), (1, 0xc4));
    }
    assert_eq!(rt; frames.fde_for(0x1_010b), None);
    assert_eq!(rt; frames.fde_for(0x1_010c), Some(fde));
    assert_eq!(rt; frames.fde_for(0x1_012f), Some(fde));
    assert_eq!(rt; frames.fde_for(0x1_0130), None);

    let saved = wanted(2, 16, &[(1, Rule::Offset(-8))]);
    assert_eq!(rt;
        row_there(&frames, &memory, 0x1_010c),
        Some((wanted(2, 0, &[]), Some(0x1_0110)))
    );
    assert_eq!(rt; row_there(&frames, &memory, 0x1_0110), Some((saved, None)));
    Ok(())
}

// Why frames are refused, by number and place, with the two locations.
fn refusal(frames: &Result<Frames, FrameError>) -> Option<(u8, u64, u64, u64)> {
    match frames {
        Err(
            FrameError::Refused {
                reason,
                place,
                location,
                other,
            },
        ) => Some((reason.number(), *place, *location, *other)),
        _ => None,
    }
}

// Changes of bytes, by their places in the file, and the number and place of what is refused.
static REFUSED: &[(&[(usize, u8)], (u8, u64))] = &[
    (&[(0xc5, 0xff)], (50, 0xc4)),
    (&[(0xc4, 2)], (50, 0xc8)),
    (&[(0xcc, 2)], (51, 0xcc)),
    (&[(0xcd, b'y')], (52, 0xcd)),
    (&[(0xcf, b'e')], (52, 0xcf)),
    (&[(0xd3, 64)], (58, 0xd3)),
    (&[(0xcc, 3), (0xd3, 0x80), (0xd4, 0x01)], (58, 0xd3)),
    (&[(0xd4, 8)], (50, 0xd4)),
    (&[(0xd4, 1)], (50, 0xd6)),
    (&[(0xd5, 0x9b)], (3, 0xd5)),
    (&[(0xd6, 0xff)], (3, 0xd6)),
    (&[(0xce, b'P'), (0xd5, 0x22)], (3, 0xd5)),
    (&[(0xd7, 0x17)], (54, 0xd7)),
    (&[(0xd7, 0x0f)], (55, 0xd7)),
    (&[(0xd8, 64)], (58, 0xd8)),
    (&[(0xd7, 0x0b)], (56, 0xd7)),
    (&[(0xe0, 0x1d)], (53, 0xe0)),
    (&[(0xe0, 0x20)], (53, 0xe0)),
    (&[(0xe9, 0xff), (0xea, 0xff), (0xeb, 0xff)], (50, 0xe8)),
    (&[(0xec, 0x20)], (50, 0xec)),
    (&[(0xec, 3)], (50, 0xed)),
    (&[(0xf1, 0x0b)], (56, 0xf1)),
    (&[(0xf6, 0x0e), (0xf7, 0x80)], (50, 0xf7)),
    (&[(0xf6, 0x10)], (55, 0xf6)),
    // Of the header.
    (&[(0xb0, 2)], (51, 0xb0)),
    (&[(0xb1, 0x03)], (3, 0xb1)),
    (&[(0xb2, 0x04)], (3, 0xb2)),
    (&[(0xb3, 0xff)], (3, 0xb3)),
    (&[(0xb2, 0xff)], (3, 0xb2)),
    (&[(0xb4, 0)], (50, 0xb4)),
    (&[(0xb5, 0x10)], (50, 0xb4)),
    (&[(0xb9, 1)], (50, 0xfc)),
    // The least place answers, also where another is read first.
    (&[(0xb3, 0xff), (0xcc, 2)], (3, 0xb3)),
    (&[(0xd7, 0x17), (0xf1, 0x0b)], (54, 0xd7)),
];

#[test]
fn each_refusal(rt: HostRuntime) -> Result<(), Fail> {
    let alloc = rt.alloc();
    for (changes, (number, place)) in REFUSED {
        let memory = memory(alloc, 0x1_00b0, WORKED, 0xb0, changes)?;
        let frames = read_frames(alloc, &memory, 0x1_00b0);
        assert_eq!(rt;
            refusal(&frames),
            Some((*number, *place, 0, 0)),
            "with {changes:?}"
        );
    }
    let memory = memory(alloc, 0x1_00b0, WORKED, 0xb0, &[])?;
    let frames = read_frames(alloc, &memory, 0x1_00af);
    assert_eq!(rt; refusal(&frames), Some((50, 0, 0, 0)));
    Ok(())
}

// Changes of the table, and the place where it is not the list of the FDEs, with both locations.
static DISAGREES: &[(&[(usize, u8)], Option<(u8, u64, u64, u64)>)] = &[
    (&[(0xbc, 0x5d)], Some((59, 0xbc, 0x1_010d, 0x1_010c))),
    (&[(0xc0, 0x2d)], Some((59, 0xbc, 0x1_010c, 0x1_010c))),
    (&[(0xb8, 0)], Some((59, 0xbc, 0, 0x1_010c))),
    (&[(0xb8, 2)], Some((59, 0xc4, 0x1_00c4, 0))),
    (&[(0xb8, 0), (0xb2, 0xff), (0xb3, 0xff)], None),
];

#[test]
fn the_table_beside_the_frames(rt: HostRuntime) -> Result<(), Fail> {
    let alloc = rt.alloc();
    for (changes, want) in DISAGREES {
        let memory = memory(alloc, 0x1_00b0, WORKED, 0xb0, changes)?;
        let frames = read_frames(alloc, &memory, 0x1_00b0);
        assert_eq!(rt; refusal(&frames), *want, "with {changes:?}");
    }
    Ok(())
}

// A header without a table, a CIE, and an FDE without instructions for each region, 24 bytes each
// from byte 21 on.
fn frames(alloc: Global, regions: &[(u64, u64)]) -> Result<Segments, Fail> {
    let mut bytes = b"\x01\x1b\xff\xff\x04\0\0\0\x09\0\0\0\0\0\0\0\x01\0\x04\x78\x01".to_vec(
        alloc,
    )?;
    for (start, length) in regions {
        let distance = (bytes.len() as u64).wrapping_sub(4);
        bytes.extend_from_slice(b"\x14\0\0\0")?;
        bytes.extend_from_slice(&distance.to_le_bytes()[..4])?;
        bytes.extend_from_slice(&start.to_le_bytes())?;
        bytes.extend_from_slice(&length.to_le_bytes())?;
    }
    memory(alloc, 0x2000, &bytes, 0, &[])
}

// Regions in the order of their FDEs, and the place of the first that overlaps an earlier one.
static OVERLAPS: &[(&[(u64, u64)], Option<u64>)] = &[
    (&[(0, 10)], None),
    (&[(0, 10), (10, 10), (20, 1)], None),
    (&[(20, 1), (0, 10), (10, 10)], None),
    (&[(0, 10), (9, 10)], Some(45)),
    (&[(9, 10), (0, 10)], Some(45)),
    (&[(0, 10), (20, 10), (40, 10), (25, 1)], Some(93)),
    // One that reaches over others, wherever it stands.
    (&[(0, 100), (10, 5), (50, 5)], Some(45)),
    (&[(10, 5), (0, 100), (50, 5)], Some(45)),
    (&[(10, 5), (50, 5), (0, 100)], Some(69)),
    (&[(50, 5), (10, 5), (30, 5), (0, 100), (12, 1)], Some(93)),
    (&[(50, 5), (10, 5), (30, 5), (12, 1), (0, 100)], Some(93)),
    (&[(5, 1), (7, 1), (0, 6), (6, 1), (4, 9)], Some(69)),
    // An empty one overlaps nothing.
    (&[(0, 10), (5, 0), (5, 0), (10, 3)], None),
    (&[(5, 0), (0, 10), (7, 1)], Some(69)),
];

#[test]
fn the_first_overlap(rt: HostRuntime) -> Result<(), Fail> {
    let alloc = rt.alloc();
    for (regions, want) in OVERLAPS {
        let memory = frames(alloc, regions)?;
        let frames = read_frames(alloc, &memory, 0x2000);
        let want = want.map(|place| (57, place, 0, 0));
        assert_eq!(rt; refusal(&frames), want, "of {regions:?}");
    }
    Ok(())
}
