// Instructions with their rows and the next locations, by hand from DWARF 5, 6.4.
ghost use Rattle.std.specs.Prelude.{ℕ, Ok};
ghost use Rattle.eh_bytes.specs.Memory.{memory_of};
ghost use Rattle.table_forms.specs.Frames.{frames};
ghost use Rattle.frame_read.specs.ReadsFrames.{ReadsFrames};

use crate::frames::memory;
use eh_bytes::Segments;
use frame_read::{Frames, read_frames};
use std::alloc::Global;
use std::test::Fail;
use table_forms::{Row, Rule};

/// The row of a place and the next location, by frames that were read from a memory.
pub fn row_there(list: &Frames, memory: &Segments, pc: u64) -> Option<(Row, Option<u64>)>
    requires { (header : ℕ) × ReadsFrames (Ok list.now) (frames (memory_of memory.now) header) }
{
    let fde = list.fde_for(pc)?;
    let row = list.row_at(memory, &fde, pc);
    Some((row, list.next_location(memory, &fde, pc)))
}

/// A row, by its rules.
pub fn wanted(cfa_register: u8, cfa_offset: i64, rules: &[(usize, Rule)]) -> Row {
    let mut row = Row {
        cfa_register,
        cfa_offset,
        rules: [Rule::Unspecified; 64],
    };
    for &(register, rule) in rules {
        if let Some(old) = row.rules.get_mut(register) {
            *old = rule;
        }
    }
    row
}

// A header without a table at 0x2000, a CIE with a code factor of 4 and a data factor of -8, and an
// FDE of 0x100 places from 0x1000 on, with these instructions.
fn frame(alloc: Global, common: &[u8], own: &[u8]) -> Result<Segments, Fail> {
    let mut bytes = b"\x01\x1b\xff\xff\x04\0\0\0".to_vec(alloc)?;
    let length = (common.len() as u64).wrapping_add(9);
    bytes.extend_from_slice(&length.to_le_bytes()[..4])?;
    bytes.extend_from_slice(b"\0\0\0\0\x01\0\x04\x78\x01")?;
    bytes.extend_from_slice(common)?;
    let distance = (bytes.len() as u64).wrapping_sub(4);
    let length = (own.len() as u64).wrapping_add(20);
    bytes.extend_from_slice(&length.to_le_bytes()[..4])?;
    bytes.extend_from_slice(&distance.to_le_bytes()[..4])?;
    bytes.extend_from_slice(b"\0\x10\0\0\0\0\0\0\0\x01\0\0\0\0\0\0")?;
    bytes.extend_from_slice(own)?;
    memory(alloc, 0x2000, &bytes, 0, &[])
}

// The row and the next location that it gives a place.
fn found(
    alloc: Global,
    common: &[u8],
    own: &[u8],
    pc: u64,
) -> Result<Option<(Row, Option<u64>)>, Fail> {
    let memory = frame(alloc, common, own)?;
    let Ok(frames) = read_frames(alloc, &memory, 0x2000) else {
        return Ok(None);
    };
    Ok(row_there(&frames, &memory, pc))
}

// The instructions of the CIE and of the FDE, a place, and its row.
static ROWS: &[(&[u8], &[u8], u64, (u8, i64, &[(usize, Rule)]))] = &[
    (b"", b"", 0x1000, (2, 0, &[])),
    (b"\x0c\x02\x10", b"", 0x1000, (2, 16, &[])),
    (b"\x0c\x02\x10\x0d\x08", b"", 0x1000, (8, 16, &[])),
    (b"\x0c\x08\x10\x0e\x20", b"\x0e\x30", 0x10ff, (8, 48, &[])),
    (b"\x12\x08\x7f", b"", 0x1000, (8, 8, &[])),
    (b"\x13\x7e", b"", 0x1000, (2, 16, &[])),
    (b"\x81\x01", b"", 0x1000, (2, 0, &[(1, Rule::Offset(-8))])),
    (
        b"\x05\x3f\x02",
        b"",
        0x1000,
        (2, 0, &[(63, Rule::Offset(-16))]),
    ),
    (
        b"\x11\x01\x7f",
        b"",
        0x1000,
        (2, 0, &[(1, Rule::Offset(8))]),
    ),
    (
        b"\x14\x01\x03",
        b"",
        0x1000,
        (2, 0, &[(1, Rule::ValOffset(-24))]),
    ),
    (
        b"\x15\x01\x7d",
        b"",
        0x1000,
        (2, 0, &[(1, Rule::ValOffset(24))]),
    ),
    (b"\x07\x01", b"", 0x1000, (2, 0, &[(1, Rule::Undefined)])),
    (b"\x08\x09", b"", 0x1000, (2, 0, &[(9, Rule::Same)])),
    (
        b"\x09\x01\x05",
        b"",
        0x1000,
        (2, 0, &[(1, Rule::Register(5))]),
    ),
    (
        b"\x81\x01\x07\x01",
        b"",
        0x1000,
        (2, 0, &[(1, Rule::Undefined)]),
    ),
    // A location of its own instruction belongs to the row behind it.
    (b"", b"\x41\x0e\x10", 0x1003, (2, 0, &[])),
    (b"", b"\x41\x0e\x10", 0x1004, (2, 16, &[])),
    (b"", b"\x41\x0e\x10\x42\x0e\x20", 0x100b, (2, 16, &[])),
    (b"", b"\x41\x0e\x10\x42\x0e\x20", 0x100c, (2, 32, &[])),
    (b"", b"\x02\x05\x0e\x10", 0x1013, (2, 0, &[])),
    (b"", b"\x02\x05\x0e\x10", 0x1014, (2, 16, &[])),
    (b"", b"\x03\x10\0\x0e\x10", 0x103f, (2, 0, &[])),
    (b"", b"\x03\x10\0\x0e\x10", 0x1040, (2, 16, &[])),
    (b"", b"\x04\x10\0\0\0\x0e\x10", 0x103f, (2, 0, &[])),
    (b"", b"\x04\x10\0\0\0\x0e\x10", 0x1040, (2, 16, &[])),
    (b"", b"\x04\xff\xff\xff\xff\x0e\x10", 0x10ff, (2, 0, &[])),
    (
        b"",
        b"\x01\x80\x10\0\0\0\0\0\0\x0e\x10",
        0x107f,
        (2, 0, &[]),
    ),
    (
        b"",
        b"\x01\x80\x10\0\0\0\0\0\0\x0e\x10",
        0x1080,
        (2, 16, &[]),
    ),
    // What comes behind a move above the place does not count, also where it comes back.
    (
        b"",
        b"\x48\x01\0\x10\0\0\0\0\0\0\x0e\x10",
        0x1000,
        (2, 0, &[]),
    ),
    (
        b"",
        b"\x48\x01\0\x10\0\0\0\0\0\0\x0e\x10",
        0x1020,
        (2, 16, &[]),
    ),
    // Moves of the CIE move the location too.
    (b"\x41\x0e\x10", b"", 0x1000, (2, 0, &[])),
    (b"\x41\x0e\x10", b"\x0e\x20", 0x1000, (2, 0, &[])),
    (b"\x41\x0e\x10", b"\x0e\x20", 0x1004, (2, 32, &[])),
    (b"\x41\x0e\x10", b"\x41\x0e\x20", 0x1004, (2, 16, &[])),
    // restore gives back what the CIE left.
    (
        b"\x81\x01",
        b"\x81\x02\xc1",
        0x1000,
        (2, 0, &[(1, Rule::Offset(-8))]),
    ),
    (
        b"\x81\x01",
        b"\x07\x01\x06\x01",
        0x1000,
        (2, 0, &[(1, Rule::Offset(-8))]),
    ),
    (b"", b"\x81\x02\xc1", 0x1000, (2, 0, &[])),
    (b"\x81\x01\xc1", b"", 0x1000, (2, 0, &[])),
    (
        b"\x81\x01\xc1\x82\x01",
        b"\xc2",
        0x1000,
        (2, 0, &[(2, Rule::Offset(-8))]),
    ),
    // restore_state restores the canonical frame address too.
    (
        b"\x0c\x02\x10",
        b"\x0a\x0c\x08\x20\x0b",
        0x1000,
        (2, 16, &[]),
    ),
    (
        b"",
        b"\x81\x01\x0a\x07\x01\x0b",
        0x1000,
        (2, 0, &[(1, Rule::Offset(-8))]),
    ),
    (b"", b"\x0a\x0e\x08\x0a\x0e\x10\x0b", 0x1000, (2, 8, &[])),
    (
        b"",
        b"\x0a\x0e\x08\x0a\x0e\x10\x0b\x0b",
        0x1000,
        (2, 0, &[]),
    ),
    // The location is not restored.
    (
        b"",
        b"\x0a\x41\x0e\x10\x0b\x41\x0e\x20",
        0x1004,
        (2, 0, &[]),
    ),
    (
        b"",
        b"\x0a\x41\x0e\x10\x0b\x41\x0e\x20",
        0x1008,
        (2, 32, &[]),
    ),
    // A state of the CIE is restored in the FDE.
    (b"\x0e\x10\x0a\x0e\x20", b"\x0b", 0x1000, (2, 16, &[])),
    // nop, and the size of arguments.
    (b"\0\0\x0e\x08\0", b"\0\x2e\x80\x01\0", 0x1000, (2, 8, &[])),
];

#[test]
fn instructions_with_their_rows(rt: HostRuntime) -> Result<(), Fail> {
    let alloc = rt.alloc();
    for (common, own, pc, (register, offset, rules)) in ROWS {
        let found = found(alloc, common, own, *pc)?;
        assert_eq!(rt;
            found.map(|(row, _)| row),
            Some(wanted(*register, *offset, rules)),
            "of {common:?} {own:?} at {pc}"
        );
    }
    Ok(())
}

// The instructions of the CIE and of the FDE, a place, and the next location.
static LOCATIONS: &[(&[u8], &[u8], u64, Option<u64>)] = &[
    (b"", b"", 0x1000, None),
    (b"", b"\x41\x0e\x10", 0x1000, Some(0x1004)),
    (b"", b"\x41\x0e\x10", 0x1003, Some(0x1004)),
    (b"", b"\x41\x0e\x10", 0x1004, None),
    (b"", b"\x41\x0a\x42\x0b", 0x1004, Some(0x100c)),
    (
        b"",
        b"\x02\x05\x03\x02\0\x04\x01\0\0\0",
        0x1014,
        Some(0x101c),
    ),
    (
        b"",
        b"\x02\x05\x03\x02\0\x04\x01\0\0\0",
        0x101c,
        Some(0x1020),
    ),
    // No move.
    (b"", b"\x40\x0e\x10", 0x1000, None),
    // Those of the CIE come first.
    (b"\x41", b"", 0x1000, Some(0x1004)),
    (b"\x41", b"\x42", 0x1000, Some(0x1004)),
    (b"\x41", b"\x42", 0x1004, Some(0x100c)),
    // The last place of the region, and its end.
    (b"", b"\x7f\x02\x01", 0x1000, Some(0x10fc)),
    (b"", b"\x7f\x02\x01", 0x10fc, None),
    // The least and not the first, where it comes back.
    (b"", b"\x48\x01\0\x10\0\0\0\0\0\0\x44", 0x1000, Some(0x1010)),
    (b"", b"\x48\x01\0\x10\0\0\0\0\0\0\x44", 0x1010, Some(0x1020)),
    (b"", b"\x48\x01\x04\x10\0\0\0\0\0\0", 0x1000, Some(0x1004)),
    (b"", b"\x48\x01\x04\x10\0\0\0\0\0\0", 0x1004, Some(0x1020)),
    // Outside the region, and back.
    (
        b"",
        b"\x04\xff\xff\xff\xff\x01\x40\x10\0\0\0\0\0\0",
        0x1000,
        Some(0x1040),
    ),
    (
        b"",
        b"\x01\0\x08\0\0\0\0\0\0\x03\x10\x02",
        0x1000,
        Some(0x1040),
    ),
    // A location of more than 64 bits is none of fewer.
    (
        b"",
        b"\x01\xfc\xff\xff\xff\xff\xff\xff\xff\x03\x05\x04",
        0x1000,
        None,
    ),
];

#[test]
fn the_next_location(rt: HostRuntime) -> Result<(), Fail> {
    let alloc = rt.alloc();
    for (common, own, pc, want) in LOCATIONS {
        let found = found(alloc, common, own, *pc)?;
        assert_eq!(rt;
            found.map(|(_, next)| next),
            Some(*want),
            "of {common:?} {own:?} at {pc}"
        );
    }
    Ok(())
}
