// Images by hand from the ELF-64 Object File Format, and each refusal of them.
use elf_image::{ImageError, RuntimeRecord, read_elf};
use std::alloc::Global;
use std::test::Fail;

#[derive(Clone, Copy, Debug)]
pub struct Program {
    pub kind: u32,
    pub flags: u32,
    pub offset: u64,
    pub address: u64,
    pub file_size: u64,
    pub memory_size: u64,
}

pub const LOAD: Program = Program {
    kind: 1,
    flags: 5,
    offset: 0,
    address: 0x1_0000,
    file_size: 0x400,
    memory_size: 0x500,
};

pub const FRAMES: Program = Program {
    kind: 0x6474_e550,
    flags: 4,
    offset: 0x300,
    address: 0x1_0300,
    file_size: 0x14,
    memory_size: 0x14,
};

pub const RUNTIME: Program = Program {
    kind: 0x6e48_5831,
    flags: 4,
    offset: 0x320,
    address: 0,
    file_size: 24,
    memory_size: 24,
};

fn put(bytes: &mut Vec<u8>, program: &Program) -> Result<(), Fail> {
    bytes.extend_from_slice(program.kind.to_le_bytes().as_slice())?;
    bytes.extend_from_slice(program.flags.to_le_bytes().as_slice())?;
    for number in [
        program.offset,
        program.address,
        program.address,
        program.file_size,
        program.memory_size,
        0,
    ] {
        bytes.extend_from_slice(number.to_le_bytes().as_slice())?;
    }
    Ok(())
}

// A file of so many bytes with these program headers, whose runtime record stands at a place.
pub fn file_with(
    alloc: Global,
    programs: &[Program],
    record_at: usize,
    size: usize,
) -> Result<Vec<u8>, Fail> {
    let mut bytes = Vec::new(alloc);
    bytes.extend_from_slice(
        b"\x7fELF\x02\x01\x01\0\0\0\0\0\0\0\0\0\x02\0\xf3\0\x01\0\0\0\x34\x12\x01\0\0\0\0\0\x40\0\0\0\0\0\0\0".as_slice(),
    )?;
    bytes.extend_from_slice(b"\0\0\0\0\0\0\0\0\0\0\0\0\x40\0\x38\0".as_slice())?;
    bytes.extend_from_slice((programs.len() as u64).to_le_bytes().as_slice())?;
    for program in programs.iter() {
        put(&mut bytes, program)?;
    }
    bytes.resize(record_at, 0)?;
    for number in [1u64, 0x1_0040, 0x1_0050] {
        bytes.extend_from_slice(number.to_le_bytes().as_slice())?;
    }
    bytes.resize(size, 0)?;
    Ok(bytes)
}

// A file of 0x400 bytes, whose runtime record stands at 0x320, and with some bytes changed.
fn image(alloc: Global, programs: &[Program], changes: &[(usize, u8)]) -> Result<Vec<u8>, Fail> {
    let mut bytes = file_with(alloc, programs, 0x320, 0x400)?;
    for (at, byte) in changes.iter() {
        if let Some(place) = bytes.get_mut(*at) {
            *place = *byte;
        }
    }
    Ok(bytes)
}

// The number and place of the refusal; 0 where there is none.
fn refusal(
    alloc: Global,
    programs: &[Program],
    changes: &[(usize, u8)],
    run: bool,
) -> Result<(u8, u64), Fail> {
    let file = image(alloc, programs, changes)?;
    Ok(match read_elf(alloc, &file, run) {
        Ok(_) => (0, 0),
        Err(ImageError::Refused { reason, place, .. }) => (reason.number(), place),
        Err(ImageError::NoMemory) => (255, 0),
    })
}

#[test]
fn changed_bytes(rt: HostRuntime) -> Result<(), Fail> {
    let alloc = rt.alloc();
    let rows = [
        ([(3, 0x46), (4, 2)], false, (0, 0)),
        ([(3, 0x46), (4, 2)], true, (0, 0)),
        ([(3, 0), (4, 1)], false, (60, 0)),
        ([(4, 1), (5, 1)], false, (61, 4)),
        ([(5, 2), (16, 1)], false, (61, 4)),
        ([(16, 1), (18, 62)], false, (63, 16)),
        ([(18, 62), (33, 4)], false, (62, 18)),
        ([(33, 4), (54, 64)], false, (63, 32)),
        ([(54, 64), (56, 0)], false, (63, 54)),
        ([(56, 0), (57, 0)], false, (63, 56)),
        ([(56, 65), (57, 0)], false, (63, 32)),
        ([(0x302, 255), (0x303, 255)], true, (66, 0)),
        ([(0x302, 255), (0x303, 255)], false, (0, 0)),
        ([(0x302, 255), (0x303, 0)], true, (0, 0)),
        ([(0x320, 2), (0x321, 0)], false, (68, 176)),
        ([(0x328, 0x42), (0x329, 0)], false, (68, 176)),
        ([(0x328, 0x40), (0x329, 5)], false, (68, 176)),
    ];
    for (changes, run, wanted) in rows {
        let found = refusal(alloc, &[LOAD, FRAMES, RUNTIME], &changes, run)?;
        assert_eq!(rt; found, wanted, "{changes:?}, {run}");
    }
    let empty: [u8; 0] = [];
    let read = match read_elf(alloc, &empty, false) {
        Ok(_) => return Err(Fail::new("an empty file is read")),
        Err(error) => error.to_string(alloc)?,
    };
    assert_eq!(rt; read.as_str(), "image refused: 60 at 0");
    Ok(())
}

const LOW: Program = Program {
    address: 0x8000,
    ..LOAD
};

const LOW_FRAMES: Program = Program {
    address: 0x8300,
    ..FRAMES
};

const LONG: Program = Program {
    memory_size: 0x4000_0001,
    ..LOAD
};

const LARGE: Program = Program {
    memory_size: 0x400_0001,
    ..LOAD
};

const SHORT: Program = Program {
    memory_size: 0x3ff,
    ..LOAD
};

const CUT: Program = Program { offset: 1, ..LOAD };

const OUTSIDE: Program = Program {
    address: 0x1_0500,
    ..FRAMES
};

const MOVED: Program = Program {
    offset: 0x321,
    ..RUNTIME
};

#[test]
fn program_headers(rt: HostRuntime) -> Result<(), Fail> {
    let alloc = rt.alloc();
    let rows = [
        ([CUT, FRAMES, RUNTIME], false, (64, 64)),
        ([SHORT, FRAMES, RUNTIME], false, (64, 64)),
        ([LONG, FRAMES, RUNTIME], false, (64, 64)),
        ([LOW, LOW_FRAMES, RUNTIME], false, (68, 176)),
        ([LOW, LOW_FRAMES, RUNTIME], true, (64, 64)),
        ([LARGE, FRAMES, RUNTIME], true, (64, 64)),
        ([LOAD, FRAMES, LOAD], false, (65, 176)),
        ([LOAD, FRAMES, LOAD], true, (67, 0)),
        ([LOAD, OUTSIDE, RUNTIME], false, (66, 0)),
        ([LOAD, OUTSIDE, FRAMES], false, (66, 0)),
        ([LOAD, FRAMES, OUTSIDE], false, (0, 0)),
        ([LOAD, FRAMES, OUTSIDE], true, (67, 0)),
        ([LOAD, FRAMES, MOVED], false, (68, 176)),
    ];
    for (programs, run, wanted) in rows {
        let found = refusal(alloc, &programs, &[], run)?;
        assert_eq!(rt; found, wanted, "{programs:?}, {run}");
    }
    Ok(())
}

#[test]
fn a_whole_image(rt: HostRuntime) -> Result<(), Fail> {
    let alloc = rt.alloc();
    let file = image(alloc, &[LOAD, FRAMES, RUNTIME], &[])?;
    let elf = read_elf(alloc, &file, true).expect(&rt, "an image to run");
    assert_eq!(rt; elf.entry, 0x1_1234);
    assert_eq!(rt; elf.frame_header, 0x1_0300);
    let record = RuntimeRecord {
        terminate: 0x1_0040,
        bad_exception: 0x1_0050,
    };
    assert_eq!(rt; elf.runtime, Some(record));
    let bytes = elf.segments.bytes_at(0x1_0320).expect(&rt, "bytes");
    assert_eq!(rt; bytes.len(), 0x1e0);
    assert_eq!(rt; bytes.first(), Some(&1));
    assert_eq!(rt; bytes.get(0xe0), Some(&0));
    Ok(())
}
