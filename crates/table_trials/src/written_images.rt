// Images that are written, by hand from the ELF-64 Object File Format, and read again.
use crate::images::{FRAMES, LOAD, Program, RUNTIME, file_with};
use elf_image::{Elf, ImageParts, RuntimeRecord, read_elf, write_elf};
use std::alloc::Global;
use std::process::Abort;
use std::test::Fail;

// Bytes of the file at an address that ends in 010, and zeros up to a page.
const DATA: Program = Program {
    flags: 6,
    offset: 0x310,
    address: 0x2_0010,
    file_size: 0x20,
    memory_size: 0x1000,
    ..LOAD
};

const EMPTY: Program = Program {
    flags: 4,
    address: 0x3_0000,
    file_size: 0,
    memory_size: 0,
    ..LOAD
};

const RECORD: RuntimeRecord = RuntimeRecord {
    terminate: 0x1_0040,
    bad_exception: 0x1_0050,
};

// The file that is written of what a file holds.
fn written(rt: &impl Abort, alloc: Global, file: &[u8]) -> Result<Vec<u8>, Fail> {
    let elf = read_elf(alloc, file, true).expect(rt, "an image to run");
    let parts = ImageParts {
        entry: elf.entry,
        segments: elf.segments,
        frame_header: elf.frame_header,
        runtime: RECORD,
    };
    Ok(write_elf(alloc, &parts)?)
}

#[test]
fn bytes_of_an_image(rt: HostRuntime) -> Result<(), Fail> {
    let alloc = rt.alloc();
    let programs = [LOAD, DATA, EMPTY, FRAMES, RUNTIME];
    let file = file_with(alloc, &programs, 0x320, 0x400)?;
    let bytes = written(&rt, alloc, &file)?;
    // Three segments behind 0x158 bytes of headers and the record: at 0x1000, 0x2010, 0x4000.
    assert_eq!(rt; bytes.len(), 0x4000);
    let words = [
        (0x18, 0x1_1234), // e_entry
        (0x20, 0x40), // e_phoff
        (0x34, 0x0005_0038_0040), // e_ehsize, e_phentsize, e_phnum
        (0x40, 0x0005_0000_0001), // PT_LOAD, r-x
        (0x48, 0x1000), // p_offset
        (0x50, 0x1_0000), // p_vaddr
        (0x60, 0x500), // p_filesz
        (0x68, 0x500), // p_memsz
        (0x70, 0x1000), // p_align
        (0x78, 0x0006_0000_0001), // PT_LOAD, rw-
        (0x80, 0x2010),
        (0x98, 0x1000),
        (0xb0, 0x0004_0000_0001), // PT_LOAD, r--
        (0xb8, 0x4000),
        (0xd0, 0),
        (0xe8, 0x0004_6474_e550), // PT_GNU_EH_FRAME
        (0xf0, 0x1300),
        (0xf8, 0x1_0300),
        (0x108, 0x200), // to the end of its segment
        (0x120, 0x0004_6e48_5831), // the record for the runtime
        (0x128, 0x158),
        (0x140, 24),
        (0x158, 1),
        (0x160, 0x1_0040),
        (0x168, 0x1_0050),
        (0x2010, 0),
        (0x2020, 1), // the record's words in the segment of data
    ];
    for (place, wanted) in words {
        assert_eq!(rt; word(&bytes, place), Some(wanted), "{place}");
    }
    Ok(())
}

fn word(bytes: &[u8], place: usize) -> Option<u64> {
    let (_, rest) = bytes.split_at_checked(place)?;
    let (word, _) = rest.split_first_chunk::<8>()?;
    Some(u64::from_le_bytes(*word))
}

fn same(rt: &impl Abort, one: &Elf, other: &Elf) {
    assert_eq!(rt; one.entry, other.entry);
    assert_eq!(rt; one.frame_header, other.frame_header);
    assert_eq!(rt; one.runtime, other.runtime);
    assert_eq!(rt; one.segments.parts.len(), other.segments.parts.len());
    for (a, b) in one.segments.parts.iter().zip(other.segments.parts.iter()) {
        assert_eq!(rt; a.address, b.address);
        assert_eq!(rt; a.bytes, b.bytes);
        assert_eq!(rt; a.write, b.write);
        assert_eq!(rt; a.exec, b.exec);
    }
}

#[test]
fn parts_read_again(rt: HostRuntime) -> Result<(), Fail> {
    let alloc = rt.alloc();
    let file = file_with(alloc, &[LOAD, DATA, EMPTY, FRAMES, RUNTIME], 0x320, 0x400)?;
    let bytes = written(&rt, alloc, &file)?;
    let before = read_elf(alloc, &file, true).expect(&rt, "an image to run");
    let after = read_elf(alloc, &bytes, true).expect(&rt, "an image to run");
    same(&rt, &before, &after);
    Ok(())
}

#[test]
fn sixty_segments(rt: HostRuntime) -> Result<(), Fail> {
    let alloc = rt.alloc();
    let mut programs = vec![in alloc; LOAD]?;
    for number in 1..60u64 {
        programs.push(Program {
            address: 0x1_0000 + 0x1000 * number,
            file_size: 1,
            memory_size: 1,
            ..LOAD
        })?;
    }
    programs.push(FRAMES)?;
    programs.push(Program {
        offset: 0xe00,
        ..RUNTIME
    })?;
    let file = file_with(alloc, &programs, 0xe00, 0x1000)?;
    let bytes = written(&rt, alloc, &file)?;
    assert_eq!(rt; bytes.len(), 0x3c001);
    let before = read_elf(alloc, &file, true).expect(&rt, "an image to run");
    let after = read_elf(alloc, &bytes, true).expect(&rt, "an image to run");
    assert_eq!(rt; after.segments.parts.len(), 60);
    same(&rt, &before, &after);
    Ok(())
}
