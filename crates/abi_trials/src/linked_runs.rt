// The unit and the runtime's own functions as a linked image.
use crate::op::START;
use crate::run::{Image, image_runs_as};
use crate::stub_image::{STUBS, frame_of, table_of};
use crate::stub_runs::TRIALS;
use crate::stub_unit::{FUNCTIONS, Function, JUMP};
use eh_bytes::{Emitted, EmittedFunc, LsdaList, RowName, TypeRow};
use elf_image::{Elf, read_elf};
use image_link::link;
use std::alloc::{AllocError, Global};
use std::process::Abort;
use std::test::Fail;
use table_check::{Summary, check_image};

fn count(items: usize) -> u32 {
    u32::try_from(items).unwrap_or(0)
}

// A table with the numbers of types in place of the addresses of their records.
fn unlinked_table(alloc: Global, function: &Function) -> Result<LsdaList, AllocError> {
    let mut table = table_of(alloc, function)?;
    let mut types = Vec::new(alloc);
    for address in function.types {
        let number = STUBS.wrapping_sub(*address) / 24;
        types.push(if *address == 0 { 0 } else { number })?;
    }
    table.types = types;
    Ok(table)
}

fn type_row(alloc: Global, kind: u32, name: &str) -> Result<TypeRow, AllocError> {
    Ok(TypeRow {
        kind,
        name: RowName::new(name.as_bytes().to_vec(alloc)?),
        base: None,
    })
}

fn emitted_of(alloc: Global) -> Result<Emitted, AllocError> {
    let mut code = JUMP.to_vec(alloc)?;
    let mut functions = Vec::new(alloc);
    for function in FUNCTIONS {
        functions.push(EmittedFunc {
            name: RowName::new(Vec::new(alloc)),
            first: count(code.len()),
            words: count(function.words.len()),
            table: unlinked_table(alloc, function)?,
            moves: frame_of(alloc, 0, function.frame)?,
        })?;
        code.extend_from_slice(function.words)?;
    }
    let mut types = Vec::new(alloc);
    types.push(type_row(alloc, 1, "int")?)?;
    types.push(type_row(alloc, 3, "std::bad_exception")?)?;
    types.push(type_row(alloc, 2, "C")?)?;
    Ok(Emitted {
        code,
        functions,
        types,
        globals: [7, -2].to_vec(alloc)?,
        tokens: 100,
    })
}

// The image's memory as one part.
fn image_of(alloc: Global, elf: &Elf) -> Result<Option<Image>, AllocError> {
    let mut bytes = Vec::new(alloc);
    for part in elf.segments.parts.iter() {
        bytes.resize(part.address.wrapping_sub(START) as usize, 0)?;
        bytes.extend_from_slice(part.bytes.as_slice())?;
    }
    Ok(
        elf.runtime.map(|places| Image {
            bytes,
            entry: elf.entry,
            header: elf.frame_header,
            places,
        }),
    )
}

// The first trial that goes otherwise, by what it reads.
fn wrong_with(alloc: Global, elf: &Elf) -> Result<Option<&'static str>, AllocError> {
    for trial in TRIALS {
        let Some(image) = image_of(alloc, elf)? else {
            return Ok(Some("no record for the runtime"));
        };
        if !image_runs_as(alloc, image, trial.input, trial.end, trial.lines)? {
            return Ok(Some(trial.input));
        }
    }
    Ok(None)
}

// By hand: two globals end at the page at 0x11000, three records of 24 bytes stand before the code, and
// names begin at the next page.
fn has_segments(rt: &impl Abort, elf: &Elf) {
    let wanted = [
        (0x1_0ff8, true, false),
        (0x1_1000, false, false),
        (0x1_1048, false, true),
        (0x1_2000, false, false),
    ];
    assert_eq!(rt; elf.segments.parts.len(), wanted.len());
    for (part, (address, write, exec)) in elf.segments.parts.iter().zip(wanted) {
        assert_eq!(rt; part.address, address);
        assert_eq!(rt; part.write, write);
        assert_eq!(rt; part.exec, exec);
    }
}

// What the image holds at an address.
fn has_bytes(rt: &impl Abort, elf: &Elf, address: u64, wanted: &[u8]) {
    let bytes = elf.segments.bytes_at(address).expect(rt, "a segment");
    assert!(rt; bytes.starts_with(wanted));
}

#[test]
fn linked_unit(rt: HostRuntime) -> Result<(), Fail> {
    let alloc = rt.alloc();
    let file = link(alloc, &emitted_of(alloc)?)?;
    let summary = Summary {
        cies: 1,
        frames: 12,
        tables: 12,
        sites: 21,
    };
    assert_eq!(rt;
        check_image(alloc, file.as_slice()).expect(&rt, "a clean image"),
        summary
    );
    let elf = read_elf(alloc, file.as_slice(), true).expect(&rt, "an image to run");
    has_segments(&rt, &elf);
    assert_eq!(rt; elf.entry, 0x1_1048);
    has_bytes(&rt, &elf, 0x1_0ff8, &[0xfe, 0xff, 0xff, 0xff, 7, 0, 0, 0]);
    // The record of C, and its name behind the two others.
    has_bytes(
        &rt,
        &elf,
        0x1_1000,
        &[2, 0, 0, 0, 0, 0, 0, 0, 0x17, 0x20, 1, 0, 0, 0, 0, 0],
    );
    has_bytes(&rt, &elf, 0x1_2000, b"int\0std::bad_exception\0C\0");
    assert_eq!(rt; wrong_with(alloc, &elf)?, None);
    Ok(())
}
