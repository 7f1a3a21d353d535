// Worked images by hand from the ELF-64 Object File Format, DWARF 5 and the LSB Core's "Exception
// Frames", and each refusal by a change of one.
use std::alloc::Global;
use std::test::Fail;
use table_check::{ImageError, Summary, check_image};

// Headers up to 0xb0, the frames' header, at 0xc4 the frames, at 0xfc a table, and at 0x10c code. It
// is loaded at 0x10000.
pub static WORKED: &[u8] = b"\x7fELF\x02\x01\x01\0\0\0\0\0\0\0\0\0\
\x02\0\xf3\0\x01\0\0\0\x0c\x01\x01\0\0\0\0\0\
@\0\0\0\0\0\0\0\0\0\0\0\0\0\0\0\
\0\0\0\0@\08\0\x02\0\0\0\0\0\0\0\
\x01\0\0\0\x05\0\0\0\0\0\0\0\0\0\0\0\
\0\0\x01\0\0\0\0\0\0\0\x01\0\0\0\0\0\
0\x01\0\0\0\0\0\00\x01\0\0\0\0\0\0\
\0\x10\0\0\0\0\0\0P\xe5td\x04\0\0\0\
\xb0\0\0\0\0\0\0\0\xb0\0\x01\0\0\0\0\0\
\xb0\0\x01\0\0\0\0\0\x14\0\0\0\0\0\0\0\
\x14\0\0\0\0\0\0\0\x04\0\0\0\0\0\0\0\
\x01\x1b\x03;\x10\0\0\0\x01\0\0\0\\\0\0\0\
,\0\0\0\x14\0\0\0\0\0\0\0\x01zLR\
\0\x04x\x01\x02\x1b\x1b\x0c\x02\0\0\0\x18\0\0\0\
\x1c\0\0\0(\0\0\0$\0\0\0\x04\x0f\0\0\
\0A\x0e\x10\x81\x01\0\0\0\0\0\0\xff\x1b\x0d\x01\
\x04\x10\x08 \x01\x01\0\0\0\0\0\0\x13\0\0\0\
\x13\0\0\0\x13\0\0\0\x13\0\0\0\x13\0\0\0\
\x13\0\0\0\x13\0\0\0\x13\0\0\0\x13\0\0\0";

// For any place in memory: frames at 0xf0 of three CIEs and three FDEs, of which one names a table.
static ANYWHERE: &[u8] = b"\x7fELF\x02\x01\x01\0\0\0\0\0\0\0\0\0\
\x03\0\xf3\0\x01\0\0\0\xe0\x01\0\0\0\0\0\0\
@\0\0\0\0\0\0\0\0\0\0\0\0\0\0\0\
\0\0\0\0@\08\0\x03\0\0\0\0\0\0\0\
\x01\0\0\0\x05\0\0\0\0\0\0\0\0\0\0\0\
\0\0\0\0\0\0\0\0\0\0\0\0\0\0\0\0\
\x20\x02\0\0\0\0\0\0\x20\x02\0\0\0\0\0\0\
\0\0\0\0\0\0\0\0\x01\0\0\0\x06\0\0\0\
\x20\x02\0\0\0\0\0\0\x20\x12\0\0\0\0\0\0\
\x20\x12\0\0\0\0\0\0\x08\0\0\0\0\0\0\0\
\x10\0\0\0\0\0\0\0\0\0\0\0\0\0\0\0\
P\xe5td\x04\0\0\0\xe8\0\0\0\0\0\0\0\
\xe8\0\0\0\0\0\0\0\xe8\0\0\0\0\0\0\0\
\x08\0\0\0\0\0\0\0\x08\0\0\0\0\0\0\0\
\0\0\0\0\0\0\0\0\x01\x1b\xff\xff\x04\0\0\0\
\x10\0\0\0\0\0\0\0\x01zR\0\x01|\x01\x01\
\x1b\x0c\x02\0\x1c\0\0\0\x18\0\0\0\xd4\0\0\0\
\x10\0\0\0\0D\x0e\x10\x81\x04\x0aD\x0e\0\xc1D\
\x0b\0\0\0\x18\0\0\0\0\0\0\0\x03zPL\
R\0\x02x\x01\x07\x1b\0\0\0\0\x1b\x1b\x0c\x02\0\
\x18\0\0\0\x20\0\0\0\xa8\0\0\00\0\0\0\
\x04G\0\0\0B\x0e\x20\x88\x02\0\0\x20\0\0\0\
\0\0\0\0\x01zRS\0\x01|\x01\x01\x1b\x0c\x08\
\x10\x07\x01\x08\x02\x09\x09\x05\x14\x12\x01\x05(\x02\0\0\
\x10\0\0\0(\0\0\0P\0\0\0\x08\0\0\0\
\0\0\0\0\0\0\0\0\xff\x9b9\x03'\0\0\0\
\0\x08\0\0\0\0\0\0\0\0\x08\0\0\0\x08\0\
\0\0\x20\0\0\0\x03\x10\0\0\0\x10\0\0\0$\
\0\0\0\x01\x01\0\x7f\x01\0{\0\0\0\0\0\0\
P\x10\0\0\x02\0\0\0\x13\0\0\0\x13\0\0\0\
\x13\0\0\0\x13\0\0\0\x13\0\0\0\x13\0\0\0\
\x13\0\0\0\x13\0\0\0\x13\0\0\0\x13\0\0\0\
\x13\0\0\0\x13\0\0\0\x13\0\0\0\x13\0\0\0\
\x13\0\0\0\x13\0\0\0\x13\0\0\0\x13\0\0\0\
4\x12\0\0\0\0\0\0";

// A place, the bytes that are put there, and the refusal. The first bytes of the table are those of
// 0xfc, those of its call-site table from 0x101 on.
static CHANGES: &[(usize, &[u8], (u8, u64))] = &[
    (0x03, b"\0", (60, 0)),
    (0x04, b"\x01", (61, 4)),
    (0x12, b"\x3e", (62, 18)),
    (0x10, b"\x01", (63, 16)),
    (0x38, b"\0", (63, 56)),
    (0x60, b"\x31", (64, 64)),
    (0x78, b"\x51", (66, 0)),
    (0x78, b"\x31\x58\x48\x6e", (66, 0)),
    (0xb0, b"\x02", (51, 176)),
    (0xb1, b"\x03", (3, 177)),
    (0xb2, b"\xff", (3, 178)),
    (0xb8, b"\xff", (50, 304)),
    (0xbc, b"\x60", (59, 188)),
    (0xc4, b"\xff", (50, 196)),
    (0xcc, b"\x02", (51, 204)),
    (0xce, b"\x58", (52, 206)),
    (0xe0, b"\x18", (53, 224)),
    (0xf2, b"\x3f", (54, 242)),
    (0xf2, b"\x0f", (55, 242)),
    (0xf2, b"\x0b", (56, 242)),
    (0xf2, b"\x07\x40", (58, 243)),
    (0xfd, b"\x50", (3, 253)),
    (0xfd, b"\xff\x01\x04\x10\x08\x20\x01\x01\0", (15, 260)),
    (0x100, b"\x08", (4, 261)),
    (0x100, b"\x80\x80\x80\x80\x80\x80\x80\x80\x80\x80", (2, 256)),
    (0x102, b"\x30", (5, 257)),
    (0x103, b"\x7f", (6, 257)),
    (0x104, b"\x10", (7, 257)),
    (0x105, b"\x03", (9, 261)),
    (0x106, b"\x7f", (8, 261)),
    (
        0x105,
        b"\x7f\0\0\0\0\0\0\x01\x01\x01\x01\x01\x01\x01\x01\x01\x01\x01\x01\x01\x01\x01\x01\x01\x01\
\x01\x01\x01\x01\x01\x01\x01\x01\x01\x01\x01\x01\x01\x01\x01\x01\x01\x01",
        (14, 268),
    ),
    (
        0xfd,
        b"\x9b\x0d\x01\x04\x10\x08\x20\x01\x01\0\0\0\0\x10\0",
        (1, 264),
    ),
];

// How many bytes are left, and the refusal.
static CUTS: &[(usize, (u8, u64))] = &[
    (303, (64, 64)),
    (100, (63, 32)),
    (58, (63, 32)),
    (18, (62, 18)),
    (5, (61, 4)),
    (0, (60, 0)),
];

// Changes of the image for any place: a longer region of the second function, which then reaches
// into the third, whose FDE stands at 0x140; the second segment inside the first; its program header
// one of the record for the runtime.
static CHANGES_ANYWHERE: &[(usize, &[u8], (u8, u64))] = &[
    (0x110, b"\x14", (57, 0x140)),
    (0x88, b"\x1f\x02", (65, 0x78)),
    (0x78, b"\x31\x58\x48\x6e", (68, 0x78)),
];

// Three functions of 16 bytes at 0x128 name one table at 0x11c, of two sites; the second has a pad 8 bytes behind its function's start.
static SHARED: &[u8] = b"\x7fELF\x02\x01\x01\0\0\0\0\0\0\0\0\0\
\x02\0\xf3\0\x01\0\0\0\0\0\x01\0\0\0\0\0\
@\0\0\0\0\0\0\0\0\0\0\0\0\0\0\0\
\0\0\0\0@\08\0\x02\0\0\0\0\0\0\0\
\x01\0\0\0\x05\0\0\0\0\0\0\0\0\0\0\0\
\0\0\x01\0\0\0\0\0\0\0\x01\0\0\0\0\0\
X\x01\0\0\0\0\0\0X\x01\0\0\0\0\0\0\
\0\x10\0\0\0\0\0\0P\xe5td\x04\0\0\0\
\xb0\0\0\0\0\0\0\0\xb0\0\x01\0\0\0\0\0\
\xb0\0\x01\0\0\0\0\0\x08\0\0\0\0\0\0\0\
\x08\0\0\0\0\0\0\0\x04\0\0\0\0\0\0\0\
\x01\x1b\xff\xff\x04\0\0\0\x14\0\0\0\0\0\0\0\
\x01zLR\0\x04x\x01\x02\x1b\x1b\x0c\x02\0\0\0\
\x14\0\0\0\x1c\0\0\0P\0\0\0\x10\0\0\0\
\x04;\0\0\0\0\0\0\x14\0\0\04\0\0\0\
H\0\0\0\x10\0\0\0\x04#\0\0\0\0\0\0\
\x14\0\0\0L\0\0\0@\0\0\0\x10\0\0\0\
\x04\x0b\0\0\0\0\0\0\0\0\0\0\xff\xff\x01\x08\
\0\x04\0\0\x04\x04\x08\0\x13\0\0\0\x13\0\0\0\
\x13\0\0\0\x13\0\0\0\x13\0\0\0\x13\0\0\0\
\x13\0\0\0\x13\0\0\0\x13\0\0\0\x13\0\0\0\
\x13\0\0\0\x13\0\0\0";

static CHANGES_SHARED: &[(usize, &[u8], (u8, u64))] = &[
    // The third function is too short for the table.
    (0x10c, b"\x07", (5, 0x124)),
    // The pad lies behind the code for the third function, or for the second.
    (0x126, b"\x18", (6, 0x124)),
    (0x126, b"\x28", (6, 0x124)),
    (0x126, b"\x0f", (0, 0)),
];

// An image with some bytes changed, cut to a length.
fn changed(
    alloc: Global,
    image: &[u8],
    at: usize,
    bytes: &[u8],
    length: usize,
) -> Result<Vec<u8>, Fail> {
    let mut image = image.to_vec(alloc)?;
    for (i, byte) in bytes.iter().enumerate() {
        if let Some(place) = image.get_mut(at.wrapping_add(i)) {
            *place = *byte;
        }
    }
    image.truncate(length);
    Ok(image)
}

// The number, the place and the locations of the refusal; 0 where there is none.
fn refusal(alloc: Global, image: &[u8]) -> (u8, u64, u64, u64) {
    match check_image(alloc, image) {
        Ok(_) => (0, 0, 0, 0),
        Err(
            ImageError::Refused {
                reason,
                place,
                location,
                other,
            },
        ) => (reason.number(), place, location, other),
        Err(ImageError::NoMemory) => (255, 0, 0, 0),
    }
}

#[test]
fn a_worked_image(rt: HostRuntime) -> Result<(), Fail> {
    let summary = Summary {
        cies: 1,
        frames: 1,
        tables: 1,
        sites: 1,
    };
    assert_eq!(rt; check_image(rt.alloc(), WORKED), Ok(summary));
    Ok(())
}

#[test]
fn an_image_for_any_place(rt: HostRuntime) -> Result<(), Fail> {
    let alloc = rt.alloc();
    let summary = Summary {
        cies: 3,
        frames: 3,
        tables: 1,
        sites: 3,
    };
    assert_eq!(rt; check_image(alloc, ANYWHERE), Ok(summary));
    for &(at, bytes, wanted) in CHANGES_ANYWHERE {
        let found = refusal(alloc, &changed(alloc, ANYWHERE, at, bytes, ANYWHERE.len())?);
        assert_eq!(rt; (found.0, found.1), wanted, "{bytes:?} at {at}");
    }
    Ok(())
}

#[test]
fn changes_of_it(rt: HostRuntime) -> Result<(), Fail> {
    let alloc = rt.alloc();
    for &(at, bytes, wanted) in CHANGES {
        let found = refusal(alloc, &changed(alloc, WORKED, at, bytes, 304)?);
        assert_eq!(rt; (found.0, found.1), wanted, "{bytes:?} at {at}");
    }
    let rows = refusal(
        alloc,
        &changed(alloc, WORKED, 0xbc, b"\x60".as_slice(), 304)?,
    );
    assert_eq!(rt; (rows.2, rows.3), (0x1_0110, 0x1_010c));
    Ok(())
}

#[test]
fn cuts_of_it(rt: HostRuntime) -> Result<(), Fail> {
    let alloc = rt.alloc();
    for &(length, wanted) in CUTS {
        let found = refusal(alloc, &changed(alloc, WORKED, 0, b"".as_slice(), length)?);
        assert_eq!(rt; (found.0, found.1), wanted, "{length} bytes");
    }
    Ok(())
}

#[test]
fn a_table_of_three_functions(rt: HostRuntime) -> Result<(), Fail> {
    let alloc = rt.alloc();
    let summary = Summary {
        cies: 1,
        frames: 3,
        tables: 3,
        sites: 6,
    };
    assert_eq!(rt; check_image(alloc, SHARED), Ok(summary));
    for &(at, bytes, wanted) in CHANGES_SHARED {
        let found = refusal(alloc, &changed(alloc, SHARED, at, bytes, SHARED.len())?);
        assert_eq!(rt; (found.0, found.1), wanted, "{bytes:?} at {at}");
    }
    Ok(())
}
