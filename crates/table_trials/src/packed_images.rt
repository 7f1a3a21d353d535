// Images made by hand, of one function and one table, before and after; the bytes after come from another program.
use elf_image::ImageError;
use lsda_pack::{Packed, pack_image};
use std::alloc::{AllocError, Global};
use std::test::Fail;
use table_forms::Reason;

// The headers, the frames, a table and code: 304 bytes.
static FRONT: &[u8] = b"\x7fELF\x02\x01\x01\0\0\0\0\0\0\0\0\0\x02\0\xf3\0\x01\0\0\0\
    \x0c\x01\x01\0\0\0\0\0@\0\0\0\0\0\0\0\0\0\0\0\0\0\0\0\
    \0\0\0\0@\08\0\x02\0\0\0\0\0\0\0\x01\0\0\0\x05\0\0\0\
    \0\0\0\0\0\0\0\0\0\0\x01\0\0\0\0\0\0\0\x01\0\0\0\0\0\
    0\x01\0\0\0\0\0\00\x01\0\0\0\0\0\0\0\x10\0\0\0\0\0\0\
    P\xe5td\x04\0\0\0\xb0\0\0\0\0\0\0\0\xb0\0\x01\0\0\0\0\0\
    \xb0\0\x01\0\0\0\0\0\x14\0\0\0\0\0\0\0\x14\0\0\0\0\0\0\0\
    \x04\0\0\0\0\0\0\0\x01\x1b\x03;\x10\0\0\0\x01\0\0\0\x5c\0\0\0\
    ,\0\0\0\x14\0\0\0\0\0\0\0\x01zLR\0\x04x\x01\x02\x1b\x1b\x0c\
    \x02\0\0\0\x18\0\0\0\x1c\0\0\0(\0\0\0$\0\0\0\x04\x0f\0\0\
    \0A\x0e\x10\x81\x01\0\0\0\0\0\0\xff\x1b\x0d\x01\x04\x10\x08\x20\x01\x01\0\0\
    \0\0\0\0\x13\0\0\0\x13\0\0\0\x13\0\0\0\x13\0\0\0\x13\0\0\0\
    \x13\0\0\0\x13\0\0\0\x13\0\0\0\x13\0\0\0";

// Where the front says how long the file is, twice, and how long its function.
const LENGTHS: [usize; 2] = [96, 104];

const FUNCTION: usize = 237;

// An image whose function has this length, with what follows the front.
fn image(alloc: Global, function: u8, table: &[u8]) -> Result<Vec<u8>, AllocError> {
    let mut bytes = FRONT.to_vec(alloc)?;
    bytes.extend_from_slice(table)?;
    let length = (bytes.len() % 256) as u8;
    for place in LENGTHS {
        bytes[place] = length;
    }
    bytes[FUNCTION] = function;
    Ok(bytes)
}

// What a table becomes that gets shorter, and how many bytes that saves.
static CASES: &[(&str, &[u8], &[u8], u64)] = &[
    (
        "neighbouring sites that say the same",
        b"\xff\x1b\x1d\x01\x10\0\x08\0\0\x08\x08\0\0\x10\x04\x20\x01\x14\x04\x20\x03\x01\0\x01\0\0\0\0\0\0\0\0",
        b"\xff\x1b\x11\x01\x08\0\x10\0\0\x10\x08\x20\x01\x01\0\0\0\0\0\0\0\0\0\0\0\0\0\0\0\0\0\0",
        12,
    ),
    (
        "chains that end alike",
        b"\xff\x1b1\x01\x10\0\x04\x20\x01\x04\x04\x1c\x07\x08\x04\x20\x0b\x0c\x04\x18\x0d\x01\x01\x02\x01\0\0\x02\x01\0\0\0\0\x03\x01\x02\x01\0\0\0\xc8\xfe\xff\xff\xb4\xfe\xff\xff\0\0\0\0",
        b"\xff\x1b)\x01\x10\0\x04\x20\x01\x04\x04\x1c\x03\x08\x04\x20\x05\x0c\x04\x18\x07\x01\x01\x02\x01\0\0\x03{\0\0\0\xd0\xfe\xff\xff\xbc\xfe\xff\xff\0\0\0\0\0\0\0\0\0\0\0\0",
        8,
    ),
    (
        "a chain that stands twice, beside lists",
        b"\xff\x1b!\x01\x0c\0\x04\x20\x01\x04\x08\x20\x03\x0c\x04\x20\x05\x7f\0|\0\x7f\0\0\xe8\xfe\xff\xff\xd4\xfe\xff\xff\xc0\xfe\xff\xff\x01\x02\0\x02\0",
        b"\xff\x1b\x1d\x01\x0c\0\x04\x20\x01\x04\x08\x20\x03\x0c\x04\x20\x01\x7f\0|\0\0\0\0\xd8\xfe\xff\xff\xc4\xfe\xff\xff\x01\x02\0\x02\0\0\0\0\0",
        4,
    ),
    (
        "a type that nothing names",
        b"\xff\x1b%\x01\x0c\0\x04\x20\x01\x04\x04\x20\x03\x08\x04\x20\x05\x03\0\x01\0\x03\0\0\xf8\xfe\xff\xff\xe4\xfe\xff\xff\xd0\xfe\xff\xff\xbc\xfe\xff\xff",
        b"\xff\x1b!\x01\x0c\0\x04\x20\x01\x04\x04\x20\x03\x08\x04\x20\x01\x03\0\x01\0\0\0\0\xe8\xfe\xff\xff\0\0\0\0\xc0\xfe\xff\xff\0\0\0\0",
        4,
    ),
];

// An image packed.
fn made(alloc: Global, image: &[u8]) -> Result<Packed, Fail> {
    match pack_image(alloc, image) {
        Err(_) => Err(Fail::new("the image is refused")),
        Ok(packed) => Ok(packed),
    }
}

// The numbers of its tables, of the packed ones, and of the bytes saved.
fn numbers(packed: &Packed) -> (u64, u64, u64) {
    (packed.tables, packed.packed, packed.saved)
}

#[test]
fn tables_that_get_shorter_and_then_stay(rt: HostRuntime) -> Result<(), Fail> {
    let alloc = rt.alloc();
    for (name, before, after, saved) in CASES {
        let packed = made(alloc, image(alloc, 67, before)?.as_slice())?;
        assert_eq!(rt; packed.bytes, image(alloc, 67, after)?, "{name}");
        assert_eq!(rt; numbers(&packed), (1, 1, *saved), "{name}");
        let again = made(alloc, packed.bytes.as_slice())?;
        assert_eq!(rt; again.bytes, packed.bytes, "{name}");
        assert_eq!(rt; numbers(&again), (1, 0, 0), "{name}");
    }
    Ok(())
}

#[test]
fn tables_that_stay_and_refusals(rt: HostRuntime) -> Result<(), Fail> {
    let alloc = rt.alloc();
    // The table of the front is as short as it can be.
    let worked = image(alloc, 15, b"")?;
    let packed = made(alloc, worked.as_slice())?;
    assert_eq!(rt; packed.bytes, worked);
    assert_eq!(rt; numbers(&packed), (1, 0, 0));
    // An entry that names a word of its own table.
    let own = image(
        alloc,
        67,
        b"\xff\x9b\x0d\x01\x04\0\x04\x20\x01\x01\0\0\xfc\xff\xff\xff\0\0\0\0\0\0\0\0",
    )?;
    let refused = ImageError::Refused {
        reason: Reason::TableShared,
        place: 312,
        location: 0,
        other: 0,
    };
    match pack_image(alloc, own.as_slice()) {
        Err(error) => assert_eq!(rt; error, refused),
        Ok(_) => return Err(Fail::new("the image is packed")),
    }
    Ok(())
}
