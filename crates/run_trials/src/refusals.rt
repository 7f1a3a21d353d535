// Files that are refused, by changes of one that is not.
use crate::code::THROWS;
use crate::file::{PARTS, file_of};
use crate::runs::{Outcome, ran_of};
use eh_outer::MemSink;
use eh_run::{End, Ran};
use std::alloc::{AllocError, Global};
use std::test::Fail;

// A place in the file, and the bytes that are put there.
type Change = (usize, &'static [u8]);

// The flags of the segments of exception tables, of frames and of the header; with write.
const TABLES: Change = (0x7c, b"\x06");

const FRAMES: Change = (0xb4, b"\x06");

const HEADER: Change = (0xec, b"\x06");

// The record for the runtime is none.
const NO_RECORD: Change = (0x190, b"\0");

// The program header of the segment of the int stands at 0x120: its address, and its size in memory.
const INT_AT_SLOTS: Change = (0x130, b"\0\0\0\x60");

const INT_TOO_LOW: Change = (0x130, b"\xf8\xff\0\0");

const INT_TOO_LARGE: Change = (0x148, b"\x01\0\0\x04");

// The memory of 0x10100 stands from 0x1e0 on: the exception tables at 0x290 and 0x2b0, the frames at
// 0x2d0, and the header at 0x328.
const NO_TABLE: Change = (0x32a, b"\xff\xff");

const WRONG_ROW: Change = (0x334, b"\xb4");

const WRONG_SITES: Change = (0x293, b"\x1b");

const WRONG_SITES_BEHIND: Change = (0x2b2, b"\x1b");

const NO_CIE: Change = (0x2d8, b"\x09");

// Changes, and the refusal: its number and its place.
static REFUSALS: &[(&[Change], (u8, u64))] = &[
    (&[TABLES], (69, 0x290)),
    (&[FRAMES], (69, 0x2d0)),
    (&[HEADER], (69, 0x328)),
    (&[FRAMES, HEADER], (69, 0x2d0)),
    (&[HEADER, TABLES], (69, 0x290)),
    (&[NO_RECORD], (67, 0)),
    (&[NO_RECORD, TABLES], (67, 0)),
    (&[NO_RECORD, WRONG_ROW], (67, 0)),
    (&[NO_TABLE], (66, 0)),
    (&[NO_TABLE, NO_RECORD], (66, 0)),
    (&[INT_AT_SLOTS], (64, 0x120)),
    (&[INT_TOO_LOW], (64, 0x120)),
    (&[INT_TOO_LARGE], (64, 0x120)),
    (&[INT_AT_SLOTS, NO_RECORD], (67, 0)),
    (&[INT_AT_SLOTS, WRONG_ROW], (64, 0x120)),
    (&[WRONG_ROW], (59, 0x334)),
    (&[WRONG_ROW, HEADER], (59, 0x334)),
    (&[WRONG_ROW, WRONG_SITES], (59, 0x334)),
    (&[WRONG_SITES], (3, 0x293)),
    (&[WRONG_SITES, TABLES], (3, 0x293)),
    (&[WRONG_SITES_BEHIND], (3, 0x2b2)),
    (&[WRONG_SITES_BEHIND, TABLES], (3, 0x2b2)),
    (&[(0, b"\0"), NO_RECORD], (60, 0)),
];

// The headers up to 0xb0, the frames' header, at 0xc4 the frames, at 0xfc a table, and at 0x10c code:
// examples/one_frame.elf, which has no record for the runtime.
static ONE_FRAME: &[u8] = b"\x7fELF\x02\x01\x01\0\0\0\0\0\0\0\0\0\
\x02\0\xf3\0\x01\0\0\0\x0c\x01\x01\0\0\0\0\0\
@\0\0\0\0\0\0\0\0\0\0\0\0\0\0\0\
\0\0\0\0@\08\0\x02\0\0\0\0\0\0\0\
\x01\0\0\0\x05\0\0\0\0\0\0\0\0\0\0\0\
\0\0\x01\0\0\0\0\0\0\0\x01\0\0\0\0\0\
0\x01\0\0\0\0\0\00\x01\0\0\0\0\0\0\
\0\x10\0\0\0\0\0\0P\xe5td\x04\0\0\0\
\xb0\0\0\0\0\0\0\0\xb0\0\x01\0\0\0\0\0\
\xb0\0\x01\0\0\0\0\0\x14\0\0\0\0\0\0\0\
\x14\0\0\0\0\0\0\0\x04\0\0\0\0\0\0\0\
\x01\x1b\x03;\x10\0\0\0\x01\0\0\0\\\0\0\0\
,\0\0\0\x14\0\0\0\0\0\0\0\x01zLR\
\0\x04x\x01\x02\x1b\x1b\x0c\x02\0\0\0\x18\0\0\0\
\x1c\0\0\0(\0\0\0$\0\0\0\x04\x0f\0\0\
\0A\x0e\x10\x81\x01\0\0\0\0\0\0\xff\x1b\x0d\x01\
\x04\x10\x08 \x01\x01\0\0\0\0\0\0\x13\0\0\0\
\x13\0\0\0\x13\0\0\0\x13\0\0\0\x13\0\0\0\
\x13\0\0\0\x13\0\0\0\x13\0\0\0\x13\0\0\0";

/// A file with some bytes changed.
fn changed(alloc: Global, file: &[u8], changes: &[Change]) -> Result<Vec<u8>, AllocError> {
    let mut file = file.to_vec(alloc)?;
    for (at, bytes) in changes {
        for (i, byte) in bytes.iter().enumerate() {
            if let Some(place) = file.get_mut(at.wrapping_add(i)) {
                *place = *byte;
            }
        }
    }
    Ok(file)
}

// What comes of a file whose lines nobody wants.
fn outcome_of(alloc: Global, file: &[u8]) -> Result<Outcome, AllocError> {
    let mut sink = MemSink::new(alloc, 0x200, Vec::new(alloc))?;
    ran_of(alloc, file, 1000, &mut sink)
}

#[test]
fn in_their_order(rt: HostRuntime) -> Result<(), Fail> {
    let alloc = rt.alloc();
    let file = file_of(alloc, THROWS, 3, PARTS)?;
    for &(changes, (number, place)) in REFUSALS {
        let file = changed(alloc, file.as_slice(), changes)?;
        let outcome = outcome_of(alloc, file.as_slice())?;
        assert_eq!(rt; outcome, Outcome::Refused(number, place), "{changes:?}");
    }
    Ok(())
}

#[test]
fn code_and_globals_may_be_written(rt: HostRuntime) -> Result<(), Fail> {
    let alloc = rt.alloc();
    let file = file_of(alloc, THROWS, 3, PARTS)?;
    let file = changed(alloc, file.as_slice(), &[(0x44, b"\x07")])?;
    let ran = Ran {
        end: End::Exit(0),
        count: 25,
    };
    assert_eq!(rt; outcome_of(alloc, file.as_slice())?, Outcome::Ran(ran));
    Ok(())
}

#[test]
fn an_image_without_a_record(rt: HostRuntime) -> Result<(), Fail> {
    let alloc = rt.alloc();
    assert_eq!(rt; outcome_of(alloc, ONE_FRAME)?, Outcome::Refused(67, 0));
    assert_eq!(rt; outcome_of(alloc, b"")?, Outcome::Refused(60, 0));
    Ok(())
}
