// Images of as many segments as a file may have program headers for, and of one more.
use crate::code::THROWS;
use crate::file::{HEADER, Load, START, file_of};
use crate::runs::{Outcome, ran_of};
use eh_outer::MemSink;
use eh_run::{End, Ran};
use std::alloc::{AllocError, Global};
use std::test::Fail;

// Pieces of the memory: the first address, the one behind the last, the size of each piece, and their flags. Code
// and the stub word by word, the type record in words of eight bytes, each exception table, the frames and their
// header each whole, and what stands behind the header and behind the int in two bytes each.
static PIECES: &[(u64, u64, u64, u32)] = &[
    (START, 0x1_0198, 4, 5),
    (0x1_0198, 0x1_01b0, 8, 4),
    (0x1_01b0, 0x1_01f0, 0x20, 4),
    (0x1_01f0, HEADER, 0x58, 4),
    (HEADER, 0x1_0264, 0x1c, 4),
    (0x1_0264, 0x1_0280, 2, 4),
    (0x1_0280, 0x1_0284, 4, 6),
    (0x1_0284, 0x1_0288, 2, 6),
];

fn pieces(alloc: Global) -> Result<Vec<Load>, AllocError> {
    let mut loads = Vec::new(alloc);
    for &(start, end, size, flags) in PIECES {
        for at in start..end {
            if at.wrapping_sub(start).checked_rem(size) == Some(0) {
                loads.push((at, at.wrapping_add(size), flags))?;
            }
        }
    }
    Ok(loads)
}

// Beside the segments, two program headers name the frames' header and the record for the runtime.
#[test]
fn of_64_program_headers(rt: HostRuntime) -> Result<(), Fail> {
    let alloc = rt.alloc();
    let mut loads = pieces(alloc)?;
    assert_eq!(rt; loads.len(), 62);
    let file = file_of(alloc, THROWS, 3, loads.as_slice())?;
    let mut sink = MemSink::new(alloc, 0x200, Vec::new(alloc))?;
    let ran = Ran {
        end: End::Exit(0),
        count: 25,
    };
    assert_eq!(rt;
        ran_of(alloc, file.as_slice(), 1000, &mut sink)?,
        Outcome::Ran(ran)
    );
    let lines = b"! make 1\n! enter 1\n5\n! leave 1\n! destroy 1\n! free 1\n";
    assert_eq!(rt; sink.bytes(), lines.as_slice());
    loads.push((0x1_0288, 0x1_0288, 6))?;
    let file = file_of(alloc, THROWS, 3, loads.as_slice())?;
    let outcome = ran_of(alloc, file.as_slice(), 1000, &mut sink)?;
    assert_eq!(rt; outcome, Outcome::Refused(63, 56));
    Ok(())
}
