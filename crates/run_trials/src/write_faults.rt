// Runs whose lines can't be written.
use crate::code::THROWS;
use crate::file::{PARTS, file_of};
use crate::runs::{Outcome, ran_of};
use eh_outer::MemSink;
use eh_run::{End, Ran};
use std::test::Fail;

// What was written before each put, and how many steps were counted before its own: the leaving and
// the destruction are shown in one step.
static PUTS: &[(&str, u64)] = &[
    ("", 5),
    ("! make 1\n", 14),
    ("! make 1\n! enter 1\n", 17),
    ("! make 1\n! enter 1\n5\n", 19),
    ("! make 1\n! enter 1\n5\n! leave 1\n", 19),
    ("! make 1\n! enter 1\n5\n! leave 1\n! destroy 1\n", 21),
];

#[test]
fn at_each_put(rt: HostRuntime) -> Result<(), Fail> {
    let alloc = rt.alloc();
    let file = file_of(alloc, THROWS, 3, PARTS)?;
    let mut put = 0u64;
    for &(lines, count) in PUTS {
        put = put.wrapping_add(1);
        let mut sink = MemSink::new(alloc, 0x200, [put].to_vec(alloc)?)?;
        let outcome = ran_of(alloc, file.as_slice(), 1000, &mut sink)?;
        let ran = Ran {
            end: End::WriteFault,
            count,
        };
        assert_eq!(rt; outcome, Outcome::Ran(ran), "put {put}");
        assert_eq!(rt; sink.bytes(), lines.as_bytes(), "put {put}");
    }
    Ok(())
}
