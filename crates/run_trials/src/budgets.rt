// Runs under each budget.
use crate::code::COUNTS;
use crate::file::{PARTS, file_of};
use crate::runs::{Outcome, ran_of};
use eh_outer::MemSink;
use eh_run::{End, Ran};
use std::alloc::{AllocError, Global};
use std::test::Fail;

// The lines of the ints from 30 down that the first steps print: the first in step 5, and each other
// six steps behind the one before.
fn lines_of(alloc: Global, steps: u64) -> Result<String, AllocError> {
    let mut lines = String::new(alloc);
    let mut step = 5u64;
    for i in 0..30u8 {
        if step <= steps {
            lines.push_str(&format!(in alloc; "{}\n", 30u8.wrapping_sub(i))?)?;
        }
        step = step.wrapping_add(6);
    }
    Ok(lines)
}

// The program exits in step 185.
fn ran_in(max: u64) -> Ran {
    if max < 185 {
        Ran {
            end: End::Budget,
            count: max,
        }
    } else {
        Ran {
            end: End::Exit(7),
            count: 185,
        }
    }
}

#[test]
fn each_is_a_front(rt: HostRuntime) -> Result<(), Fail> {
    let alloc = rt.alloc();
    let file = file_of(alloc, COUNTS, 30, PARTS)?;
    for max in 1..201u64 {
        let mut sink = MemSink::new(alloc, 0x200, Vec::new(alloc))?;
        let outcome = ran_of(alloc, file.as_slice(), max, &mut sink)?;
        assert_eq!(rt; outcome, Outcome::Ran(ran_in(max)), "{max} steps");
        let lines = lines_of(alloc, max)?;
        assert_eq!(rt; sink.bytes(), lines.as_bytes(), "{max} steps");
    }
    Ok(())
}
