// A small image with one byte after the other changed: it is refused, or runs to an end within the budget.
use crate::code::THROWS;
use crate::file::{WHOLE, file_of};
use crate::runs::{Outcome, ran_of};
use eh_outer::MemSink;
use std::alloc::{AllocError, Global};
use std::test::Fail;

const BUDGET: u64 = 500;

fn is_harmless(outcome: Outcome) -> bool {
    match outcome {
        Outcome::Refused(number, _) => number != 0,
        Outcome::NoMemory => false,
        Outcome::Ran(ran) => ran.count <= BUDGET,
    }
}

// What comes of a file with a byte at a place turned.
fn turned(alloc: Global, file: &[u8], place: usize) -> Result<Outcome, AllocError> {
    let mut file = file.to_vec(alloc)?;
    if let Some(byte) = file.get_mut(place) {
        *byte = !*byte;
    }
    let mut sink = MemSink::new(alloc, 0x4000, Vec::new(alloc))?;
    ran_of(alloc, file.as_slice(), BUDGET, &mut sink)
}

#[test]
fn at_each_byte(rt: HostRuntime) -> Result<(), Fail> {
    let alloc = rt.alloc();
    let file = file_of(alloc, THROWS, 3, WHOLE)?;
    for place in 0..file.len() {
        let outcome = turned(alloc, file.as_slice(), place)?;
        assert!(rt; is_harmless(outcome), "byte {place}: {outcome:?}");
    }
    Ok(())
}
