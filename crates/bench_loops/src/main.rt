//! Runs one of three loops on the machine for so many steps: `bench_loops LOOP STEPS`.
//!
//! The loops are what `bench/machine.py` times.
#![tactic(auto)]

mod loops;

use eh_bytes::{Segment, Segments};
use loops::words_of;
use rv64_machine::{Machine, Step};
use std::alloc::{AllocError, Global};
use std::{env, io};

const CODE_AT: u64 = 0x1_0000;

// How many bytes the segment of the code has; the loops keep their data behind the code.
const SIZE: usize = 2048;

// A machine that stands at the first of the words.
fn machine_of(alloc: Global, words: &[u32]) -> Result<Machine, AllocError> {
    let mut bytes = Vec::new(alloc);
    for word in words {
        bytes.extend_from_slice(&word.to_le_bytes())?;
    }
    bytes.resize(SIZE, 0)?;
    let mut parts = Vec::new(alloc);
    parts.push(Segment {
        address: CODE_AT,
        bytes,
        file_at: 0,
        write: true,
        exec: true,
    })?;
    let mut machine = Machine::new(alloc, Segments { parts })?;
    machine.set_pc(CODE_AT);
    Ok(machine)
}

// How many of the steps the machine did.
fn steps_of(machine: &mut Machine, steps: u64) -> u64 {
    for done in 0..steps {
        if machine.step() != Step::Done {
            return done;
        }
    }
    steps
}

fn main(rt: HostRuntime) -> io::Result<()> {
    let mut words = env::args(&rt)?.skip(1);
    let name = words.next();
    let count = words.next();
    if let (Some(name), Some(count)) = (name, count)
        && let Ok(steps) = count.parse::<u64>()
    {
        let mut machine = machine_of(rt.alloc(), words_of(name.as_str()))?;
        let done = steps_of(&mut machine, steps);
        println!(rt; "{done} steps, pc {}", machine.pc())?;
    }
    Ok(())
}
