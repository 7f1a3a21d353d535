//! Says of each row of the files that are named whether its source is accepted, or under which number and at which place it is
//! refused: `front_rows FILE..`.
//!
//! A row is a line `NUMBER SOURCE`, and a line `# ..` is of what stands below it. The number and the `@` in the source are what must
//! come, and are not looked at here. The sources of a file whose name ends in `11.txt` are read by ISO/IEC 14882:2011, others by 2003.
#![tactic(auto)]

use cxx_ast::standard::Std;
use cxx_front::checked;
use std::alloc::{AllocError, Global};
use std::{env, fs, io};

// How many bytes a source has at most.
const MOST_BYTES: usize = 1_048_576;

// A source without the mark before the place where it is refused.
fn unmarked(alloc: Global, marked: &str) -> Result<String, AllocError> {
    match marked.split_once('@') {
        Some((before, behind)) => format!(in alloc; "{before}{behind}"),
        None => String::from_str(alloc, marked),
    }
}

// The standard by which the sources of a file are read.
fn standard_of(file: &str) -> Std {
    if file.ends_with("11.txt") {
        Std::Cxx11
    } else {
        Std::Cxx03
    }
}

// What the front end says of a source.
fn answer_to(alloc: Global, source: &str, standard: Std) -> Result<String, AllocError> {
    let bytes = source.as_bytes();
    if bytes.len() > MOST_BYTES {
        return String::from_str(alloc, "too long");
    }
    match checked(alloc, bytes, standard) {
        Ok(_) => String::from_str(alloc, "accepted"),
        Err(error) => format!(in alloc; "{error}"),
    }
}

fn main(rt: HostRuntime) -> io::Result<()> {
    let alloc = rt.alloc();
    for file in env::args(&rt)?.skip(1) {
        let text = fs::read_to_string(&rt, file.as_str())?;
        for (before, line) in text.lines().enumerate() {
            if let Some((number, marked)) = line.split_once(' ')
                && number != "#"
            {
                let source = unmarked(alloc, marked)?;
                let answer = answer_to(alloc, source.as_str(), standard_of(file.as_str()))?;
                println!(rt; "{file}:{} {answer}", before.wrapping_add(1))?;
            }
        }
    }
    Ok(())
}
