// Runs to their end: what is written, how the run ends, and how many steps are counted.
use crate::code::{ASKS, COUNTS, ILLEGAL, LOST, SPOILS, THROWS};
use crate::file::{PARTS, file_of};
use eh_outer::{MemSink, Once, Reply};
use eh_run::{End, ImageError, Ran, load, run};
use foreign_host::Host;
use rv64_isa::FaultKind;
use std::alloc::{AllocError, Global};
use std::test::Fail;

/// A program with the replies of its module 0, its input, its budget, and what comes of its run.
struct Trial {
    name: &'static str,
    code: &'static [u32],
    replies: &'static [Reply],
    max: u64,
    trace: bool,
    input: &'static [u8],
    lines: &'static str,
    ran: Ran,
}

static TRIALS: &[Trial] = &[
    Trial {
        name: "an int is thrown and caught, with its events",
        code: THROWS,
        replies: &[],
        max: 1000,
        trace: true,
        input: b"",
        lines: "! make 1\n! enter 1\n5\n! leave 1\n! destroy 1\n! free 1\n",
        ran: Ran {
            end: End::Exit(0),
            count: 25,
        },
    },
    Trial {
        name: "and without them",
        code: THROWS,
        replies: &[],
        max: 1000,
        trace: false,
        input: b"",
        lines: "5\n",
        ran: Ran {
            end: End::Exit(0),
            count: 25,
        },
    },
    Trial {
        name: "an end at the last step that is allowed",
        code: THROWS,
        replies: &[],
        max: 25,
        trace: false,
        input: b"",
        lines: "5\n",
        ran: Ran {
            end: End::Exit(0),
            count: 25,
        },
    },
    Trial {
        name: "one step less",
        code: THROWS,
        replies: &[],
        max: 24,
        trace: false,
        input: b"",
        lines: "5\n",
        ran: Ran {
            end: End::Budget,
            count: 24,
        },
    },
    Trial {
        name: "no step at all",
        code: THROWS,
        replies: &[],
        max: 0,
        trace: true,
        input: b"",
        lines: "",
        ran: Ran {
            end: End::Budget,
            count: 0,
        },
    },
    Trial {
        name: "a global is written",
        code: COUNTS,
        replies: &[],
        max: 1000,
        trace: false,
        input: b"",
        lines: "3\n2\n1\n",
        ran: Ran {
            end: End::Exit(7),
            count: 23,
        },
    },
    Trial {
        name: "a module's reply, and a byte of the input",
        code: ASKS,
        replies: &[Reply::Value(-2)],
        max: 1000,
        trace: true,
        input: b"A",
        lines: "-2\n65\n",
        ran: Ran {
            end: End::Stack,
            count: 12,
        },
    },
    Trial {
        name: "no reply left, and no input",
        code: ASKS,
        replies: &[],
        max: 1000,
        trace: true,
        input: b"",
        lines: "0\n-1\n",
        ran: Ran {
            end: End::Stack,
            count: 12,
        },
    },
    Trial {
        name: "a foreign exception that no site expects",
        code: ASKS,
        replies: &[Reply::Raise(7)],
        max: 1000,
        trace: true,
        input: b"",
        lines: "! foreign 1 0 7\n",
        ran: Ran {
            end: End::Aborted,
            count: 6,
        },
    },
    Trial {
        name: "a word that is no instruction",
        code: ILLEGAL,
        replies: &[],
        max: 1000,
        trace: true,
        input: b"",
        lines: "",
        ran: Ran {
            end: End::Fault(FaultKind::Illegal, 0x1_0100),
            count: 0,
        },
    },
    Trial {
        name: "no such runtime call",
        code: LOST,
        replies: &[],
        max: 1000,
        trace: true,
        input: b"",
        lines: "",
        ran: Ran {
            end: End::Fault(FaultKind::Call, 0x1_0104),
            count: 1,
        },
    },
    Trial {
        name: "a store where nothing may be written",
        code: SPOILS,
        replies: &[],
        max: 1000,
        trace: true,
        input: b"",
        lines: "",
        ran: Ran {
            end: End::Fault(FaultKind::ReadOnly, 0x1_0104),
            count: 1,
        },
    },
];

/// What comes of a file: a refusal by its number and place, want of memory, or a run.
#[derive(Clone, Copy, Debug, PartialEq, Eq)]
pub enum Outcome {
    Refused(u8, u64),
    NoMemory,
    Ran(Ran),
}

fn host_of(alloc: Global, replies: &[Reply]) -> Result<Host<Once>, AllocError> {
    let mut modules = Vec::new(alloc);
    modules.push(Once::new(alloc, replies.to_vec(alloc)?)?)?;
    Ok(Host::new(modules))
}

// Loads the file of a trial and runs it on a sink.
fn outcome_of(alloc: Global, trial: &Trial, sink: &mut MemSink) -> Result<Outcome, AllocError> {
    let file = file_of(alloc, trial.code, 3, PARTS)?;
    let terms = Terms {
        replies: trial.replies,
        input: trial.input,
        max: trial.max,
        trace: trial.trace,
    };
    ran_under(alloc, file.as_slice(), terms, sink)
}

// A refusal, or want of memory.
fn refused_as(error: ImageError) -> Outcome {
    match error {
        ImageError::NoMemory => Outcome::NoMemory,
        ImageError::Refused { reason, place, .. } => Outcome::Refused(reason.number(), place),
    }
}

// What a file is run under.
#[derive(Clone, Copy)]
struct Terms {
    replies: &'static [Reply],
    input: &'static [u8],
    max: u64,
    trace: bool,
}

// Loads a file, and runs it under a budget of at most 1,000 steps.
fn ran_under(
    alloc: Global,
    file: &[u8],
    terms: Terms,
    sink: &mut MemSink,
) -> Result<Outcome, AllocError> {
    let loaded = match load(alloc, file) {
        Err(e) => return Ok(refused_as(e)),
        Ok(loaded) => loaded,
    };
    let mut host = host_of(alloc, terms.replies)?;
    let max = terms.max.min(1000);
    let ran = run(loaded, terms.input, &mut host, max, terms.trace, sink);
    host.close();
    Ok(Outcome::Ran(ran))
}

/// Loads a file, and runs it under a budget of at most 1,000 steps, with its events; there is no
/// input, and no reply of a module.
pub fn ran_of(
    alloc: Global,
    file: &[u8],
    max: u64,
    sink: &mut MemSink,
) -> Result<Outcome, AllocError> {
    let terms = Terms {
        replies: &[],
        input: b"",
        max,
        trace: true,
    };
    ran_under(alloc, file, terms, sink)
}

#[test]
fn to_their_end(rt: HostRuntime) -> Result<(), Fail> {
    let alloc = rt.alloc();
    for trial in TRIALS {
        let mut sink = MemSink::new(alloc, 0x200, Vec::new(alloc))?;
        let outcome = outcome_of(alloc, trial, &mut sink)?;
        assert_eq!(rt; outcome, Outcome::Ran(trial.ran), "{}", trial.name);
        assert_eq!(rt; sink.bytes(), trial.lines.as_bytes(), "{}", trial.name);
    }
    Ok(())
}
