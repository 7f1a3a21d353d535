// Runs through each way of the runtime's own functions, with lines worked out by hand.
use crate::image::HEADER;
use crate::run::{Image, image_runs_as};
use crate::stub_image::{STUBS, bytes_of};
use crate::stub_unit::BAD_EXCEPTION;
use cxa_runtime::End;
use eh_bytes::RuntimeRecord;
use rt_stubs::stubs;
use std::alloc::{AllocError, Global};
use std::test::Fail;

/// What main reads, what the run writes, and how it ends.
///
/// By `d` an object is thrown whose destructor throws when its handler is left. By `t` what a terminate
/// handler throws meets an exception that nothing handles. By another byte, and `s` or `b` behind it,
/// an exception comes to the specification `throw(int)`, or `throw(int, std::bad_exception)`, with an
/// unexpected handler that comes back (`r`), throws an int (`i`), throws an object of a class (`c`),
/// or cancels (`x`), or with none (`-`). Main's handler prints its selector, 1 for an int and 2 for
/// `std::bad_exception`.
pub struct Trial {
    pub input: &'static str,
    pub lines: &'static str,
    pub end: End,
}

pub static TRIALS: &[Trial] = &[
    Trial {
        input: "d",
        lines: "! make 1\n! enter 1\n! leave 1\n! destroy 1\n! make 2\n! free 1\n! enter 2\n! leave 2\n! destroy 2\n! free 2\n2\n",
        end: End::Exit(0),
    },
    Trial {
        input: "t",
        lines: "! make 1\n! enter 1\n! make 2\n",
        end: End::Aborted,
    },
    Trial {
        input: "-s",
        lines: "! make 1\n! enter 1\n",
        end: End::Aborted,
    },
    Trial {
        input: "rs",
        lines: "! make 1\n! enter 1\n",
        end: End::Aborted,
    },
    Trial {
        input: "is",
        lines: "! make 1\n! enter 1\n! make 2\n! enter 2\n! leave 2\n! leave 1\n! destroy 1\n! free 1\n! enter 2\n1\n! leave 2\n! destroy 2\n! free 2\n",
        end: End::Exit(0),
    },
    Trial {
        input: "cs",
        lines: "! make 1\n! enter 1\n! make 2\n! enter 2\n",
        end: End::Aborted,
    },
    Trial {
        input: "cb",
        lines: "! make 1\n! enter 1\n! make 2\n! enter 2\n! make 3\n! leave 2\n! destroy 2\n! free 2\n! leave 1\n! destroy 1\n! free 1\n! enter 3\n2\n! leave 3\n! destroy 3\n! free 3\n",
        end: End::Exit(0),
    },
    Trial {
        input: "xs",
        lines: "! make 1\n! enter 1\n! leave 1\n! destroy 1\n! free 1\n",
        end: End::Exit(9),
    },
];

fn image_of(alloc: Global) -> Result<Image, AllocError> {
    let placed = stubs(alloc, STUBS)?;
    Ok(Image {
        entry: placed.start,
        header: HEADER,
        places: RuntimeRecord {
            terminate: placed.terminate,
            bad_exception: BAD_EXCEPTION,
        },
        bytes: bytes_of(alloc, placed.emitted)?,
    })
}

// The first trial that goes otherwise, by what it reads.
fn wrong_among(alloc: Global, trials: &[Trial]) -> Result<Option<&'static str>, AllocError> {
    for trial in trials {
        if !image_runs_as(alloc, image_of(alloc)?, trial.input, trial.end, trial.lines)? {
            return Ok(Some(trial.input));
        }
    }
    Ok(None)
}

#[test]
fn stubs_in_each_way(rt: HostRuntime) -> Result<(), Fail> {
    assert_eq!(rt; wrong_among(rt.alloc(), TRIALS)?, None);
    Ok(())
}
