// Runs that come to their end.
use crate::image::Code;
use crate::run::runs_as;
use crate::{handlers, plain_calls, specifications, terminates, throws, unwinds};
use cxa_runtime::End;
use std::alloc::{AllocError, Global};
use std::test::Fail;

/// An image, what it writes, and how it ends.
pub struct Trial {
    pub name: &'static str,
    pub code: Code,
    pub lines: &'static str,
    pub end: End,
}

// The first trial that goes otherwise.
fn wrong_among(alloc: Global, trials: &[Trial]) -> Result<Option<&'static str>, AllocError> {
    for trial in trials {
        if !runs_as(alloc, &trial.code, trial.end, trial.lines)? {
            return Ok(Some(trial.name));
        }
    }
    Ok(None)
}

#[test]
fn in_one_function(rt: HostRuntime) -> Result<(), Fail> {
    assert_eq!(rt; wrong_among(rt.alloc(), handlers::rows())?, None);
    Ok(())
}

#[test]
fn across_functions(rt: HostRuntime) -> Result<(), Fail> {
    assert_eq!(rt; wrong_among(rt.alloc(), throws::rows())?, None);
    Ok(())
}

#[test]
fn forced_unwinds(rt: HostRuntime) -> Result<(), Fail> {
    assert_eq!(rt; wrong_among(rt.alloc(), unwinds::rows())?, None);
    Ok(())
}

#[test]
fn calls_of_terminate(rt: HostRuntime) -> Result<(), Fail> {
    assert_eq!(rt; wrong_among(rt.alloc(), terminates::rows())?, None);
    Ok(())
}

#[test]
fn what_a_list_says(rt: HostRuntime) -> Result<(), Fail> {
    assert_eq!(rt; wrong_among(rt.alloc(), specifications::rows())?, None);
    Ok(())
}

#[test]
fn without_an_exception(rt: HostRuntime) -> Result<(), Fail> {
    assert_eq!(rt; wrong_among(rt.alloc(), plain_calls::rows())?, None);
    Ok(())
}
