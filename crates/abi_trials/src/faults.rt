// Runs that end with a fault of a call or of a walk.
use crate::image::{Code, Function};
use crate::op::{Op, START};
use crate::run::runs_as;
use crate::{call_faults, no_object, table_faults, walk_faults};
use cxa_runtime::End;
use rv64_isa::FaultKind;
use std::alloc::{AllocError, Global};
use std::test::Fail;

/// An image, what it writes, and where it ends, so far behind the first instruction.
pub struct Row {
    pub name: &'static str,
    pub functions: &'static [Function],
    pub at: u64,
    pub lines: &'static str,
}

fn runs_so(alloc: Global, row: &Row, kind: FaultKind) -> Result<bool, AllocError> {
    let code = Code {
        functions: row.functions,
        stub: &[Op::Runtime(16)],
        list: &[1],
    };
    let end = End::Fault(kind, START.wrapping_add(row.at));
    runs_as(alloc, &code, end, row.lines)
}

// The first row that goes otherwise.
fn wrong_among(
    alloc: Global,
    rows: &[Row],
    kind: FaultKind,
) -> Result<Option<&'static str>, AllocError> {
    for row in rows {
        if !runs_so(alloc, row, kind)? {
            return Ok(Some(row.name));
        }
    }
    Ok(None)
}

#[test]
fn of_an_object(rt: HostRuntime) -> Result<(), Fail> {
    let wrong = wrong_among(rt.alloc(), call_faults::rows(), FaultKind::Call)?;
    assert_eq!(rt; wrong, None);
    let wrong = wrong_among(rt.alloc(), no_object::rows(), FaultKind::Call)?;
    assert_eq!(rt; wrong, None);
    Ok(())
}

#[test]
fn of_a_table(rt: HostRuntime) -> Result<(), Fail> {
    let wrong = wrong_among(rt.alloc(), table_faults::rows(), FaultKind::Call)?;
    assert_eq!(rt; wrong, None);
    Ok(())
}

#[test]
fn of_a_walk(rt: HostRuntime) -> Result<(), Fail> {
    let wrong = wrong_among(rt.alloc(), walk_faults::rows(), FaultKind::Walk)?;
    assert_eq!(rt; wrong, None);
    Ok(())
}
