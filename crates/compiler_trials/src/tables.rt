// The tables of small functions are those that were worked out by hand.
use crate::lowered::linear;
use crate::rows::{ROWS, Row};
use landing_pads::unit::{CodeSite, FuncCode};
use std::alloc::{AllocError, Global};
use std::test::Fail;

fn rows() -> &'static [Row] {
    ROWS
}

fn function_of(alloc: Global, row: &Row) -> Result<Option<FuncCode>, AllocError> {
    match linear(alloc, row.source)? {
        None => Ok(None),
        Some(unit) => Ok(unit.functions.into_iter().nth(row.function)),
    }
}

fn sites_of(alloc: Global, row: &Row) -> Result<Vec<CodeSite>, AllocError> {
    let mut sites = Vec::new(alloc);
    for (start, end, pad, filters) in row.sites {
        sites.push(CodeSite {
            start: *start,
            end: *end,
            pad: *pad,
            filters: filters.to_vec(alloc)?,
        })?;
    }
    Ok(sites)
}

fn lists_of(alloc: Global, row: &Row) -> Result<Vec<Vec<u64>>, AllocError> {
    let mut lists = Vec::new(alloc);
    for list in row.lists {
        lists.push(list.to_vec(alloc)?)?;
    }
    Ok(lists)
}

#[test]
fn of_small_functions(rt: HostRuntime) -> Result<(), Fail> {
    let alloc = rt.alloc();
    for row in rows() {
        let Some(found) = function_of(alloc, row)? else {
            assert!(rt; false, "refused: {}", row.source);
            continue;
        };
        let sites = sites_of(alloc, row)?;
        assert!(rt; found.sites == sites, "{}", row.source);
        assert_eq!(rt; found.types.as_slice(), row.types, "{}", row.source);
        assert_eq!(rt; found.lists, lists_of(alloc, row)?, "{}", row.source);
        assert_eq!(rt;
            (found.ops.len(), found.frame),
            (row.ops, row.frame),
            "{}",
            row.source
        );
    }
    Ok(())
}
