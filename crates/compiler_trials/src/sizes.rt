// How large linear code becomes, counted by hand.
use crate::lowered::linear;
use crate::sources::{calling_functions, many_objects, repeated};
use cxx_ast::text::Text;
use landing_pads::pads;
use landing_pads::unit::{FuncCode, LinearOp};
use region_ir::operation::Cleanup;
use region_ir::place::{Place, Root, Slot, SlotKind};
use region_ir::program::{RegionFunc, Regions};
use region_ir::region::Region;
use std::alloc::{AllocError, Global};
use std::test::Fail;

#[derive(Debug, Drop, PartialEq, Eq)]
struct Sizes {
    ops: usize,
    labels: usize,
    sites: usize,
    filters: usize,
}

fn sizes_of(code: &FuncCode) -> Sizes {
    let mut labels: usize = 0;
    for op in &code.ops {
        if matches!(op, LinearOp::Label(_)) {
            labels = labels.wrapping_add(1);
        }
    }
    let mut filters: usize = 0;
    for site in &code.sites {
        filters = filters.wrapping_add(site.filters.len());
    }
    Sizes {
        ops: code.ops.len(),
        labels,
        sites: code.sites.len(),
        filters,
    }
}

// The sizes of a source's first function, or nothing where the source is refused.
fn first_sizes(alloc: Global, source: &str) -> Result<Option<Sizes>, AllocError> {
    match linear(alloc, source)? {
        None => Ok(None),
        Some(unit) => Ok(unit.functions.as_slice().first().map(sizes_of)),
    }
}

fn nested_tries(alloc: Global, depth: u32) -> Result<String, Fail> {
    let guarded = repeated(alloc, "void f() { ", "try { ", depth, "f(); ")?;
    let source = repeated(alloc, guarded.as_str(), "} catch (...) { } ", depth, "} ")?;
    repeated(alloc, source.as_str(), "", 0, "int main() { return 0; }")
}

fn many_throws(alloc: Global, count: u32) -> Result<String, Fail> {
    repeated(
        alloc,
        "void f() { ",
        "{ throw 0; } ",
        count,
        "} int main() { return 0; }",
    )
}

// 192 objects fill a function's variables. Each has 5 operations before its scope, a label and 5 behind it, and itself; and three sites,
// for itself, its resume and its destructor, of which those of the first have no pad. The return has two operations.
//
// A tree is 64 levels deep with 30 try blocks. Each has 4 operations, a handler of 14, of which 6 are labels, and three labels; and three
// sites, for its resume and those two in its handler. What it guards has one filter more than itself.
//
// A function has room for 398 of these blocks. Each has 11 operations, of which 4 are labels, and two sites without a pad.
//
// All end with the two labels of the body and a return.
#[test]
fn of_the_largest_functions(rt: HostRuntime) -> Result<(), Fail> {
    let alloc = rt.alloc();
    let scopes = Sizes {
        ops: 192 * 12 + 5,
        labels: 192 * 4 + 2,
        sites: 192 * 3,
        filters: 191 * 3,
    };
    let source = many_objects(alloc, 192)?;
    assert_eq!(rt; first_sizes(alloc, source.as_str())?, Some(scopes));
    let source = many_objects(alloc, 193)?;
    assert_eq!(rt; first_sizes(alloc, source.as_str())?, None);
    let tries = Sizes {
        ops: 30 * 21 + 1 + 3,
        labels: 30 * 9 + 2,
        sites: 30 * 3 + 1,
        filters: 3 * (29 * 30 / 2) + 30,
    };
    let source = nested_tries(alloc, 30)?;
    assert_eq!(rt; first_sizes(alloc, source.as_str())?, Some(tries));
    let source = nested_tries(alloc, 31)?;
    assert_eq!(rt; first_sizes(alloc, source.as_str())?, None);
    let throws = Sizes {
        ops: 398 * 11 + 3,
        labels: 398 * 4 + 2,
        sites: 398 * 2,
        filters: 0,
    };
    let source = many_throws(alloc, 398)?;
    assert_eq!(rt; first_sizes(alloc, source.as_str())?, Some(throws));
    let source = many_throws(alloc, 399)?;
    assert_eq!(rt; first_sizes(alloc, source.as_str())?, None);
    Ok(())
}

// A function with so many scopes inside one another, and a return out of the innermost. No source has as many.
fn nested_scopes(alloc: Global, depth: u32) -> Result<Regions, Fail> {
    let object = Place {
        root: Root::Slot(0),
        offset: 0,
    };
    let mut body = Region::Leave(depth);
    for _ in 0..depth {
        body = Region::Protect(Box::new(alloc, body)?, Cleanup::Scope(object, 0));
    }
    let slot = Slot {
        kind: SlotKind::Object,
        size: 4,
    };
    let function = RegionFunc {
        name: Text::copied(alloc, b"f".as_slice())?,
        params: 0,
        slots: vec![in alloc; slot]?,
        result: None,
        body,
    };
    Ok(Regions {
        functions: vec![in alloc; function]?,
        types: Vec::new(alloc),
        globals: Vec::new(alloc),
        tokens: 0,
        main: 0,
    })
}

// Each scope has 5 operations before what it guards and 5 behind it, but 3 the outermost, with 3 labels among them; and two sites, for its
// resume and its destructor, of which those of the outermost have no pad. The return has two operations, and the last is the function's own.
#[test]
fn of_a_thousand_scopes(rt: HostRuntime) -> Result<(), Fail> {
    let alloc = rt.alloc();
    let wanted = Sizes {
        ops: 999 * 10 + 8 + 3,
        labels: 3_000,
        sites: 2_000,
        filters: 999 * 2,
    };
    let unit = pads(alloc, &nested_scopes(alloc, 1_000)?)?;
    let found = unit.functions.as_slice().first().map(sizes_of);
    assert_eq!(rt; found, Some(wanted));
    Ok(())
}

// The first function has 15 tokens, 23 operations and 5 sites, each that calls another 31, 46 and 9, `main` 28, 30 and 4. The class has 30
// tokens, and its five functions 15 operations and no site; the three of `std::bad_exception` have 6 operations.
#[test]
fn of_two_thousand_functions(rt: HostRuntime) -> Result<(), Fail> {
    let alloc = rt.alloc();
    let source = calling_functions(alloc, 2_000)?;
    let Some(unit) = linear(alloc, source.as_str())? else {
        assert!(rt; false, "refused");
        return Ok(());
    };
    let mut ops: usize = 0;
    let mut sites: usize = 0;
    for code in &unit.functions {
        ops = ops.wrapping_add(code.ops.len());
        sites = sites.wrapping_add(code.sites.len());
    }
    assert_eq!(rt; unit.tokens, 30 + 15 + 1_999 * 31 + 28);
    assert_eq!(rt; ops, 23 + 1_999 * 46 + 30 + 15 + 6);
    assert_eq!(rt; sites, 5 + 1_999 * 9 + 4);
    Ok(())
}
