// What becomes of sources, counted by hand.
use crate::lowered::lowered;
use crate::sources::{many_functions, repeated};
use landing_pads::pads;
use std::alloc::Global;
use std::test::Fail;

// A source, how many functions it has with the implicit ones, and how many slots its first function has.
struct Row {
    source: &'static str,
    functions: usize,
    slots: usize,
}

// Behind a program's own functions stand those of each class, `std::bad_exception` the first: what it declares, and three implicit ones.
// Behind the variables of a function stand its result, an exception object's address, and the values between calls.
static ROWS: [Row; 6] = [
    Row {
        source: "int main() { return 0; }",
        functions: 4,
        slots: 2,
    },
    Row {
        source: "struct A { }; int main() { A a; { A b; } int c; return 0; }",
        functions: 7,
        slots: 5,
    },
    Row {
        source: "struct A { int n; A(int k) { n = k; } ~A() { } int f() { return n; } }; int main() { A a(1); return a.f(); }",
        functions: 10,
        slots: 3,
    },
    Row {
        source: "int f(int a) { return a; } int main() { return 0; }",
        functions: 5,
        slots: 3,
    },
    Row {
        source: "int main() { try { throw 1; } catch (int e) { return e; } return 0; }",
        functions: 4,
        slots: 3,
    },
    Row {
        source: "int main() { return read_byte() + read_byte(); }",
        functions: 4,
        slots: 4,
    },
];

fn rows() -> &'static [Row] {
    ROWS.as_slice()
}

// How many functions a source has, as regions and as linear code, and how many slots its first function has.
fn counted(alloc: Global, source: &str) -> Result<Option<(usize, usize, usize)>, Fail> {
    let Some(found) = lowered(alloc, source)? else {
        return Ok(None);
    };
    let slots = match found.functions.as_slice().first() {
        None => 0,
        Some(function) => function.slots.len(),
    };
    let unit = pads(alloc, &found)?;
    Ok(Some((found.functions.len(), unit.functions.len(), slots)))
}

#[test]
fn small_sources(rt: HostRuntime) -> Result<(), Fail> {
    for row in rows() {
        let found = counted(rt.alloc(), row.source)?;
        assert_eq!(rt;
            found,
            Some((row.functions, row.functions, row.slots)),
            "{}",
            row.source
        );
    }
    Ok(())
}

// 44 tokens for each of 1,480 functions, the most statements, and the deepest blocks with an object in each.
#[test]
fn the_largest_sources(rt: HostRuntime) -> Result<(), Fail> {
    let alloc = rt.alloc();
    let source = many_functions(alloc, 1480)?;
    let found = counted(alloc, source.as_str())?;
    assert_eq!(rt; found, Some((1490, 1490, 3)));
    let source = repeated(alloc, "int main() { ", "; ", 1994, "}")?;
    let found = counted(alloc, source.as_str())?;
    assert_eq!(rt; found, Some((4, 4, 2)));
    let source = repeated(alloc, "struct A { }; int main() { ", "A a; { ", 58, "")?;
    let source = repeated(alloc, source.as_str(), "} ", 58, "}")?;
    let found = counted(alloc, source.as_str())?;
    assert_eq!(rt; found, Some((7, 7, 60)));
    Ok(())
}
