// The names that symbols have, worked out by the rules of the Itanium C++ ABI, 5.1; g++ gives the functions that these sources declare the same.
use cxx_ast::standard::Std;
use cxx_front::checked;
use eh_bytes::RowName;
use std::alloc::{AllocError, Global};
use std::test::Fail;
use symbol_names::{SymbolNames, symbol_names};

// The most bytes of a source.
const MOST: usize = 0x10_0000;

// A source, and how the names of its functions, types and globals begin, a blank behind each; `-` is none.
struct Row {
    source: &'static str,
    functions: &'static str,
    types: &'static str,
    globals: &'static str,
}

// Behind a program's own functions stand those of `std::bad_exception` and of each class: what it declares, and three implicit ones.
static ROWS: [Row; 6] = [
    Row {
        source: "int a() { return 0; } void b(int n) { } void c(int& n) { } void d(const int& n) { } void e(int&, int&, const int&, const int&, int) { } int main() { return 0; }",
        functions: "_Z1av _Z1bi _Z1cRi _Z1dRKi _Z1eRiS_RKiS1_i main _ZNSt13bad_exceptionC1Ev _ZNSt13bad_exceptionC1ERKS_ _ZNSt13bad_exceptionD1Ev ",
        types: "_ZTIi _ZTISt13bad_exception ",
        globals: "",
    },
    Row {
        source: "struct A { }; struct B { }; void f(A& a) { } void g(const A& a) { } void h(A&, B&, A&, const B&, const B&, B&) { } int main() { return 0; }",
        functions: "_Z1fR1A _Z1gRK1A _Z1hR1AR1BS0_RKS1_S4_S2_ main _ZNSt13bad_exceptionC1Ev _ZNSt13bad_exceptionC1ERKS_ _ZNSt13bad_exceptionD1Ev _ZN1AC1Ev _ZN1AC1ERKS_ _ZN1AD1Ev _ZN1BC1Ev ",
        types: "_ZTIi _ZTISt13bad_exception _ZTI1A _ZTI1B ",
        globals: "",
    },
    Row {
        source: "int main() { return 0; } struct Lock { int id; Lock(int i, const Lock& l) { id = i; } Lock(const Lock& l) { id = 0; } ~Lock() { } int get() { return id; } void set(Lock& a, int& b, const Lock& c) { } }; int before = 1; int count;",
        functions: "main _ZNSt13bad_exceptionC1Ev _ZNSt13bad_exceptionC1ERKS_ _ZNSt13bad_exceptionD1Ev _ZN4LockC1EiRKS_ _ZN4LockC1ERKS_ _ZN4LockD1Ev _ZN4Lock3getEv _ZN4Lock3setERS_RiRKS_ - - - ",
        types: "_ZTIi _ZTISt13bad_exception _ZTI4Lock ",
        globals: "before count ",
    },
    Row {
        source: "struct A { }; struct B { }; struct C { }; struct D { }; struct E { }; struct F { }; void f(A&, B&, C&, D&, E&, F&, E&, F&) { } int main() { return 0; }",
        functions: "_Z1fR1AR1BR1CR1DR1ER1FS8_SA_ main ",
        types: "_ZTIi _ZTISt13bad_exception _ZTI1A ",
        globals: "",
    },
    Row {
        source: "void a_name_of_ninety_two_bytes_with_all_that_belongs_to_it_so_that_it_is_too_long_by_one_byte_12(int) { } int main() { return 0; }",
        functions: "- main ",
        types: "_ZTIi ",
        globals: "",
    },
    Row {
        source: "void a_name_of_ninety_one_bytes_with_all_that_belongs_to_it_so_that_it_is_the_longest_kept_12345(int) { } int main() { return 0; }",
        functions: "_Z91a_name_of_ninety_one_bytes_with_all_that_belongs_to_it_so_that_it_is_the_longest_kept_12345i main ",
        types: "_ZTIi ",
        globals: "",
    },
];

fn rows() -> &'static [Row] {
    ROWS.as_slice()
}

// Names, a blank behind each.
fn text_of(alloc: Global, names: &[Option<RowName>]) -> Result<Vec<u8>, AllocError> {
    let mut text = Vec::new(alloc);
    for name in names {
        match name {
            None => text.push(b'-')?,
            Some(it) => text.extend_from_slice(it.as_bytes())?,
        }
        text.push(b' ')?;
    }
    Ok(text)
}

fn begins(text: &[u8], front: &[u8]) -> bool {
    match text.get(..front.len()) {
        None => false,
        Some(found) => found == front,
    }
}

fn is_named(alloc: Global, row: &Row, names: &SymbolNames) -> Result<bool, AllocError> {
    let functions = text_of(alloc, names.functions.as_slice())?;
    let types = text_of(alloc, names.types.as_slice())?;
    let globals = text_of(alloc, names.globals.as_slice())?;
    Ok(
        begins(functions.as_slice(), row.functions.as_bytes())
            && begins(types.as_slice(), row.types.as_bytes())
            && globals.as_slice() == row.globals.as_bytes(),
    )
}

// A source is named as its row says.
fn is_good(alloc: Global, row: &Row) -> Result<bool, AllocError> {
    if row.source.len() > MOST {
        return Ok(false);
    }
    match checked(alloc, row.source.as_bytes(), Std::Cxx03) {
        Err(_) => Ok(false),
        Ok(program) => is_named(alloc, row, &symbol_names(alloc, &program)?),
    }
}

#[test]
fn names_are_those_of_the_abi(rt: HostRuntime) -> Result<(), Fail> {
    let alloc = rt.alloc();
    for row in rows() {
        assert!(rt; is_good(alloc, row)?);
    }
    Ok(())
}
