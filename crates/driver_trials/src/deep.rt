// Meanings of the deepest trees at the most open calls, within the stack of a test.
use crate::outside::{answer, holding};
use std::alloc::Global;
use std::test::Fail;

// A way to nest, by what stands round each level, as often as the deepest tree has room for.
struct Nest {
    first: &'static str,
    open: &'static str,
    inner: &'static str,
    close: &'static str,
    levels: usize,
}

static NESTS: [Nest; 7] = [
    Nest {
        first: "return ",
        open: "(",
        inner: "f(k - 1) + 1",
        close: ")",
        levels: 57,
    },
    Nest {
        first: "return ",
        open: "g(",
        inner: "f(k - 1) + 1",
        close: ")",
        levels: 57,
    },
    Nest {
        first: "return k + ",
        open: "__module(0, ",
        inner: "f(k - 1)",
        close: ")",
        levels: 57,
    },
    Nest {
        first: "",
        open: "{ A a(k); ",
        inner: "return f(k - 1) + 1;",
        close: " }",
        levels: 57,
    },
    Nest {
        first: "",
        open: "while (k) ",
        inner: "return f(k - 1) + 1;",
        close: "",
        levels: 57,
    },
    Nest {
        first: "",
        open: "if (k) ",
        inner: "return f(k - 1) + 1;",
        close: "",
        levels: 57,
    },
    Nest {
        first: "",
        open: "try { ",
        inner: "return f(k - 1) + 1;",
        close: " } catch (int) { }",
        levels: 28,
    },
];

// A function that calls itself, from the innermost of some levels.
fn nested(alloc: Global, nest: &Nest, levels: usize, calls: u32) -> Result<String, Fail> {
    let mut source = String::new(alloc);
    source.push_str(
        "struct A { int n; A(int k) { n = k; } ~A() { n = 0; } }; int g(int k) { return k; } int f(int k) { if (k == 0) return 0; ",
    )?;
    source.push_str(nest.first)?;
    for _ in 0..levels {
        source.push_str(nest.open)?;
    }
    source.push_str(nest.inner)?;
    for _ in 0..levels {
        source.push_str(nest.close)?;
    }
    let end = format!(in alloc; "; }} int main() {{ return f({calls}); }}")?;
    source.push_str(end.as_str())?;
    Ok(source)
}

// The deepest trees at the most open calls, and one call more.
#[test]
fn both_limits(rt: HostRuntime) -> Result<(), Fail> {
    let alloc = rt.alloc();
    for nest in &NESTS {
        let rows = [(126, "= exit 126\n"), (127, "= stack\n")];
        for (calls, lines) in rows {
            let source = nested(alloc, nest, nest.levels, calls)?;
            let outside = holding(source.as_str().as_bytes());
            let seen = answer(alloc, &["mean", "SRC"], &outside)?;
            assert_eq!(rt; seen.out.bytes(), lines.as_bytes(), "{}", nest.open);
        }
    }
    Ok(())
}
