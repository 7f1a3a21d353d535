// Small functions and their tables, worked out by hand.
//
// A function's body begins with its statements; `main` stores 0 in its result behind them. An object's scope has five operations before what it
// guards: jump, pad, destructor, resume, label. A try block has a jump, its pad, a test for each handler and a resume, then the handlers,
// each behind its label and the binding of the object, then a label. A specification has seven operations: jump, pad, test, resume, label,
// the call for what it does not list, label. A block, a scope, a loop and a function's body end with a label.

/// The first operation of a site and the one behind its last, its landing pad, and its filters.
pub type Site = (u32, u32, Option<u32>, &'static [i64]);

/// A source and the number of one of its functions, with the number of its operations, its tables, and the bytes of its frame.
pub struct Row {
    pub source: &'static str,
    pub function: usize,
    pub ops: usize,
    pub sites: &'static [Site],
    pub types: &'static [u32],
    pub lists: &'static [&'static [u64]],
    pub frame: u32,
}

pub static ROWS: &[Row] = &[
    // Two calls in one extent: 0, 1.
    Row {
        source: "void g() { } void f() { g(); g(); } int main() { return 0; }",
        function: 1,
        ops: 5,
        sites: &[(0, 2, None, &[])],
        types: &[],
        lists: &[],
        frame: 32,
    },
    // A built-in function that raises nothing at 0, a module's at 1, whose value goes to the result's slot at once.
    Row {
        source: "int f() { write_int(1); return __module(0, 0); } int main() { return 0; }",
        function: 0,
        ops: 6,
        sites: &[(1, 2, None, &[])],
        types: &[],
        lists: &[],
        frame: 32,
    },
    // Calls whose values go to a variable at 0 and, in parentheses, at 1; one whose value waits in a slot at 2 for the sum that goes there at
    // 3; and one whose value goes to the result's slot at 4, before the jump out.
    Row {
        source: "int f(int a) { int b = f(a); b = (f(b)); b = f(b) + 1; return f(b); } int main() { return 0; }",
        function: 0,
        ops: 9,
        sites: &[(0, 3, None, &[]), (4, 5, None, &[])],
        types: &[],
        lists: &[],
        frame: 64,
    },
    // The object at 0, its scope from 1, calls at 6 and 7, its destructor at 10.
    Row {
        source: "struct A { int n; A(int k) { n = k; } ~A() { } }; void g() { } void f() { A a(1); g(); g(); } int main() { return 0; }",
        function: 1,
        ops: 15,
        sites: &[
            (0, 1, None, &[]),
            (4, 5, None, &[]),
            (6, 8, Some(2), &[0]),
            (10, 11, None, &[]),
        ],
        types: &[],
        lists: &[],
        frame: 64,
    },
    // The object at 0, its scope from 1; an exception object is made at 6, guarded while it is built from 7, and thrown at 15.
    Row {
        source: "struct A { int n; A(int k) { n = k; } ~A() { } }; void f() { A a(1); throw 7; } int main() { return 0; }",
        function: 0,
        ops: 23,
        sites: &[
            (0, 1, None, &[]),
            (4, 5, None, &[]),
            (10, 11, Some(2), &[0]),
            (15, 16, Some(2), &[0]),
            (18, 19, None, &[]),
        ],
        types: &[],
        lists: &[],
        frame: 64,
    },
    // Made at 0, guarded from 1, built by a constructor at 6, thrown at 9.
    Row {
        source: "struct A { int n; A(int k) { n = k; } ~A() { } }; void f() { throw A(1); } int main() { return 0; }",
        function: 0,
        ops: 13,
        sites: &[(4, 5, None, &[]), (6, 7, Some(2), &[0]), (9, 10, None, &[])],
        types: &[],
        lists: &[],
        frame: 64,
    },
    // The same with a copy at 6, out of which nothing may come, so it has no site.
    Row {
        source: "struct A { int n; A(int k) { n = k; } ~A() { } }; void f(A& a) { throw a; } int main() { return 0; }",
        function: 0,
        ops: 14,
        sites: &[(4, 5, None, &[]), (10, 11, None, &[])],
        types: &[],
        lists: &[],
        frame: 64,
    },
    // A specification: its pad at 1 resumes at 3 or calls at 5; the guarded call at 7.
    Row {
        source: "void g() { } void f() throw(int) { g(); } int main() { return 0; }",
        function: 1,
        ops: 12,
        sites: &[(3, 4, None, &[]), (5, 6, None, &[]), (7, 8, Some(1), &[-1])],
        types: &[1],
        lists: &[&[1]],
        frame: 64,
    },
    // The same with an empty list.
    Row {
        source: "void g() { } void f() throw() { g(); } int main() { return 0; }",
        function: 1,
        ops: 12,
        sites: &[(3, 4, None, &[]), (5, 6, None, &[]), (7, 8, Some(1), &[-1])],
        types: &[],
        lists: &[&[]],
        frame: 64,
    },
    // A try block in a specification. Types are numbered int 0, bad_exception 1, A 2, B 3, and a table has one more; the list names B and
    // int first, then A and `...` are new. The try block's pad is at 8; the handlers begin at 12 and 27, with their scopes from 16 and 30.
    Row {
        source: "struct A { }; struct B : A { }; void g() { } void f() throw(B, int) { try { g(); } catch (A& a) { } catch (...) { } } int main() { return 0; }",
        function: 1,
        ops: 49,
        sites: &[
            (3, 4, None, &[]),
            (5, 6, None, &[]),
            (11, 12, Some(1), &[-1]),
            (19, 20, Some(1), &[-1]),
            (23, 24, Some(1), &[-1]),
            (33, 34, Some(1), &[-1]),
            (37, 38, Some(1), &[-1]),
            (42, 43, Some(8), &[3, 4, -1]),
        ],
        types: &[4, 1, 3, 0],
        lists: &[&[1, 2]],
        frame: 64,
    },
    // Try blocks inside one another that catch the same type. The outer pad is at 1, with the handler's scope from 8 and a return at 13;
    // the inner pad is at 26, with the handler's scope from 33.
    Row {
        source: "void g() { } int f() { try { try { g(); } catch (int e) { g(); } g(); } catch (int e) { return 1; } return 0; } int main() { return 0; }",
        function: 1,
        ops: 57,
        sites: &[
            (3, 4, None, &[]),
            (11, 12, None, &[]),
            (19, 20, None, &[]),
            (28, 29, Some(1), &[1]),
            (36, 37, Some(1), &[1]),
            (38, 39, Some(34), &[0, 1]),
            (41, 42, Some(1), &[1]),
            (46, 47, Some(26), &[1, 1]),
            (49, 50, Some(1), &[1]),
        ],
        types: &[1],
        lists: &[],
        frame: 80,
    },
    // A handler's parameter by value: copied at 6 without a site, left at every exit from 9, and destroyed before that from 14.
    Row {
        source: "struct A { int n; A(int k) { n = k; } ~A() { } }; void g() { } void f() { try { g(); } catch (A a) { g(); } } int main() { return 0; }",
        function: 1,
        ops: 37,
        sites: &[
            (3, 4, None, &[]),
            (12, 13, None, &[]),
            (17, 18, Some(10), &[0]),
            (19, 20, Some(15), &[0]),
            (22, 23, Some(10), &[0]),
            (26, 27, None, &[]),
            (31, 32, Some(1), &[1]),
        ],
        types: &[3],
        lists: &[],
        frame: 64,
    },
    // A constructor: its base at 0, guarded from 1, its member at 6, guarded from 7, its body at 12. One filter serves both cleanups, and
    // parts are not destroyed where it ends.
    Row {
        source: "struct A { int n; A(int k) { n = k; } ~A() { } }; void g() { } struct C : A { A m; C() : A(1), m(2) { g(); } ~C() { g(); } }; int main() { return 0; }",
        function: 10,
        ops: 20,
        sites: &[
            (0, 1, None, &[]),
            (4, 5, None, &[]),
            (6, 7, Some(2), &[0]),
            (10, 11, Some(2), &[0]),
            (12, 13, Some(8), &[0]),
        ],
        types: &[],
        lists: &[],
        frame: 64,
    },
    // Its destructor: the base's scope from 0, the member's from 5, the body at 10, the member's destructor at 13, the base's at 17.
    Row {
        source: "struct A { int n; A(int k) { n = k; } ~A() { } }; void g() { } struct C : A { A m; C() : A(1), m(2) { g(); } ~C() { g(); } }; int main() { return 0; }",
        function: 11,
        ops: 22,
        sites: &[
            (3, 4, None, &[]),
            (8, 9, Some(1), &[0]),
            (10, 11, Some(6), &[0]),
            (13, 14, Some(1), &[0]),
            (17, 18, None, &[]),
        ],
        types: &[],
        lists: &[],
        frame: 64,
    },
    // An object in a loop: built at 2, its scope from 3, the test's call at 8, a `break` at 10, a call at 17, its destructor at 21.
    Row {
        source: "struct A { int n; A(int k) { n = k; } ~A() { } }; int g() { return 1; } int f() { while (1) { A a(1); if (g()) break; g(); } return 0; } int main() { return 0; }",
        function: 1,
        ops: 33,
        sites: &[
            (2, 3, None, &[]),
            (6, 7, None, &[]),
            (8, 9, Some(4), &[0]),
            (17, 18, Some(4), &[0]),
            (21, 22, None, &[]),
        ],
        types: &[],
        lists: &[],
        frame: 80,
    },
    // An object's scope from 1 with a try block from 6, whose handler's scope from 14 throws: made at 19, guarded from 20, thrown at 28.
    Row {
        source: "struct A { int n; A(int k) { n = k; } ~A() { } }; void g() { } void f() { A a(1); try { g(); } catch (int e) { throw e + 1; } } int main() { return 0; }",
        function: 1,
        ops: 46,
        sites: &[
            (0, 1, None, &[]),
            (4, 5, None, &[]),
            (9, 10, Some(2), &[0]),
            (17, 18, Some(2), &[0]),
            (23, 24, Some(15), &[0]),
            (28, 29, Some(15), &[0]),
            (31, 32, Some(2), &[0]),
            (36, 37, Some(7), &[1, 0]),
            (41, 42, None, &[]),
        ],
        types: &[1],
        lists: &[],
        frame: 80,
    },
    // A specification's extent from 7: the object there, its scope from 8, made at 13, guarded from 14, thrown at 22, destroyed at 25.
    Row {
        source: "struct A { int n; A(int k) { n = k; } ~A() { } }; void f() throw(int) { A a(1); throw 7; } int main() { try { f(); } catch (A& a) { return 1; } catch (int e) { return 2; } return 0; }",
        function: 0,
        ops: 31,
        sites: &[
            (3, 4, None, &[]),
            (5, 6, None, &[]),
            (7, 8, Some(1), &[-1]),
            (11, 12, Some(1), &[-1]),
            (17, 18, Some(9), &[0, -1]),
            (22, 23, Some(9), &[0, -1]),
            (25, 26, Some(1), &[-1]),
        ],
        types: &[1],
        lists: &[&[1]],
        frame: 64,
    },
    // What calls it: the pad at 1, handlers from 5 and 25 with their scopes from 9 and 29, the call at 46.
    Row {
        source: "struct A { int n; A(int k) { n = k; } ~A() { } }; void f() throw(int) { A a(1); throw 7; } int main() { try { f(); } catch (A& a) { return 1; } catch (int e) { return 2; } return 0; }",
        function: 1,
        ops: 55,
        sites: &[
            (4, 5, None, &[]),
            (12, 13, None, &[]),
            (20, 21, None, &[]),
            (32, 33, None, &[]),
            (40, 41, None, &[]),
            (46, 47, Some(1), &[1, 2]),
        ],
        types: &[3, 1],
        lists: &[],
        frame: 80,
    },
];
