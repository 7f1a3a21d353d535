// What names are bound to, worked out by hand: classes and functions by their numbers, a variable among those of its function.
use crate::reading::program;
use cxx_ast::declaration::Func;
use cxx_ast::expression::{Expr, Lvalue};
use cxx_ast::name::{Bound, Builtin};
use cxx_ast::program::Checked;
use cxx_ast::statement::Stmt;
use std::alloc::{AllocError, Global};
use std::test::Fail;

const SOURCE: &str = "struct B { int n; };
struct A : B { int k; A(int n) : k(n) { } int get() { return k; } };
int g = 3;
int h();
int f(int a, int b);
int main() { A x(g); { int y = f(1, x.n); write_int(y); } int z = x.get(); return z; }
int f(int, int b) { return b; }";

// `std::bad_exception` is a class of each program.
const WITHOUT_CLASSES: &str = "int f() { } int g = 7; int main() { }";

fn push_path(bounds: &mut Vec<Bound>, lvalue: &Lvalue) -> Result<(), AllocError> {
    for name in &lvalue.path {
        bounds.push(name.bound)?;
    }
    Ok(())
}

#[cycle(bounds)]
fn push_expression(bounds: &mut Vec<Bound>, e: &Expr) -> Result<(), AllocError> {
    match e {
        Expr::Path(lvalue) => push_path(bounds, lvalue),
        Expr::Call(callee, args) => {
            push_path(bounds, callee)?;
            for arg in args {
                push_expression(bounds, arg)?;
            }
            Ok(())
        }
        _ => Ok(()),
    }
}

// The bounds of the names in declarations of objects and ints, in calls and in returns, in order.
#[cycle(statements)]
fn push_statements(bounds: &mut Vec<Bound>, ss: &[Stmt]) -> Result<(), AllocError> {
    for s in ss {
        match s {
            Stmt::Block(inner) => push_statements(bounds, inner.as_slice())?,
            Stmt::LocalObject(class, name, args) => {
                bounds.push(class.bound)?;
                bounds.push(name.bound)?;
                for arg in args {
                    push_expression(bounds, arg)?;
                }
            }
            Stmt::LocalInt(name, Some(e)) => {
                bounds.push(name.bound)?;
                push_expression(bounds, e)?;
            }
            Stmt::Call(e) => push_expression(bounds, e)?,
            Stmt::Return(_, Some(e)) => push_expression(bounds, e)?,
            _ => {}
        }
    }
    Ok(())
}

// The bounds in the body of a function by its number.
fn bounds_in(alloc: Global, checked: &Checked, number: usize) -> Result<Vec<Bound>, AllocError> {
    let mut bounds = Vec::new(alloc);
    if let Some(f) = checked.functions.get(number) {
        if let Some(ss) = &f.body {
            push_statements(&mut bounds, ss.as_slice())?;
        }
    }
    Ok(bounds)
}

static IN_MAIN: &[Bound] = &[
    Bound::Class(2),
    Bound::Local(0),
    Bound::Global(0),
    Bound::Local(1),
    Bound::Func(1),
    Bound::Local(0),
    Bound::Field(1, 0),
    Bound::Builtin(Builtin::WriteInt),
    Bound::Local(1),
    Bound::Local(2),
    Bound::Local(0),
    Bound::Method(2, 1),
    Bound::Local(2),
];

fn push_initialisers(bounds: &mut Vec<Bound>, constructor: &Func) -> Result<(), AllocError> {
    for initialiser in &constructor.inits {
        bounds.push(initialiser.name.bound)?;
        for arg in &initialiser.args {
            push_expression(bounds, arg)?;
        }
    }
    Ok(())
}

// The bounds in the initialisers of all constructors.
fn bounds_of_initialisers(alloc: Global, checked: &Checked) -> Result<Vec<Bound>, AllocError> {
    let mut bounds = Vec::new(alloc);
    for class in &checked.classes {
        for f in &class.funcs {
            push_initialisers(&mut bounds, f)?;
        }
    }
    Ok(bounds)
}

// `A(int n) : k(n)` names the first data member of `A`, and takes its parameter.
static IN_INITIALISERS: &[Bound] = &[Bound::Field(2, 0), Bound::Local(0)];

#[test]
fn what_names_stand_for(rt: HostRuntime) -> Result<(), Fail> {
    let alloc = rt.alloc();
    let checked = program(alloc, SOURCE.as_bytes()).map_err(|_| AllocError)?;
    assert_eq!(rt; checked.main, 0);
    assert_eq!(rt; checked.classes.len(), 3);
    assert_eq!(rt; checked.globals.as_slice(), [3].as_slice());
    assert_eq!(rt; checked.functions.len(), 2);
    assert!(rt; bounds_in(alloc, &checked, 0)?.as_slice() == IN_MAIN);
    assert!(rt; bounds_in(alloc, &checked, 1)?.as_slice() == [Bound::Local(1)].as_slice());
    assert!(rt; bounds_of_initialisers(alloc, &checked)?.as_slice() == IN_INITIALISERS);
    let checked = program(alloc, WITHOUT_CLASSES.as_bytes()).map_err(|_| AllocError)?;
    assert_eq!(rt; checked.main, 1);
    assert_eq!(rt; checked.functions.len(), 2);
    assert_eq!(rt; checked.globals.as_slice(), [7].as_slice());
    assert_eq!(rt; checked.classes.len(), 1);
    Ok(())
}
