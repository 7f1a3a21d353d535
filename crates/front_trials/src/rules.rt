// Trees made by hand, and what is found in each, worked out by hand from the rules: what no row of a source says.
use cxx_ast::declaration::FuncKind;
use cxx_ast::expression::{BinaryOp, Expr, Lvalue};
use cxx_ast::name::{Bound, Name};
use cxx_ast::text::Text;
use cxx_rules::{Environment, Found, Kind, Passing, Refusal, Scope, Signature, Texts, judged};
use std::alloc::Global;
use std::test::Fail;

fn name(alloc: Global, text: &str, place: u32) -> Result<Name, Fail> {
    Ok(Name {
        text: Text::copied(alloc, text.as_bytes())?,
        place,
        bound: Bound::Free,
    })
}

fn path(alloc: Global, text: &str, place: u32) -> Result<Lvalue, Fail> {
    let mut path = Vec::new(alloc);
    path.push(name(alloc, text, place)?)?;
    Ok(Lvalue { path })
}

fn call(alloc: Global, text: &str, place: u32, args: Vec<Expr>) -> Result<Expr, Fail> {
    Ok(Expr::Call(path(alloc, text, place)?, args))
}

// A global `g`, and a function `f` of one int reference, which is declared at 4 and never defined.
fn known<'t>(alloc: Global, f: &'t Name) -> Result<Environment<'t>, Fail> {
    let mut parameters = Vec::new(alloc);
    parameters.push(Passing::new(Kind::Int, true, false))?;
    let signature = Signature::new(f, FuncKind::Plain, Kind::Int, parameters, None, false);
    let mut env = Environment::new(alloc, Texts::new(alloc))?;
    env.add_global(alloc, b"g".as_slice())?;
    env.add_signature(alloc, signature)?;
    Ok(env)
}

fn found_in(alloc: Global, e: &Expr) -> Result<Found, Fail> {
    let f = name(alloc, "f", 4)?;
    let env = known(alloc, &f)?;
    let scope = Scope::function(alloc, None, true)?;
    Ok(judged(alloc, &env, &scope, e)?.found())
}

fn answer(number: u8, place: u32) -> Option<Refusal> {
    Some(Refusal { number, place })
}

// `f` is never defined, and a call that gives it a literal, which is no lvalue, has no type either. Of two names that are not in reach the
// one at the lesser place answers, wherever it stands in the tree.
#[test]
fn what_is_found(rt: HostRuntime) -> Result<(), Fail> {
    let alloc = rt.alloc();
    let mut args = Vec::new(alloc);
    args.push(Expr::Number(1, 22))?;
    let found = found_in(alloc, &call(alloc, "f", 20, args)?)?;
    assert_eq!(rt; found.least, answer(43, 4));
    assert_eq!(rt; found.is_sound, false);
    let mut args = Vec::new(alloc);
    args.push(Expr::Path(path(alloc, "g", 22)?))?;
    let found = found_in(alloc, &call(alloc, "f", 20, args)?)?;
    assert_eq!(rt; found.least, answer(43, 4));
    assert_eq!(rt; found.is_sound, true);
    let left = Box::new(alloc, Expr::Path(path(alloc, "x", 20)?))?;
    let right = Box::new(alloc, Expr::Path(path(alloc, "y", 10)?))?;
    let both = Expr::Binary(BinaryOp::Add, left, right);
    assert_eq!(rt; found_in(alloc, &both)?.least, answer(30, 10));
    Ok(())
}
