// The variables of functions, by the bytes that they take.
ghost use Rattle.std.specs.Prelude.{◌≡◌, ◌+◌, ◌/◌, ◌*◌, Some, min, nat_lt, length, map};
ghost use Rattle.cxx_ast.specs.Plain.{Function};
ghost use Rattle.cxx_ast.specs.Sizes.{class_size, object_bytes, variable_bytes, nothing, caught_bytes, statement_bytes, statements_bytes, handlers_bytes, statement_most, statements_most, handlers_most, initialisers_most, variables_bytes};
ghost use Rattle.cxx_ast.specs.View.{statement_of, statements_of, initialiser_of, handlers_of};
ghost use Rattle.cxx_check.specs.Measured.{capped};

use crate::measure::{Measure, arguments, expression, value};
use cxx_ast::declaration::Init;
use cxx_ast::name::Bound;
use cxx_ast::statement::{Handler, Stmt};
use cxx_ast::types::Ty;
use cxx_rules::Environment;

// The size of a class.
fn class_bytes(env: &Environment<'_>, class: u32) -> u32
    ensures { result ≡ min (class_size env.now class) 1537 }
{
    match env.class(class as usize) {
        None => 0,
        Some(c) => c.size().capped(1537),
    }
}

// An object of the class that a name is bound to.
#[tactic(auto, using(crate::proofs::MeasureLaws::object_capped))]
fn object(env: &Environment<'_>, bound: Bound) -> Measure
    ensures { result ≡ capped (object_bytes env.now bound) nothing }
{
    match bound {
        Bound::Class(class) => Measure::of_bytes((class_bytes(env, class) + 7) / 8 * 8),
        _ => Measure::nothing(),
    }
}

// A variable of a type.
fn variable(env: &Environment<'_>, ty: &Ty) -> Measure
    ensures { result ≡ capped (variable_bytes env.now ty.now) nothing }
{
    match ty {
        Ty::Object(name) => object(env, name.bound),
        _ => Measure::of_bytes(8),
    }
}

// What a handler catches.
fn caught(env: &Environment<'_>, ty: &Option<Ty>) -> Measure
    ensures { result ≡ capped (caught_bytes env.now ty.now) nothing }
{
    match ty {
        None => Measure::nothing(),
        Some(ty) => variable(env, ty),
    }
}

// A statement.
#[tactic(auto, using(cxx_ast::proofs::Rows::statement_rows, crate::proofs::MeasureLaws::statements))]
#[cycle(statements)]
fn statement(env: &Environment<'_>, s: &Stmt) -> Measure
    ensures { result ≡ capped (statement_bytes env.now (statement_of s.now)) (statement_most (statement_of s.now)) }
{
    match s {
        Stmt::Block(ss) => statements(env, ss.as_slice()),
        Stmt::Empty => Measure::nothing(),
        Stmt::If(e, body, None) => expression(e).and(statement(env, body)),
        Stmt::If(e, body, Some(other)) => expression(e)
            .and(statement(env, body))
            .and(statement(env, other)),
        Stmt::While(e, body) => expression(e).and(statement(env, body)),
        Stmt::Return(_, e) => value(e),
        Stmt::Break(_) => Measure::nothing(),
        Stmt::Continue(_) => Measure::nothing(),
        Stmt::Throw(_, e) => value(e),
        Stmt::Try(ss, hs) => statements(env, ss.as_slice()).and(handlers(env, hs.as_slice())),
        Stmt::Assign(_, e) => expression(e),
        Stmt::Call(e) => expression(e),
        Stmt::LocalInt(_, e) => Measure::of_bytes(8).and(value(e)),
        Stmt::LocalRef(_, _) => Measure::of_bytes(8),
        Stmt::LocalObject(class, _, args) => {
            object(env, class.bound).and(arguments(args.as_slice()))
        }
    }
}

/// Statements.
#[cycle(statements)]
pub fn statements(env: &Environment<'_>, ss: &[Stmt]) -> Measure
    ensures { result ≡ capped (statements_bytes env.now (statements_of ss.now)) (statements_most (statements_of ss.now)) }
{
    let mut measure = Measure::nothing();
    for s in ss {
        measure = measure.and(statement(env, s));
    }
    measure
}

// A handler.
#[tactic(auto, using(crate::proofs::MeasureLaws::handler_both))]
#[cycle(statements)]
fn handler(env: &Environment<'_>, h: &Handler) -> Measure
    ensures { result ≡ capped (caught_bytes env.now h.now.ty + statements_bytes env.now (statements_of h.now.body.items)) (statements_most (statements_of h.now.body.items)) }
{
    caught(env, &h.ty).and(statements(env, h.body.as_slice()))
}

// Handlers.
#[cycle(statements)]
fn handlers(env: &Environment<'_>, hs: &[Handler]) -> Measure
    ensures { result ≡ capped (handlers_bytes env.now (handlers_of hs.now)) (handlers_most (handlers_of hs.now)) }
{
    let mut measure = Measure::nothing();
    for h in hs {
        measure = measure.and(handler(env, h));
    }
    measure
}

// The initialisers of a constructor.
fn initialisers(inits: &[Init]) -> Measure
    ensures { result ≡ capped 0 (initialisers_most (map initialiser_of inits.now)) }
{
    let mut measure = Measure::nothing();
    for i in inits {
        measure = measure.and(arguments(i.args.as_slice()));
    }
    measure
}

/// A function has variables of too many bytes, by the number of its parameters, its initialisers and its body, whose names are
/// bound.
pub fn are_too_large(env: &Environment<'_>, params: usize, inits: &[Init], body: &[Stmt]) -> bool
    ensures { (f : Function) → length f.parameters ≡ params → f.initialisers ≡ map initialiser_of inits.now → f.body ≡ Some (statements_of body.now) → result ≡ nat_lt 1536 (variables_bytes env.now f) }
{
    let most = initialisers(inits).and(statements(env, body));
    let count = params.min(1537) as u64;
    let bytes = 8 * count
        + u64::from(most.bytes)
        + 8 * u64::from(most.levels)
        + 8 * u64::from(most.arguments);
    bytes > 1536
}
