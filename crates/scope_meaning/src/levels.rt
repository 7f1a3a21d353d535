// How deep an evaluation goes in one call, which is looked at once before it begins.

ghost use Rattle.std.specs.Prelude.{◌≡◌, map, nat_le};
ghost use Rattle.std.specs.List.{list_all};
ghost use Rattle.cxx_ast.specs.Sizes as sizes;
ghost use Rattle.cxx_ast.specs.View.{checked_of, class_of, expression_of, expressions_of, function_of, initialiser_of, option_of, statement_of, statements_of, handlers_of};
ghost use Rattle.scope_meaning.specs.Levels as levels;

use crate::statement::declares;
use cxx_ast::declaration::{ClassDecl, Func, Init};
use cxx_ast::expression::Expr;
use cxx_ast::program::Checked;
use cxx_ast::statement::{Handler, Stmt};

/// The levels of an evaluation: more than the 64 of a checked tree, the 192 variables that a checked function has room for, and the 256
/// parts that an object of a checked class has, together.
const MOST_LEVELS: u64 = 600;

// An expression, with what stands in it, has room.
#[cycle(expressions)]
#[tactic(auto, using(cxx_ast::proofs::Rows::rows, crate::proofs::Shallower::no_room))]
fn expression_fits(e: &Expr, room: u64) -> bool
    ensures { result ≡ nat_le (sizes.levels (expression_of e.now)) room }
{
    let Some(room) = room.checked_sub(1) else {
        return false;
    };
    match e {
        Expr::Number(_, _) | Expr::Path(_) => true,
        Expr::Paren(inner, _) | Expr::Unary(_, inner, _) => expression_fits(inner, room),
        Expr::Binary(_, left, right) => {
            expression_fits(left, room) && expression_fits(right, room)
        }
        Expr::Call(_, es) | Expr::StdCall(_, es, _) => expressions_fit(es.as_slice(), room),
    }
}

#[cycle(expressions)]
fn expressions_fit(es: &[Expr], room: u64) -> bool
    ensures { result ≡ nat_le (sizes.most_levels (expressions_of es.now)) room }
{
    let mut rest = es;
    'expressions: while let Some((first, others)) = rest.split_first() {
        if !expression_fits(first, room) {
            return false;
        }
        rest = others;
    }
    true
}

fn value_fits(e: &Option<Expr>, room: u64) -> bool
    ensures { result ≡ nat_le (levels.value_levels (option_of expression_of e.now)) room }
{
    match e {
        Some(e) => expression_fits(e, room),
        None => true,
    }
}

// What initialises a variable that a statement declares.
fn declared_fits(it: &Stmt, room: u64) -> bool
    ensures { result ≡ nat_le (levels.declared_levels (statement_of it.now)) room }
{
    match it {
        Stmt::LocalInt(_, e) => value_fits(e, room),
        Stmt::LocalObject(_, _, es) => expressions_fit(es.as_slice(), room),
        _ => true,
    }
}

#[cycle(statements)]
#[tactic(auto, using(cxx_ast::proofs::Rows::statement_rows))]
fn statement_fits(it: &Stmt, room: u64) -> bool
    ensures { result ≡ nat_le (levels.statement_levels (statement_of it.now)) room }
{
    let Some(room) = room.checked_sub(1) else {
        return false;
    };
    match it {
        Stmt::Block(body) => statements_fit(body.as_slice(), room),
        Stmt::If(e, yes, no) => {
            expression_fits(e, room)
                && statement_fits(yes, room)
                && match no {
                    Some(no) => statement_fits(no, room),
                    None => true,
                }
        }
        Stmt::While(e, body) => expression_fits(e, room) && statement_fits(body, room),
        Stmt::Return(_, e) | Stmt::Throw(_, e) | Stmt::LocalInt(_, e) => value_fits(e, room),
        Stmt::Try(body, handlers) => try_fits(body.as_slice(), handlers.as_slice(), room),
        Stmt::Assign(_, e) | Stmt::Call(e) => expression_fits(e, room),
        Stmt::LocalObject(_, _, es) => expressions_fit(es.as_slice(), room),
        Stmt::Empty | Stmt::Break(_) | Stmt::Continue(_) | Stmt::LocalRef(_, _) => true,
    }
}

#[cycle(statements)]
fn statements_fit(body: &[Stmt], room: u64) -> bool
    ensures { result ≡ nat_le (levels.statements_levels (statements_of body.now)) room }
{
    let mut rest = body;
    'statements: while let Some((first, others)) = rest.split_first() {
        if declares(first) {
            return scope_fits(first, others, room);
        }
        if !statement_fits(first, room) {
            return false;
        }
        rest = others;
    }
    true
}

// A declaration, and what follows it in its block.
#[cycle(statements)]
fn scope_fits(first: &Stmt, others: &[Stmt], room: u64) -> bool
    ensures { result ≡ nat_le (levels.scope_levels (statement_of first.now) (statements_of others.now)) room }
{
    let Some(room) = room.checked_sub(1) else {
        return false;
    };
    declared_fits(first, room) && statements_fit(others, room)
}

#[cycle(statements)]
fn try_fits(body: &[Stmt], handlers: &[Handler], room: u64) -> bool
    ensures { result ≡ nat_le (levels.try_levels (statements_of body.now) (handlers_of handlers.now)) room }
{
    statements_fit(body, room) && handlers_fit(handlers, room)
}

#[cycle(statements)]
fn handlers_fit(handlers: &[Handler], room: u64) -> bool
    ensures { result ≡ nat_le (levels.handlers_levels (handlers_of handlers.now)) room }
{
    let mut rest = handlers;
    'handlers: while let Some((first, others)) = rest.split_first() {
        if !statements_fit(first.body.as_slice(), room) {
            return false;
        }
        rest = others;
    }
    true
}

fn initialisers_fit(inits: &[Init], room: u64) -> bool
    ensures { result ≡ levels.initialisers_fit room (map initialiser_of inits.now) }
{
    let mut rest = inits;
    'initialisers: while let Some((first, others)) = rest.split_first() {
        if !expressions_fit(first.args.as_slice(), room) {
            return false;
        }
        rest = others;
    }
    true
}

fn body_fits(body: &Option<Vec<Stmt>>, room: u64) -> bool
    ensures { result ≡ nat_le (levels.body_levels (option_of (λ ss. statements_of ss.items) body.now)) room }
{
    match body {
        Some(body) => statements_fit(body.as_slice(), room),
        None => true,
    }
}

fn function_fits(f: &Func, room: u64) -> bool
    ensures { result ≡ levels.function_fits room (function_of f.now) }
{
    initialisers_fit(f.inits.as_slice(), room) && body_fits(&f.body, room)
}

fn functions_fit(functions: &[Func], room: u64) -> bool
    ensures { result ≡ list_all (levels.function_fits room) (map function_of functions.now) }
{
    let mut rest = functions;
    'functions: while let Some((first, others)) = rest.split_first() {
        if !function_fits(first, room) {
            return false;
        }
        rest = others;
    }
    true
}

// The parts of an object stand in one another, and what its functions do in the last.
fn class_fits(class: &ClassDecl) -> bool
    ensures { result ≡ levels.class_fits (class_of class.now) }
{
    let parts = class.members.len() as u64 + u64::from(class.base.is_some()) + 1;
    match MOST_LEVELS.checked_sub(parts) {
        Some(room) => functions_fit(class.funcs.as_slice(), room),
        None => false,
    }
}

fn classes_fit(classes: &[ClassDecl]) -> bool
    ensures { result ≡ list_all levels.class_fits (map class_of classes.now) }
{
    let mut rest = classes;
    'classes: while let Some((first, others)) = rest.split_first() {
        if !class_fits(first) {
            return false;
        }
        rest = others;
    }
    true
}

/// Whether no call of a program goes deeper than its evaluation may.
pub fn is_shallow(program: &Checked) -> bool
    ensures { result ≡ levels.is_shallow (checked_of program.now) }
{
    functions_fit(program.functions.as_slice(), MOST_LEVELS)
        && classes_fit(program.classes.as_slice())
}
