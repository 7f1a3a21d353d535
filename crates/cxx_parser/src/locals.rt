// Reading local variables, and statements that begin with a name.
ghost use Rattle.std.specs.Prelude.{ℕ, ◌≡◌, ◌≤◌, ◌<◌, ◌+◌, true, false, IfOk, length, nat_lt};
ghost use Rattle.cxx_ast.specs.declared.mark.Mark.TheVariants as sign;
ghost use Rattle.cxx_ast.specs.declared.name.Name.{Name};
ghost use Rattle.cxx_ast.specs.declared.token.TokenKind.TheVariants as kind;
ghost use Rattle.cxx_ast.specs.Limits.{most_depth};
ghost use Rattle.cxx_ast.specs.Plain.{local_ref};
ghost use Rattle.cxx_ast.specs.View.{statement_of};
ghost use Rattle.cxx_parser.specs.Contexts.{InStatement, of_local, of_referred, of_call_statement, of_std_call_statement, of_std_statement, of_statement};
ghost use Rattle.cxx_parser.specs.Gives.{Gives, Refuses, begins};
ghost use Rattle.cxx_parser.specs.Reading.{read};
ghost use Rattle.cxx_parser.specs.States.{expect, want_name, after_open, have_path, after_const, have_type, have_statement, after_first_name, after_only_name, after_int, after_int_name, after_object_name};
ghost use Rattle.cxx_parser.specs.Statements.{takes_locals};

use crate::error::ParseError;
use crate::expression::{arguments, expression, path, some_arguments};
use crate::nodes;
use crate::tokens::{
    MAX_DEPTH, Read, after_mark, after_name, expect_mark, is_bad_exception, is_mark, name,
    place_of, within,
};
use crate::types::const_reference;
use cxx_ast::expression::Lvalue;
use cxx_ast::mark::Mark;
use cxx_ast::name::Name;
use cxx_ast::statement::Stmt;
use cxx_ast::token::Token;
use cxx_ast::types::{Param, Ty};
use std::alloc::Global;

// What a reference stands for, behind its name.
#[tactic(auto, unfolding(crate::specs::Reading::read, crate::specs::Reading::feed))]
fn referred(alloc: Global, tokens: &[Token], end: u32) -> Read<'_, Vec<Name>>
    ensures gives { (total : ℕ) (p : Param) (C : InStatement) → Gives (λ x. read total end x.1.now (have_statement (local_ref p x.0.items) C)) result (read total end tokens.now (expect (kind.Mark sign.Assign) (want_name (of_referred p C)))) }
    ensures shorter { IfOk result (λ x. length x.1.now < length tokens.now) }
{
    let rest = expect_mark(tokens, Mark::Assign, end)?;
    let (first, rest) = name(alloc, rest, end)?;
    let (names, rest) = path(alloc, first, rest, end)?;
    let rest = expect_mark(rest, Mark::Semicolon, end)?;
    Ok((names, rest))
}

// A reference, behind its type.
#[tactic(auto, unfolding(crate::specs::Reading::read, crate::specs::Reading::feed))]
fn reference(alloc: Global, ty: Ty, tokens: &[Token], end: u32) -> Read<'_, Stmt>
    ensures gives { (total : ℕ) (C : InStatement) → Gives (λ x. read total end x.1.now (have_statement (statement_of x.0) C)) result (read total end tokens.now (have_type ty (of_local C))) }
    ensures shorter { IfOk result (λ x. length x.1.now < length tokens.now) }
{
    match after_name(alloc, tokens)? {
        Some((declared, rest)) => {
            let (names, rest) = referred(alloc, rest, end)?;
            let param = Param {
                ty,
                name: Some(declared),
            };
            Ok((Stmt::LocalRef(param, Lvalue { path: names }), rest))
        }
        None => Err(ParseError::Unexpected(place_of(tokens, end))),
    }
}

// A reference to const, behind `const`.
pub fn const_local(alloc: Global, tokens: &[Token], end: u32) -> Read<'_, Stmt>
    ensures gives { (total : ℕ) (C : InStatement) → Gives (λ x. read total end x.1.now (have_statement (statement_of x.0) C)) result (read total end tokens.now (after_const (of_local C))) }
    ensures shorter { IfOk result (λ x. length x.1.now < length tokens.now) }
{
    let (ty, rest) = const_reference(alloc, tokens, end)?;
    reference(alloc, ty, rest, end)
}

// An int or a reference to one, behind `int`.
#[tactic(auto, unfolding(crate::specs::Reading::read, crate::specs::Reading::feed))]
pub fn int_local(alloc: Global, tokens: &[Token], depth: u32, end: u32) -> Read<'_, Stmt>
    requires { depth ≤ most_depth }
    ensures gives { (total : ℕ) (C : InStatement) → Gives (λ x. read total end x.1.now (have_statement (statement_of x.0) C)) result (read total end tokens.now (after_int depth C)) }
    ensures shorter { IfOk result (λ x. length x.1.now < length tokens.now) }
{
    if let Some(rest) = after_mark(tokens, Mark::Amp) {
        return reference(alloc, Ty::IntRef(false), rest, end);
    }
    match after_name(alloc, tokens)? {
        Some((name, rest)) => int_value(alloc, name, rest, depth, end),
        None => Err(ParseError::Unexpected(place_of(tokens, end))),
    }
}

// An int, behind its name.
#[tactic(auto, unfolding(crate::specs::Reading::read, crate::specs::Reading::feed))]
fn int_value(alloc: Global, name: Name, tokens: &[Token], depth: u32, end: u32) -> Read<'_, Stmt>
    requires { depth ≤ most_depth }
    ensures gives { (total : ℕ) (C : InStatement) → Gives (λ x. read total end x.1.now (have_statement (statement_of x.0) C)) result (read total end tokens.now (after_int_name name depth C)) }
    ensures shorter { IfOk result (λ x. length x.1.now < length tokens.now) }
{
    if let Some(rest) = after_mark(tokens, Mark::Assign) {
        within(depth + 1, place_of(tokens, end))?;
        let (value, rest) = expression(alloc, rest, depth + 1, end)?;
        let rest = expect_mark(rest, Mark::Semicolon, end)?;
        return Ok((Stmt::LocalInt(name, Some(value.expr)), rest));
    }
    let rest = expect_mark(tokens, Mark::Semicolon, end)?;
    Ok((Stmt::LocalInt(name, None), rest))
}

// An object of a class, behind its name.
#[tactic(auto, using(crate::proofs::Rows::arguments_of), unfolding(crate::specs::Reading::read, crate::specs::Reading::feed))]
fn object(
    alloc: Global,
    class: Name,
    name: Name,
    tokens: &[Token],
    depth: u32,
    end: u32,
) -> Read<'_, Stmt>
    requires { depth ≤ most_depth }
    ensures gives { (total : ℕ) (C : InStatement) → Gives (λ x. read total end x.1.now (have_statement (statement_of x.0) C)) result (read total end tokens.now (after_object_name class name depth C)) }
    ensures shorter { IfOk result (λ x. length x.1.now < length tokens.now) }
{
    if let Some(rest) = after_mark(tokens, Mark::OpenParen) {
        within(depth + 1, place_of(tokens, end))?;
        let (args, rest) = some_arguments(alloc, rest, depth + 1, end)?;
        let rest = expect_mark(rest, Mark::Semicolon, end)?;
        return Ok((Stmt::LocalObject(class, name, args.list), rest));
    }
    let rest = expect_mark(tokens, Mark::Semicolon, end)?;
    Ok((Stmt::LocalObject(class, name, Vec::new(alloc)), rest))
}

// A statement that begins with a name, behind that. Where locals may be declared, it may be a class's.
#[tactic(auto, using(crate::proofs::Stated::no_class, crate::proofs::Stated::no_local), unfolding(crate::specs::Reading::read, crate::specs::Reading::feed))]
pub fn after_first_name(
    alloc: Global,
    first: Name,
    tokens: &[Token],
    depth: u32,
    locals: bool,
    end: u32,
) -> Read<'_, Stmt>
    requires { depth ≤ most_depth }
    ensures gives { (total : ℕ) (C : InStatement) → takes_locals C ≡ locals → Gives (λ x. read total end x.1.now (have_statement (statement_of x.0) C)) result (read total end tokens.now (after_first_name first depth C)) }
    ensures shorter { IfOk result (λ x. length x.1.now < length tokens.now) }
{
    if locals {
        if let Some(rest) = after_mark(tokens, Mark::Amp) {
            if is_bad_exception(&first) {
                return Err(ParseError::Unexpected(place_of(tokens, end)));
            }
            return reference(alloc, Ty::ObjectRef(false, first), rest, end);
        }
        if let Some((name, rest)) = after_name(alloc, tokens)? {
            return object(alloc, first, name, rest, depth, end);
        }
    }
    assignment_or_call(alloc, first, tokens, depth, end)
}

// An assignment or a call, behind its first name.
#[tactic(auto, using(crate::proofs::Stated::only_name), unfolding(crate::specs::Reading::read, crate::specs::Reading::feed))]
fn assignment_or_call(
    alloc: Global,
    first: Name,
    tokens: &[Token],
    depth: u32,
    end: u32,
) -> Read<'_, Stmt>
    requires { depth ≤ most_depth }
    ensures gives { (total : ℕ) (C : InStatement) → Gives (λ x. read total end x.1.now (have_statement (statement_of x.0) C)) result (read total end tokens.now (after_only_name first depth C)) }
    ensures shorter { IfOk result (λ x. length x.1.now < length tokens.now) }
{
    if depth >= MAX_DEPTH {
        return Err(below_deepest(tokens, end));
    }
    let (names, rest) = path(alloc, first, tokens, end)?;
    let callee = Lvalue { path: names };
    match after_mark(rest, Mark::OpenParen) {
        Some(inside) => call_statement(alloc, callee, inside, depth, end),
        None => assignment(alloc, callee, rest, depth, end),
    }
}

// Why a statement at the greatest depth can't go on behind its first name.
#[tactic(auto, unfolding(crate::specs::Reading::read, crate::specs::Reading::feed))]
fn below_deepest(tokens: &[Token], end: u32) -> ParseError
    ensures { (total : ℕ) (first : Name) (depth : ℕ) (C : InStatement) → nat_lt most_depth (depth + 1) ≡ true → Refuses result (read total end tokens.now (after_only_name first depth C)) }
{
    match tokens.split_first() {
        Some((next, _)) => {
            if is_mark(Mark::Dot, &next.kind)
                || is_mark(Mark::OpenParen, &next.kind)
                || is_mark(Mark::Assign, &next.kind)
            {
                ParseError::TooDeep(next.place)
            } else {
                ParseError::Unexpected(next.place)
            }
        }
        None => ParseError::Unexpected(end),
    }
}

// A call whose value is not used, behind `(`.
#[tactic(auto, using(crate::proofs::Rows::arguments_of), unfolding(crate::specs::Reading::read, crate::specs::Reading::feed))]
fn call_statement(
    alloc: Global,
    callee: Lvalue,
    tokens: &[Token],
    depth: u32,
    end: u32,
) -> Read<'_, Stmt>
    requires { depth < most_depth }
    ensures gives { (total : ℕ) (C : InStatement) → Gives (λ x. read total end x.1.now (have_statement (statement_of x.0) C)) result (read total end tokens.now (after_open (depth + 2) (of_call_statement callee.path.items C))) }
    ensures shorter { IfOk result (λ x. length x.1.now < length tokens.now) }
{
    let (args, rest) = arguments(alloc, tokens, depth + 2, end)?;
    let rest = expect_mark(rest, Mark::Semicolon, end)?;
    Ok((Stmt::Call(nodes::call(callee.path, args).expr), rest))
}

// An assignment, behind its left side.
#[tactic(auto, unfolding(crate::specs::Reading::read, crate::specs::Reading::feed))]
fn assignment(
    alloc: Global,
    target: Lvalue,
    tokens: &[Token],
    depth: u32,
    end: u32,
) -> Read<'_, Stmt>
    requires { depth < most_depth }
    ensures gives { (total : ℕ) (C : InStatement) → begins tokens.now (kind.Mark sign.OpenParen) ≡ false → Gives (λ x. read total end x.1.now (have_statement (statement_of x.0) C)) result (read total end tokens.now (have_path target.path.items (of_statement depth C))) }
    ensures shorter { IfOk result (λ x. length x.1.now < length tokens.now) }
{
    let rest = expect_mark(tokens, Mark::Assign, end)?;
    let (value, rest) = expression(alloc, rest, depth + 1, end)?;
    let rest = expect_mark(rest, Mark::Semicolon, end)?;
    Ok((Stmt::Assign(target, value.expr), rest))
}

// The arguments of a call of `std::` and a name, behind the name.
#[tactic(auto, using(crate::proofs::Rows::arguments_of), unfolding(crate::specs::Reading::read, crate::specs::Reading::feed))]
fn std_called(
    alloc: Global,
    called: Name,
    tokens: &[Token],
    place: u32,
    depth: u32,
    end: u32,
) -> Read<'_, Stmt>
    requires { depth < most_depth }
    ensures gives { (total : ℕ) (C : InStatement) → Gives (λ x. read total end x.1.now (have_statement (statement_of x.0) C)) result (read total end tokens.now (expect (kind.Mark sign.OpenParen) (after_open (depth + 2) (of_std_call_statement called place C)))) }
    ensures shorter { IfOk result (λ x. length x.1.now < length tokens.now) }
{
    let rest = expect_mark(tokens, Mark::OpenParen, end)?;
    let (args, rest) = arguments(alloc, rest, depth + 2, end)?;
    let rest = expect_mark(rest, Mark::Semicolon, end)?;
    Ok((Stmt::Call(nodes::std_call(called, args, place).expr), rest))
}

// A call of `std::` and a name whose value is not used, behind `std` with its place.
#[tactic(auto, using(crate::proofs::Rows::arguments_of), unfolding(crate::specs::Reading::read, crate::specs::Reading::feed))]
pub fn std_call_statement(
    alloc: Global,
    tokens: &[Token],
    place: u32,
    depth: u32,
    end: u32,
) -> Read<'_, Stmt>
    requires { depth < most_depth }
    ensures gives { (total : ℕ) (C : InStatement) → Gives (λ x. read total end x.1.now (have_statement (statement_of x.0) C)) result (read total end tokens.now (expect (kind.Mark sign.ColonColon) (want_name (of_std_statement place depth C)))) }
    ensures shorter { IfOk result (λ x. length x.1.now < length tokens.now) }
{
    let rest = expect_mark(tokens, Mark::ColonColon, end)?;
    let (called, rest) = name(alloc, rest, end)?;
    std_called(alloc, called, rest, place, depth, end)
}
