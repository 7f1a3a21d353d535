// Reading statements that hold no others.
ghost use Rattle.std.specs.Prelude.{ℕ, ◌≡◌, ◌≤◌, ◌<◌, ◌+◌, IfOk, length};
ghost use Rattle.cxx_ast.specs.Limits.{most_depth};
ghost use Rattle.cxx_ast.specs.View.{option_of, expression_of, statement_of};
ghost use Rattle.cxx_parser.specs.Contexts.{InStatement, InJump};
ghost use Rattle.cxx_parser.specs.Expressions.{have_jump};
ghost use Rattle.cxx_parser.specs.Gives.{Gives};
ghost use Rattle.cxx_parser.specs.Reading.{read};
ghost use Rattle.cxx_parser.specs.States.{want_simple, want_plain, want_named, have_statement, after_jump};
ghost use Rattle.cxx_parser.specs.Statements.{takes_locals};

use crate::error::ParseError;
use crate::expression::expression;
use crate::locals::{after_first_name, const_local, int_local, std_call_statement};
use crate::tokens::{Read, after_mark, after_name, after_word, expect_mark, place_of, within};
use cxx_ast::expression::Expr;
use cxx_ast::keyword::Keyword;
use cxx_ast::mark::Mark;
use cxx_ast::statement::Stmt;
use cxx_ast::token::Token;
use std::alloc::Global;

// A statement that holds no other, or a declaration of a local variable.
#[tactic(auto, using(crate::proofs::Stated::plain_begins), unfolding(crate::specs::Reading::read, crate::specs::Reading::feed))]
pub fn simple_statement(
    alloc: Global,
    tokens: &[Token],
    depth: u32,
    locals: bool,
    end: u32,
) -> Read<'_, Stmt>
    requires { depth ≤ most_depth + 1 }
    ensures gives { (total : ℕ) (C : InStatement) → takes_locals C ≡ locals → Gives (λ x. read total end x.1.now (have_statement (statement_of x.0) C)) result (read total end tokens.now (want_simple depth C)) }
    ensures shorter { IfOk result (λ x. length x.1.now < length tokens.now) }
{
    let place = place_of(tokens, end);
    if let Some(rest) = after_mark(tokens, Mark::Semicolon) {
        within(depth, place)?;
        return Ok((Stmt::Empty, rest));
    }
    if let Some(rest) = after_word(tokens, Keyword::Return) {
        within(depth, place)?;
        let (value, rest) = jump_value(alloc, rest, depth, end)?;
        return Ok((Stmt::Return(place, value), rest));
    }
    if let Some(rest) = after_word(tokens, Keyword::Throw) {
        within(depth, place)?;
        let (value, rest) = jump_value(alloc, rest, depth, end)?;
        return Ok((Stmt::Throw(place, value), rest));
    }
    plain_statement(alloc, tokens, depth, locals, end)
}

// A `break`, a `continue`, a call of `std::`, a statement that begins with a name, or a declaration of a local variable.
#[tactic(auto, using(crate::proofs::Stated::named_begins), unfolding(crate::specs::Reading::read, crate::specs::Reading::feed))]
fn plain_statement(
    alloc: Global,
    tokens: &[Token],
    depth: u32,
    locals: bool,
    end: u32,
) -> Read<'_, Stmt>
    requires { depth ≤ most_depth + 1 }
    ensures gives { (total : ℕ) (C : InStatement) → takes_locals C ≡ locals → Gives (λ x. read total end x.1.now (have_statement (statement_of x.0) C)) result (read total end tokens.now (want_plain depth C)) }
    ensures shorter { IfOk result (λ x. length x.1.now < length tokens.now) }
{
    let place = place_of(tokens, end);
    if let Some(rest) = after_word(tokens, Keyword::Break) {
        within(depth, place)?;
        let rest = expect_mark(rest, Mark::Semicolon, end)?;
        return Ok((Stmt::Break(place), rest));
    }
    if let Some(rest) = after_word(tokens, Keyword::Continue) {
        within(depth, place)?;
        let rest = expect_mark(rest, Mark::Semicolon, end)?;
        return Ok((Stmt::Continue(place), rest));
    }
    if let Some(rest) = after_word(tokens, Keyword::Std) {
        within(depth + 1, place)?;
        return std_call_statement(alloc, rest, place, depth, end);
    }
    named_statement(alloc, tokens, depth, locals, end)
}

// The value of a `return` or a `throw` in a statement at a depth, and `;`.
#[tactic(auto, using(crate::proofs::Stated::jump_has_value), unfolding(crate::specs::Reading::read, crate::specs::Reading::feed))]
fn jump_value(alloc: Global, tokens: &[Token], depth: u32, end: u32) -> Read<'_, Option<Expr>>
    requires { depth ≤ most_depth }
    ensures gives { (total : ℕ) (J : InJump) → Gives (λ x. read total end x.1.now (have_jump (option_of expression_of x.0) J)) result (read total end tokens.now (after_jump depth J)) }
    ensures shorter { IfOk result (λ x. length x.1.now < length tokens.now) }
{
    match after_mark(tokens, Mark::Semicolon) {
        Some(rest) => Ok((None, rest)),
        None => {
            let (value, rest) = expression(alloc, tokens, depth + 1, end)?;
            let rest = expect_mark(rest, Mark::Semicolon, end)?;
            Ok((Some(value.expr), rest))
        }
    }
}

// A statement that begins with a name, or a declaration of a local variable.
#[tactic(auto, unfolding(crate::specs::Reading::read, crate::specs::Reading::feed))]
fn named_statement(
    alloc: Global,
    tokens: &[Token],
    depth: u32,
    locals: bool,
    end: u32,
) -> Read<'_, Stmt>
    requires { depth ≤ most_depth + 1 }
    ensures gives { (total : ℕ) (C : InStatement) → takes_locals C ≡ locals → Gives (λ x. read total end x.1.now (have_statement (statement_of x.0) C)) result (read total end tokens.now (want_named depth C)) }
    ensures shorter { IfOk result (λ x. length x.1.now < length tokens.now) }
{
    let place = place_of(tokens, end);
    if let Some((name, rest)) = after_name(alloc, tokens)? {
        within(if locals { depth } else { depth + 1 }, place)?;
        return after_first_name(alloc, name, rest, depth, locals, end);
    }
    if locals {
        if let Some(rest) = after_word(tokens, Keyword::Int) {
            within(depth, place)?;
            return int_local(alloc, rest, depth, end);
        }
        if let Some(rest) = after_word(tokens, Keyword::Const) {
            within(depth, place)?;
            return const_local(alloc, rest, end);
        }
    }
    Err(ParseError::Unexpected(place))
}
