// Reading statements that hold others.
ghost use Rattle.std.specs.Prelude.{ℕ, ◌≡◌, ◌≤◌, ◌<◌, ◌+◌, IfOk, List, [], ◌∷◌, ◌++◌, length, map};
ghost use Rattle.cxx_ast.specs.declared.mark.Mark.TheVariants as sign;
ghost use Rattle.cxx_ast.specs.declared.token.TokenKind.TheVariants as kind;
ghost use Rattle.cxx_ast.specs.Limits.{most_depth};
ghost use Rattle.cxx_ast.specs.Plain.{Statements, try};
ghost use Rattle.cxx_ast.specs.View.{statement_of};
ghost use Rattle.cxx_parser.specs.Contexts.{InStatement, InBlock, in_try, Caught, in_if_test, in_while_test, of_try};
ghost use Rattle.cxx_parser.specs.Gives.{Gives, count_before};
ghost use Rattle.cxx_parser.specs.Reading.{read};
ghost use Rattle.cxx_parser.specs.States.{expect, want_operand, want_caught, want_statement, in_statements, have_statement, after_handler};
ghost use Rattle.cxx_parser.specs.Statements.{takes_locals, have_block};
ghost use Rattle.cxx_parser.specs.Stored.{statements_from, handlers_from, caught_of};

use crate::caught::caught;
use crate::expression::expression;
use crate::nodes;
use crate::simple::simple_statement;
use crate::tokens::{Read, after_mark, after_word, expect_mark, expect_word, place_of, within};
use cxx_ast::keyword::Keyword;
use cxx_ast::mark::Mark;
use cxx_ast::statement::{Handler, Stmt};
use cxx_ast::token::Token;
use std::alloc::Global;

// A statement at a depth, or, where that is so, a declaration of a local variable.
#[tactic(auto, using(crate::proofs::Stated::simple_begins), unfolding(crate::specs::Reading::read, crate::specs::Reading::feed))]
#[cycle(statements)]
pub fn statement(
    alloc: Global,
    tokens: &[Token],
    depth: u32,
    locals: bool,
    end: u32,
) -> Read<'_, Stmt>
    requires { depth ≤ most_depth + 1 }
    ensures gives { (total : ℕ) (C : InStatement) → takes_locals C ≡ locals → Gives (λ x. read total end x.1.now (have_statement (statement_of x.0) C)) result (read total end tokens.now (want_statement depth C)) }
    ensures shorter { IfOk result (λ x. length x.1.now < length tokens.now) }
{
    let place = place_of(tokens, end);
    if let Some(rest) = after_mark(tokens, Mark::OpenBrace) {
        within(depth, place)?;
        let (body, rest) = block(alloc, rest, depth + 1, end)?;
        return Ok((nodes::block(body), rest));
    }
    if let Some(rest) = after_word(tokens, Keyword::If) {
        within(depth + 1, place)?;
        return if_statement(alloc, rest, depth, end);
    }
    if let Some(rest) = after_word(tokens, Keyword::While) {
        within(depth + 1, place)?;
        return while_statement(alloc, rest, depth, end);
    }
    if let Some(rest) = after_word(tokens, Keyword::Try) {
        within(depth + 2, place)?;
        return try_statement(alloc, rest, depth, end);
    }
    simple_statement(alloc, tokens, depth, locals, end)
}

// The statements of a block, each at a depth, from behind `{` to behind `}`.
#[tactic(auto, using(crate::proofs::Stated::block_goes_on, crate::proofs::Stated::statement_settles, crate::proofs::Rows::mapped_last_statement), unfolding(crate::specs::Reading::read, crate::specs::Reading::feed))]
#[cycle(statements)]
pub fn block(alloc: Global, tokens: &[Token], depth: u32, end: u32) -> Read<'_, Vec<Stmt>>
    requires { depth ≤ most_depth + 1 }
    ensures gives { (total : ℕ) (B : InBlock) → Gives (λ x. read total end x.1.now (have_block (count_before total x.1.now) (statements_from (map statement_of x.0.items)) B)) result (read total end tokens.now (in_statements depth [] B)) }
    ensures shorter { IfOk result (λ x. length x.1.now < length tokens.now) }
{
    let mut body = Vec::new(alloc);
    let mut rest = tokens;
    loop {
        if let Some(after) = after_mark(rest, Mark::CloseBrace) {
            return Ok((body, after));
        }
        let (next, more) = statement(alloc, rest, depth, true, end)?;
        body.push(next)?;
        rest = more;
    }
}

// An `if`, behind that word.
#[tactic(auto, using(crate::proofs::Stated::no_else_comes, crate::proofs::Stated::else_settles), unfolding(crate::specs::Reading::read, crate::specs::Reading::feed))]
#[cycle(statements)]
fn if_statement(alloc: Global, tokens: &[Token], depth: u32, end: u32) -> Read<'_, Stmt>
    requires { depth < most_depth }
    ensures gives { (total : ℕ) (C : InStatement) → Gives (λ x. read total end x.1.now (have_statement (statement_of x.0) C)) result (read total end tokens.now (expect (kind.Mark sign.OpenParen) (want_operand (depth + 1) [] (in_if_test depth C)))) }
    ensures shorter { IfOk result (λ x. length x.1.now < length tokens.now) }
{
    let rest = expect_mark(tokens, Mark::OpenParen, end)?;
    let (test, rest) = expression(alloc, rest, depth + 1, end)?;
    let rest = expect_mark(rest, Mark::CloseParen, end)?;
    let (first, rest) = statement(alloc, rest, depth + 1, false, end)?;
    let first = Box::new(alloc, first)?;
    match after_word(rest, Keyword::Else) {
        None => Ok((Stmt::If(test.expr, first, None), rest)),
        Some(rest) => {
            let (second, rest) = statement(alloc, rest, depth + 1, false, end)?;
            let second = Box::new(alloc, second)?;
            Ok((Stmt::If(test.expr, first, Some(second)), rest))
        }
    }
}

// A `while`, behind that word.
#[tactic(auto, using(crate::proofs::Stated::while_settles), unfolding(crate::specs::Reading::read, crate::specs::Reading::feed))]
#[cycle(statements)]
fn while_statement(alloc: Global, tokens: &[Token], depth: u32, end: u32) -> Read<'_, Stmt>
    requires { depth < most_depth }
    ensures gives { (total : ℕ) (C : InStatement) → Gives (λ x. read total end x.1.now (have_statement (statement_of x.0) C)) result (read total end tokens.now (expect (kind.Mark sign.OpenParen) (want_operand (depth + 1) [] (in_while_test depth C)))) }
    ensures shorter { IfOk result (λ x. length x.1.now < length tokens.now) }
{
    let rest = expect_mark(tokens, Mark::OpenParen, end)?;
    let (test, rest) = expression(alloc, rest, depth + 1, end)?;
    let rest = expect_mark(rest, Mark::CloseParen, end)?;
    let (body, rest) = statement(alloc, rest, depth + 1, false, end)?;
    Ok((Stmt::While(test.expr, Box::new(alloc, body)?), rest))
}

// A `try`, behind that word.
#[tactic(auto, unfolding(crate::specs::Reading::read, crate::specs::Reading::feed))]
#[cycle(statements)]
fn try_statement(alloc: Global, tokens: &[Token], depth: u32, end: u32) -> Read<'_, Stmt>
    requires { depth + 2 ≤ most_depth }
    ensures gives { (total : ℕ) (C : InStatement) → Gives (λ x. read total end x.1.now (have_statement (statement_of x.0) C)) result (read total end tokens.now (expect (kind.Mark sign.OpenBrace) (in_statements (depth + 2) [] (of_try depth C)))) }
    ensures shorter { IfOk result (λ x. length x.1.now < length tokens.now) }
{
    let rest = expect_mark(tokens, Mark::OpenBrace, end)?;
    let (body, rest) = block(alloc, rest, depth + 2, end)?;
    let rest = expect_word(rest, Keyword::Catch, end)?;
    let (handlers, rest) = handlers(alloc, rest, depth, end)?;
    Ok((nodes::try_block(body, handlers), rest))
}

// The handlers of a try at a depth, behind the first `catch`.
#[tactic(auto, using(crate::proofs::Stated::handlers_end, crate::proofs::Rows::mapped_last_handler), unfolding(crate::specs::Reading::read, crate::specs::Reading::feed))]
#[cycle(statements)]
fn handlers(alloc: Global, tokens: &[Token], depth: u32, end: u32) -> Read<'_, Vec<Handler>>
    requires { depth + 2 ≤ most_depth }
    ensures gives { (total : ℕ) (ss : Statements) (C : InStatement) → Gives (λ x. read total end x.1.now (have_statement (try ss (handlers_from (map caught_of x.0.items))) C)) result (read total end tokens.now (expect (kind.Mark sign.OpenParen) (want_caught (in_try ss [] depth C)))) }
    ensures shorter { IfOk result (λ x. length x.1.now < length tokens.now) }
{
    let mut all = Vec::new(alloc);
    let (first, mut rest) = handler(alloc, tokens, depth, end)?;
    all.push(first)?;
    while let Some(after) = after_word(rest, Keyword::Catch) {
        let (next, more) = handler(alloc, after, depth, end)?;
        all.push(next)?;
        rest = more;
    }
    Ok((all, rest))
}

// A handler of a try at a depth, behind `catch`.
#[tactic(auto, unfolding(crate::specs::Reading::read, crate::specs::Reading::feed))]
#[cycle(statements)]
fn handler(alloc: Global, tokens: &[Token], depth: u32, end: u32) -> Read<'_, Handler>
    requires { depth + 2 ≤ most_depth }
    ensures gives { (total : ℕ) (ss : Statements) (cs : List Caught) (C : InStatement) → Gives (λ x. read total end x.1.now (after_handler (in_try ss (cs ++ (caught_of x.0 ∷ [])) depth C))) result (read total end tokens.now (expect (kind.Mark sign.OpenParen) (want_caught (in_try ss cs depth C)))) }
    ensures shorter { IfOk result (λ x. length x.1.now < length tokens.now) }
{
    let rest = expect_mark(tokens, Mark::OpenParen, end)?;
    let place = place_of(rest, end);
    let (what, rest) = caught(alloc, rest, end)?;
    let rest = expect_mark(rest, Mark::OpenBrace, end)?;
    let (body, rest) = block(alloc, rest, depth + 3, end)?;
    Ok((nodes::handler(what.ty, what.name, body, place), rest))
}
