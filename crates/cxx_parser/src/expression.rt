// Reading expressions.
ghost use Rattle.std.specs.Prelude.{ℕ, ◌≡◌, ◌≤◌, ◌<◌, ◌+◌, true, IfOk, List, [], ◌∷◌, length, map, nat_lt};
ghost use Rattle.cxx_ast.specs.declared.mark.Mark.TheVariants as sign;
ghost use Rattle.cxx_ast.specs.declared.token.TokenKind.TheVariants as kind;
ghost use Rattle.cxx_ast.specs.Limits.{most_depth};
ghost use Rattle.cxx_ast.specs.View.{expression_of};
ghost use Rattle.cxx_parser.specs.Contexts.{Pending, InExpression, InCall, InPath, in_argument, in_paren, of_operand, of_std_operand};
ghost use Rattle.cxx_parser.specs.Expressions.{have_arguments};
ghost use Rattle.cxx_parser.specs.Gives.{Gives};
ghost use Rattle.cxx_parser.specs.Operators.{bind_below};
ghost use Rattle.cxx_parser.specs.Reading.{read};
ghost use Rattle.cxx_parser.specs.Signs.{first_level};
ghost use Rattle.cxx_parser.specs.States.{expect, want_name, want_operand, have_operand, have_expression, after_path, have_path, after_open, have_argument};

use crate::error::ParseError;
use crate::nodes::{self, Arguments, Measured};
use crate::tokens;
use crate::tokens::{
    Read, after_mark, expect_mark, level_of, literal_of, name, name_of, operator_from, place_of,
    prefix_of, within,
};
use cxx_ast::keyword::Keyword;
use cxx_ast::mark::Mark;
use cxx_ast::name::Name;
use cxx_ast::token::Token;
use std::alloc::Global;

// The names of a path, behind its first.
#[tactic(auto, using(crate::proofs::Settled::names_end), unfolding(crate::specs::Reading::read, crate::specs::Reading::feed))]
pub fn path(alloc: Global, first: Name, tokens: &[Token], end: u32) -> Read<'_, Vec<Name>>
    ensures gives { (total : ℕ) (P : InPath) → Gives (λ x. read total end x.1.now (have_path x.0.items P)) result (read total end tokens.now (after_path (first ∷ []) P)) }
    ensures shorter { IfOk result (λ x. length x.1.now ≤ length tokens.now) }
{
    let mut names = Vec::new(alloc);
    names.push(first)?;
    let mut rest = tokens;
    while let Some(after) = after_mark(rest, Mark::Dot) {
        let (next, more) = name(alloc, after, end)?;
        names.push(next)?;
        rest = more;
    }
    Ok((names, rest))
}

// A whole expression at a depth.
#[tactic(auto, using(crate::proofs::Settled::operand_ends))]
#[cycle(expressions)]
pub fn expression(alloc: Global, tokens: &[Token], depth: u32, end: u32) -> Read<'_, Measured>
    requires { depth ≤ most_depth + 1 }
    ensures gives { (total : ℕ) (E : InExpression) → Gives (λ x. read total end x.1.now (have_expression (expression_of x.0.expr) E)) result (read total end tokens.now (want_operand depth [] E)) }
    ensures shorter { IfOk result (λ x. length x.1.now < length tokens.now) }
    ensures low { IfOk result (λ x. depth + x.0.levels ≤ most_depth) }
{
    operators(alloc, tokens, 1, depth, end)
}

// An operand at a depth, and the operators behind it that bind at least as tightly as a level.
#[cycle(expressions)]
fn operators(
    alloc: Global,
    tokens: &[Token],
    level: u32,
    depth: u32,
    end: u32,
) -> Read<'_, Measured>
    requires level { (0 < level) × (level ≤ 7) }
    requires depth { depth ≤ most_depth + 1 }
    ensures gives { (total : ℕ) (ps : List Pending) (E : InExpression) → bind_below level ps ≡ true → Gives (λ x. read total end x.1.now (have_operand depth (expression_of x.0.expr) ps E)) result (read total end tokens.now (want_operand depth ps E)) }
    ensures ends { IfOk result (λ x. nat_lt (first_level x.1.now) level ≡ true) }
    ensures shorter { IfOk result (λ x. length x.1.now < length tokens.now) }
    ensures low { IfOk result (λ x. depth + x.0.levels ≤ most_depth) }
{
    let (mut left, mut rest) = operand(alloc, tokens, depth, end)?;
    while let Some((op, after)) = operator_from(rest, level) {
        within(depth + 1 + left.levels, place_of(rest, end))?;
        let (right, more) = operators(alloc, after, level_of(op) + 1, depth + 1, end)?;
        left = nodes::binary(alloc, op, left, right)?;
        rest = more;
    }
    Ok((left, rest))
}

// An operand at a depth.
#[tactic(auto, using(crate::proofs::Settled::prefix_settles), unfolding(crate::specs::Reading::read, crate::specs::Reading::feed))]
#[cycle(expressions)]
fn operand(alloc: Global, tokens: &[Token], depth: u32, end: u32) -> Read<'_, Measured>
    requires { depth ≤ most_depth + 1 }
    ensures gives { (total : ℕ) (ps : List Pending) (E : InExpression) → Gives (λ x. read total end x.1.now (have_operand depth (expression_of x.0.expr) ps E)) result (read total end tokens.now (want_operand depth ps E)) }
    ensures shorter { IfOk result (λ x. length x.1.now < length tokens.now) }
    ensures low { IfOk result (λ x. depth + x.0.levels ≤ most_depth) }
{
    let (first, rest) = match tokens.split_first() {
        Some(parts) => parts,
        None => return Err(ParseError::Unexpected(end)),
    };
    if let Some(op) = prefix_of(&first.kind) {
        within(depth + 1, first.place)?;
        let (inner, after) = operand(alloc, rest, depth + 1, end)?;
        return Ok((nodes::unary(alloc, op, inner, first.place)?, after));
    }
    if let Some(value) = literal_of(&first.kind) {
        within(depth, first.place)?;
        return Ok((nodes::number(value, first.place), rest));
    }
    if let Some(name) = name_of(alloc, first)? {
        within(depth, first.place)?;
        return path_or_call(alloc, name, rest, depth, end);
    }
    if tokens::is_mark(Mark::OpenParen, &first.kind) {
        within(depth + 1, first.place)?;
        return paren(alloc, rest, first.place, depth, end);
    }
    if tokens::is_word(Keyword::Std, &first.kind) {
        within(depth, first.place)?;
        return std_call(alloc, rest, first.place, depth, end);
    }
    Err(ParseError::Unexpected(first.place))
}

// An expression in parentheses, behind `(`.
#[tactic(auto, unfolding(crate::specs::Reading::read, crate::specs::Reading::feed))]
#[cycle(expressions)]
fn paren(alloc: Global, tokens: &[Token], place: u32, depth: u32, end: u32) -> Read<'_, Measured>
    requires { depth < most_depth }
    ensures gives { (total : ℕ) (ps : List Pending) (E : InExpression) → Gives (λ x. read total end x.1.now (have_operand depth (expression_of x.0.expr) ps E)) result (read total end tokens.now (want_operand (depth + 1) [] (in_paren place depth ps E))) }
    ensures shorter { IfOk result (λ x. length x.1.now < length tokens.now) }
    ensures low { IfOk result (λ x. depth + x.0.levels ≤ most_depth) }
{
    let (inner, rest) = expression(alloc, tokens, depth + 1, end)?;
    let after = expect_mark(rest, Mark::CloseParen, end)?;
    Ok((nodes::paren(alloc, inner, place)?, after))
}

// A path or a call, behind its first name.
#[tactic(auto, using(crate::proofs::Settled::path_ends, crate::proofs::Rows::arguments_of), unfolding(crate::specs::Reading::read, crate::specs::Reading::feed))]
#[cycle(expressions)]
fn path_or_call(
    alloc: Global,
    first: Name,
    tokens: &[Token],
    depth: u32,
    end: u32,
) -> Read<'_, Measured>
    requires { depth ≤ most_depth }
    ensures gives { (total : ℕ) (ps : List Pending) (E : InExpression) → Gives (λ x. read total end x.1.now (have_operand depth (expression_of x.0.expr) ps E)) result (read total end tokens.now (after_path (first ∷ []) (of_operand depth ps E))) }
    ensures shorter { IfOk result (λ x. length x.1.now ≤ length tokens.now) }
    ensures low { IfOk result (λ x. depth + x.0.levels ≤ most_depth) }
{
    let (names, rest) = path(alloc, first, tokens, end)?;
    match after_mark(rest, Mark::OpenParen) {
        None => Ok((nodes::path(names), rest)),
        Some(inside) => {
            let (args, after) = arguments(alloc, inside, depth + 1, end)?;
            Ok((nodes::call(names, args), after))
        }
    }
}

// A call of `std::` and a name, behind `std`.
#[tactic(auto, using(crate::proofs::Rows::arguments_of), unfolding(crate::specs::Reading::read, crate::specs::Reading::feed))]
#[cycle(expressions)]
fn std_call(alloc: Global, tokens: &[Token], place: u32, depth: u32, end: u32) -> Read<'_, Measured>
    requires { depth ≤ most_depth }
    ensures gives { (total : ℕ) (ps : List Pending) (E : InExpression) → Gives (λ x. read total end x.1.now (have_operand depth (expression_of x.0.expr) ps E)) result (read total end tokens.now (expect (kind.Mark sign.ColonColon) (want_name (of_std_operand place depth ps E)))) }
    ensures shorter { IfOk result (λ x. length x.1.now < length tokens.now) }
    ensures low { IfOk result (λ x. depth + x.0.levels ≤ most_depth) }
{
    let rest = expect_mark(tokens, Mark::ColonColon, end)?;
    let (called, rest) = name(alloc, rest, end)?;
    let rest = expect_mark(rest, Mark::OpenParen, end)?;
    let (args, after) = arguments(alloc, rest, depth + 1, end)?;
    Ok((nodes::std_call(called, args, place), after))
}

// The arguments of a call, each at a depth, from behind `(` to behind `)`.
#[tactic(auto, using(crate::proofs::Settled::first_argument), unfolding(crate::specs::Reading::read, crate::specs::Reading::feed))]
#[cycle(expressions)]
pub fn arguments(alloc: Global, tokens: &[Token], depth: u32, end: u32) -> Read<'_, Arguments>
    requires { depth ≤ most_depth + 1 }
    ensures gives { (total : ℕ) (K : InCall) → Gives (λ x. read total end x.1.now (have_arguments (map expression_of x.0.list.items) K)) result (read total end tokens.now (after_open depth K)) }
    ensures shorter { IfOk result (λ x. length x.1.now < length tokens.now) }
    ensures low { IfOk result (λ x. depth + x.0.levels ≤ most_depth + 1) }
{
    match after_mark(tokens, Mark::CloseParen) {
        Some(after) => Ok((nodes::no_arguments(alloc), after)),
        None => some_arguments(alloc, tokens, depth, end),
    }
}

// The arguments of a call, where there are some.
#[tactic(auto, using(crate::proofs::Settled::argument_settles, crate::proofs::Rows::mapped_last), unfolding(crate::specs::Reading::read, crate::specs::Reading::feed))]
#[cycle(expressions)]
pub fn some_arguments(alloc: Global, tokens: &[Token], depth: u32, end: u32) -> Read<'_, Arguments>
    requires { depth ≤ most_depth + 1 }
    ensures gives { (total : ℕ) (K : InCall) → Gives (λ x. read total end x.1.now (have_arguments (map expression_of x.0.list.items) K)) result (read total end tokens.now (want_operand depth [] (in_argument depth [] K))) }
    ensures shorter { IfOk result (λ x. length x.1.now < length tokens.now) }
    ensures low { IfOk result (λ x. depth + x.0.levels ≤ most_depth + 1) }
{
    let (first, mut rest) = expression(alloc, tokens, depth, end)?;
    let mut args = nodes::with_argument(nodes::no_arguments(alloc), first)?;
    while let Some(after) = after_mark(rest, Mark::Comma) {
        let (next, more) = expression(alloc, after, depth, end)?;
        args = nodes::with_argument(args, next)?;
        rest = more;
    }
    let after = expect_mark(rest, Mark::CloseParen, end)?;
    Ok((args, after))
}
