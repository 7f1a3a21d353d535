// The first of some tokens, and what stands behind it.
ghost use Rattle.std.specs.Prelude.{ℕ, ◌≡◌, IfOk, IfSome, length, ◌<◌};
ghost use Rattle.std.specs.Option.{option_map};
ghost use Rattle.cxx_ast.specs.declared.token.TokenKind.TheVariants as kind;
ghost use Rattle.cxx_ast.specs.Spelling.{is_bad_exception};
ghost use Rattle.cxx_parser.specs.Contexts.{InName};
ghost use Rattle.cxx_parser.specs.Classes.{have_name};
ghost use Rattle.cxx_parser.specs.Signs.{is_mark, is_word, name_of, class_of, literal_of, operator_of, prefix_of, level_of};
ghost use Rattle.cxx_parser.specs.States.{want_name};
ghost use Rattle.cxx_parser.specs.Reading.{read};
ghost use Rattle.cxx_parser.specs.Gives.{Gives, Behind, BehindName, BehindNamed, BehindLiteral, Expects, place_at, Within, OperatorFrom};
ghost use Rattle.cxx_ast.specs.Operator.{binary_level};

use crate::NoMemory;
use crate::error::ParseError;
use cxx_ast::expression::{BinaryOp, UnaryOp};
use cxx_ast::keyword::Keyword;
use cxx_ast::mark::Mark;
use cxx_ast::name::{Bound, Name};
use cxx_ast::text::Text;
use cxx_ast::token::{Token, TokenKind};
use std::alloc::Global;

pub const MAX_DEPTH: u32 = 64;

// What was read, and the tokens behind it.
pub type Read<'a, X> = Result<(X, &'a [Token]), ParseError>;

pub fn is_mark(mark: Mark, kind: &TokenKind) -> bool
    ensures { result ≡ is_mark mark kind.now }
{
    match kind {
        TokenKind::Mark(other) => *other == mark,
        _ => false,
    }
}

pub fn is_word(word: Keyword, kind: &TokenKind) -> bool
    ensures { result ≡ is_word word kind.now }
{
    match kind {
        TokenKind::Word(other) => *other == word,
        _ => false,
    }
}

// The place of the first token, or the source's end.
pub fn place_of(tokens: &[Token], end: u32) -> u32
    ensures { result ≡ place_at tokens.now end }
{
    match tokens.first() {
        Some(first) => first.place,
        None => end,
    }
}

// What stands behind a mark, where the tokens begin with it.
#[tactic(auto, using(crate::proofs::TokenTests::mark_is))]
pub fn after_mark(tokens: &[Token], mark: Mark) -> Option<&[Token]>
    ensures { Behind tokens.now (kind.Mark mark) (option_map (λ r. r.now) result) }
{
    match tokens.split_first() {
        Some((first, rest)) => {
            if is_mark(mark, &first.kind) {
                Some(rest)
            } else {
                None
            }
        }
        None => None,
    }
}

// What stands behind a reserved word, where the tokens begin with it.
#[tactic(auto, using(crate::proofs::TokenTests::word_is))]
pub fn after_word(tokens: &[Token], word: Keyword) -> Option<&[Token]>
    ensures { Behind tokens.now (kind.Word word) (option_map (λ r. r.now) result) }
{
    match tokens.split_first() {
        Some((first, rest)) => {
            if is_word(word, &first.kind) {
                Some(rest)
            } else {
                None
            }
        }
        None => None,
    }
}

// The place of a name that the tokens begin with, and what stands behind it.
pub fn after_named<'t>(tokens: &'t [Token], text: &[u8]) -> Option<(u32, &'t [Token])>
    ensures { BehindNamed tokens.now text.now (option_map (λ x. (x.0, x.1.now)) result) }
{
    let (first, rest) = tokens.split_first()?;
    match &first.kind {
        TokenKind::Name(name) => {
            if name.as_bytes() == text {
                Some((first.place, rest))
            } else {
                None
            }
        }
        _ => None,
    }
}

// What stands behind a mark that must come.
pub fn expect_mark(tokens: &[Token], mark: Mark, end: u32) -> Result<&[Token], ParseError>
    ensures { Expects (λ r. r.now) tokens.now (kind.Mark mark) end result }
{
    match after_mark(tokens, mark) {
        Some(rest) => Ok(rest),
        None => Err(ParseError::Unexpected(place_of(tokens, end))),
    }
}

// What stands behind a reserved word that must come.
pub fn expect_word(tokens: &[Token], word: Keyword, end: u32) -> Result<&[Token], ParseError>
    ensures { Expects (λ r. r.now) tokens.now (kind.Word word) end result }
{
    match after_word(tokens, word) {
        Some(rest) => Ok(rest),
        None => Err(ParseError::Unexpected(place_of(tokens, end))),
    }
}

// The name that a token is.
pub fn name_of(alloc: Global, token: &Token) -> Result<Option<Name>, NoMemory>
    ensures { IfOk result (λ name. name ≡ name_of token.now) }
{
    match &token.kind {
        TokenKind::Name(text) => Ok(Some(Name {
            text: Text::copied(alloc, text.as_bytes())?,
            place: token.place,
            bound: Bound::Free,
        })),
        _ => Ok(None),
    }
}

// A name is that of `std::bad_exception`, which the tokens of a source spell in three.
pub fn is_bad_exception(name: &Name) -> bool
    ensures { result ≡ is_bad_exception name.now }
{
    name.text.as_bytes() == b"std::bad_exception".as_slice()
}

// The name of a class that a token is.
pub fn class_of(alloc: Global, token: &Token) -> Result<Option<Name>, NoMemory>
    ensures { IfOk result (λ name. name ≡ class_of token.now) }
{
    match name_of(alloc, token)? {
        Some(name) => {
            if is_bad_exception(&name) {
                Ok(None)
            } else {
                Ok(Some(name))
            }
        }
        None => Ok(None),
    }
}

// A name that the tokens begin with, and what stands behind it.
pub fn after_name(alloc: Global, tokens: &[Token]) -> Result<Option<(Name, &[Token])>, NoMemory>
    ensures { IfOk result (λ found. BehindName tokens.now (option_map (λ x. (x.0, x.1.now)) found)) }
{
    match tokens.split_first() {
        Some((first, rest)) => match name_of(alloc, first)? {
            Some(name) => Ok(Some((name, rest))),
            None => Ok(None),
        },
        None => Ok(None),
    }
}

// A name that must come.
#[tactic(auto, unfolding(crate::specs::Reading::read, crate::specs::Reading::feed))]
pub fn name(alloc: Global, tokens: &[Token], end: u32) -> Read<'_, Name>
    ensures gives { (total : ℕ) (N : InName) → Gives (λ x. read total end x.1.now (have_name x.0 N)) result (read total end tokens.now (want_name N)) }
    ensures shorter { IfOk result (λ x. length x.1.now < length tokens.now) }
{
    match after_name(alloc, tokens)? {
        Some(found) => Ok(found),
        None => Err(ParseError::Unexpected(place_of(tokens, end))),
    }
}

// The value of a literal, which has no sign.
pub fn literal_of(kind: &TokenKind) -> Option<i32>
    ensures { result ≡ literal_of kind.now }
{
    match kind {
        TokenKind::Number(value) => { if *value >= 0 { Some(*value) } else { None } }
        _ => None,
    }
}

// A literal that the tokens begin with, and what stands behind it.
pub fn after_literal(tokens: &[Token]) -> Option<(i32, &[Token])>
    ensures is { BehindLiteral tokens.now (option_map (λ x. (x.0, x.1.now)) result) }
    ensures shorter { IfSome result (λ x. length x.1.now < length tokens.now) }
{
    match tokens.split_first() {
        Some((first, rest)) => match literal_of(&first.kind) {
            Some(value) => Some((value, rest)),
            None => None,
        },
        None => None,
    }
}

// The operator that a token is before its operand.
pub fn prefix_of(kind: &TokenKind) -> Option<UnaryOp>
    ensures { result ≡ prefix_of kind.now }
{
    match kind {
        TokenKind::Mark(Mark::Minus) => Some(UnaryOp::Minus),
        TokenKind::Mark(Mark::Exclamation) => Some(UnaryOp::Not),
        _ => None,
    }
}

// The operator that a token is between its operands.
pub fn operator_of(kind: &TokenKind) -> Option<BinaryOp>
    ensures { result ≡ operator_of kind.now }
{
    match kind {
        TokenKind::Mark(Mark::Plus) => Some(BinaryOp::Add),
        TokenKind::Mark(Mark::Minus) => Some(BinaryOp::Subtract),
        TokenKind::Mark(Mark::Star) => Some(BinaryOp::Multiply),
        TokenKind::Mark(Mark::Slash) => Some(BinaryOp::Divide),
        TokenKind::Mark(Mark::Percent) => Some(BinaryOp::Remainder),
        TokenKind::Mark(Mark::Less) => Some(BinaryOp::Less),
        TokenKind::Mark(Mark::Greater) => Some(BinaryOp::Greater),
        TokenKind::Mark(Mark::LessEqual) => Some(BinaryOp::LessEqual),
        TokenKind::Mark(Mark::GreaterEqual) => Some(BinaryOp::GreaterEqual),
        TokenKind::Mark(Mark::Equal) => Some(BinaryOp::Equal),
        TokenKind::Mark(Mark::NotEqual) => Some(BinaryOp::NotEqual),
        TokenKind::Mark(Mark::AmpAmp) => Some(BinaryOp::And),
        TokenKind::Mark(Mark::BarBar) => Some(BinaryOp::Or),
        _ => None,
    }
}

// How tightly an operator binds: `||` least, `* / %` most.
pub fn level_of(op: BinaryOp) -> u32
    ensures { result ≡ binary_level op }
{
    match op {
        BinaryOp::Or => 1,
        BinaryOp::And => 2,
        BinaryOp::Equal | BinaryOp::NotEqual => 3,
        BinaryOp::Less | BinaryOp::Greater | BinaryOp::LessEqual | BinaryOp::GreaterEqual => 4,
        BinaryOp::Add | BinaryOp::Subtract => 5,
        BinaryOp::Multiply | BinaryOp::Divide | BinaryOp::Remainder => 6,
    }
}

// An operator of at least a level that the tokens begin with, and what stands behind it.
pub fn operator_from(tokens: &[Token], level: u32) -> Option<(BinaryOp, &[Token])>
    requires { 0 < level }
    ensures { OperatorFrom tokens.now level (option_map (λ x. (x.0, x.1.now)) result) }
{
    match tokens.split_first() {
        Some((first, rest)) => match operator_of(&first.kind) {
            Some(op) => {
                if level_of(op) < level {
                    None
                } else {
                    Some((op, rest))
                }
            }
            None => None,
        },
        None => None,
    }
}

// That a node may stand at a depth.
pub fn within(depth: u32, place: u32) -> Result<(), ParseError>
    ensures { Within depth place result }
{
    if MAX_DEPTH < depth {
        return Err(ParseError::TooDeep(place));
    }
    Ok(())
}
