// Reading what a handler catches.
ghost use Rattle.std.specs.Prelude.{ℕ, ◌≡◌, ◌<◌, false, IfOk, length};
ghost use Rattle.cxx_ast.specs.declared.mark.Mark.TheVariants as sign;
ghost use Rattle.cxx_ast.specs.declared.token.TokenKind.TheVariants as kind;
ghost use Rattle.cxx_parser.specs.Contexts.{InTry};
ghost use Rattle.cxx_parser.specs.Gives.{Gives, begins, place_at};
ghost use Rattle.cxx_parser.specs.Reading.{read};
ghost use Rattle.cxx_parser.specs.States.{want_caught, have_caught};
ghost use Rattle.cxx_parser.specs.Types.{handler_body};

use crate::tokens::{Read, after_mark, after_name, after_word, expect_mark};
use crate::types::{listed_type, reference_to};
use cxx_ast::keyword::Keyword;
use cxx_ast::mark::Mark;
use cxx_ast::name::Name;
use cxx_ast::token::Token;
use cxx_ast::types::Ty;
use std::alloc::Global;

// What a handler catches: all where there is no type.
#[derive(Drop)]
pub struct What {
    pub ty: Option<Ty>,
    pub name: Option<Name>,
}

// What a handler catches, from behind `(` to behind `)`.
#[tactic(auto, unfolding(crate::specs::Reading::read, crate::specs::Reading::feed))]
pub fn caught(alloc: Global, tokens: &[Token], end: u32) -> Read<'_, What>
    ensures gives { (total : ℕ) (T : InTry) → Gives (λ x. read total end x.1.now (handler_body x.0.ty x.0.name (place_at tokens.now end) T)) result (read total end tokens.now (want_caught T)) }
    ensures shorter { IfOk result (λ x. length x.1.now < length tokens.now) }
{
    if let Some(rest) = after_mark(tokens, Mark::Ellipsis) {
        let rest = expect_mark(rest, Mark::CloseParen, end)?;
        return Ok((
            What {
                ty: None,
                name: None,
            },
            rest,
        ));
    }
    let (ty, rest) = caught_type(alloc, tokens, end)?;
    caught_name(alloc, ty, rest, end)
}

// The type that a handler catches.
#[tactic(auto, using(crate::proofs::Typed::caught_begins, crate::proofs::Typed::listed_ends), unfolding(crate::specs::Reading::read, crate::specs::Reading::feed))]
fn caught_type(alloc: Global, tokens: &[Token], end: u32) -> Read<'_, Ty>
    ensures gives { (total : ℕ) (T : InTry) → begins tokens.now (kind.Mark sign.Ellipsis) ≡ false → Gives (λ x. read total end x.1.now (have_caught x.0 (place_at tokens.now end) T)) result (read total end tokens.now (want_caught T)) }
    ensures shorter { IfOk result (λ x. length x.1.now < length tokens.now) }
{
    if let Some(rest) = after_word(tokens, Keyword::Const) {
        let (ty, rest) = listed_type(alloc, rest, end)?;
        let rest = expect_mark(rest, Mark::Amp, end)?;
        return Ok((reference_to(true, ty), rest));
    }
    let (ty, rest) = listed_type(alloc, tokens, end)?;
    match after_mark(rest, Mark::Amp) {
        Some(after) => Ok((reference_to(false, ty), after)),
        None => Ok((ty, rest)),
    }
}

// The name of what a handler catches, where it has one, and `)`.
#[tactic(auto, unfolding(crate::specs::Reading::read, crate::specs::Reading::feed))]
fn caught_name(alloc: Global, ty: Ty, tokens: &[Token], end: u32) -> Read<'_, What>
    ensures gives { (total place : ℕ) (T : InTry) → Gives (λ x. read total end x.1.now (handler_body x.0.ty x.0.name place T)) result (read total end tokens.now (have_caught ty place T)) }
    ensures shorter { IfOk result (λ x. length x.1.now < length tokens.now) }
{
    match after_name(alloc, tokens)? {
        Some((name, rest)) => {
            let rest = expect_mark(rest, Mark::CloseParen, end)?;
            Ok((
                What {
                    ty: Some(ty),
                    name: Some(name),
                },
                rest,
            ))
        }
        None => {
            let rest = expect_mark(tokens, Mark::CloseParen, end)?;
            Ok((
                What {
                    ty: Some(ty),
                    name: None,
                },
                rest,
            ))
        }
    }
}
