// Reading types and parameters.
ghost use Rattle.std.specs.Prelude.{ℕ, ◌≡◌, ◌≤◌, ◌<◌, IfOk, List, [], ◌∷◌, ◌++◌, length, codes};
ghost use Rattle.std.specs.Option.{option_map};
ghost use Rattle.cxx_ast.specs.declared.types.Param.{Param};
ghost use Rattle.cxx_ast.specs.declared.token.TokenKind.TheVariants as kind;
ghost use Rattle.cxx_parser.specs.Contexts.{Heading, InType, of_param, InListed};
ghost use Rattle.cxx_parser.specs.Gives.{Gives, Expects};
ghost use Rattle.cxx_parser.specs.Reading.{read};
ghost use Rattle.cxx_parser.specs.Signs.{is_name};
ghost use Rattle.cxx_parser.specs.States.{after_const, after_value_type, have_type, want_listed, have_listed, after_params_open, want_param, have_param, after_params};
ghost use Rattle.cxx_parser.specs.Types.{reference_to, bad_exception};

use crate::NoMemory;
use crate::error::ParseError;
use crate::tokens::{Read, after_mark, after_name, class_of, expect_mark, is_word, place_of};
use cxx_ast::keyword::Keyword;
use cxx_ast::mark::Mark;
use cxx_ast::name::{Bound, Name};
use cxx_ast::text::Text;
use cxx_ast::token::{Token, TokenKind};
use cxx_ast::types::{Param, Ty};
use std::alloc::Global;

// The type, or a reference to it, to const where that is so.
pub fn reference_to(constant: bool, ty: Ty) -> Ty
    ensures { result ≡ reference_to constant ty }
{
    match ty {
        Ty::Int => Ty::IntRef(constant),
        Ty::Object(class) => Ty::ObjectRef(constant, class),
        other => other,
    }
}

// The name `std::bad_exception`, with the place of `std`.
fn bad_exception(alloc: Global, place: u32) -> Result<Name, NoMemory>
    ensures { IfOk result (λ name. name ≡ bad_exception place) }
{
    Ok(Name {
        text: Text::copied(alloc, b"std::bad_exception")?,
        place,
        bound: Bound::Free,
    })
}

fn is_bad_exception(kind: &TokenKind) -> bool
    ensures { result ≡ is_name (codes "bad_exception") kind.now }
{
    match kind {
        TokenKind::Name(text) => text.as_bytes() == b"bad_exception".as_slice(),
        _ => false,
    }
}

// What stands behind the name `bad_exception`, which must come.
#[tactic(auto, using(crate::proofs::TokenTests::name_is))]
fn expect_bad_exception(tokens: &[Token], end: u32) -> Result<&[Token], ParseError>
    ensures { Expects (λ r. r.now) tokens.now (kind.Name (codes "bad_exception")) end result }
{
    match tokens.split_first() {
        Some((first, rest)) => {
            if is_bad_exception(&first.kind) {
                Ok(rest)
            } else {
                Err(ParseError::Unexpected(first.place))
            }
        }
        None => Err(ParseError::Unexpected(end)),
    }
}

// A type that a specification lists or a handler catches, without `const` and `&`.
#[tactic(auto, unfolding(crate::specs::Reading::read, crate::specs::Reading::feed))]
pub fn listed_type(alloc: Global, tokens: &[Token], end: u32) -> Read<'_, Ty>
    ensures gives { (total : ℕ) (L : InListed) → Gives (λ x. read total end x.1.now (have_listed x.0 L)) result (read total end tokens.now (want_listed L)) }
    ensures shorter { IfOk result (λ x. length x.1.now < length tokens.now) }
{
    let (first, rest) = match tokens.split_first() {
        Some(parts) => parts,
        None => return Err(ParseError::Unexpected(end)),
    };
    if is_word(Keyword::Int, &first.kind) {
        return Ok((Ty::Int, rest));
    }
    if is_word(Keyword::Std, &first.kind) {
        let rest = expect_mark(rest, Mark::ColonColon, end)?;
        let rest = expect_bad_exception(rest, end)?;
        return Ok((Ty::Object(bad_exception(alloc, first.place)?), rest));
    }
    match class_of(alloc, first)? {
        Some(class) => Ok((Ty::Object(class), rest)),
        None => Err(ParseError::Unexpected(first.place)),
    }
}

// A reference to const, behind `const`.
#[tactic(auto, unfolding(crate::specs::Reading::read, crate::specs::Reading::feed))]
pub fn const_reference(alloc: Global, tokens: &[Token], end: u32) -> Read<'_, Ty>
    ensures gives { (total : ℕ) (W : InType) → Gives (λ x. read total end x.1.now (have_type x.0 W)) result (read total end tokens.now (after_const W)) }
    ensures shorter { IfOk result (λ x. length x.1.now < length tokens.now) }
{
    let (first, rest) = match tokens.split_first() {
        Some(parts) => parts,
        None => return Err(ParseError::Unexpected(end)),
    };
    if is_word(Keyword::Int, &first.kind) {
        let rest = expect_mark(rest, Mark::Amp, end)?;
        return Ok((Ty::IntRef(true), rest));
    }
    match class_of(alloc, first)? {
        Some(class) => {
            let rest = expect_mark(rest, Mark::Amp, end)?;
            Ok((Ty::ObjectRef(true, class), rest))
        }
        None => Err(ParseError::Unexpected(first.place)),
    }
}

// The type of a parameter.
#[tactic(auto, using(crate::proofs::Typed::value_type_ends), unfolding(crate::specs::Reading::read, crate::specs::Reading::feed))]
fn parameter_type(alloc: Global, tokens: &[Token], end: u32) -> Read<'_, Ty>
    ensures gives { (total : ℕ) (ps : List Param) (h : Heading) → Gives (λ x. read total end x.1.now (have_type x.0 (of_param ps h))) result (read total end tokens.now (want_param ps h)) }
    ensures shorter { IfOk result (λ x. length x.1.now < length tokens.now) }
{
    let (first, rest) = match tokens.split_first() {
        Some(parts) => parts,
        None => return Err(ParseError::Unexpected(end)),
    };
    if is_word(Keyword::Const, &first.kind) {
        return const_reference(alloc, rest, end);
    }
    if is_word(Keyword::Int, &first.kind) {
        return match after_mark(rest, Mark::Amp) {
            Some(after) => Ok((Ty::IntRef(false), after)),
            None => Ok((Ty::Int, rest)),
        };
    }
    match class_of(alloc, first)? {
        Some(class) => {
            let rest = expect_mark(rest, Mark::Amp, end)?;
            Ok((Ty::ObjectRef(false, class), rest))
        }
        None => Err(ParseError::Unexpected(first.place)),
    }
}

#[tactic(auto, using(crate::proofs::Typed::type_ends), unfolding(crate::specs::Reading::read, crate::specs::Reading::feed))]
fn parameter(alloc: Global, tokens: &[Token], end: u32) -> Read<'_, Param>
    ensures gives { (total : ℕ) (ps : List Param) (h : Heading) → Gives (λ x. read total end x.1.now (have_param (ps ++ (x.0 ∷ [])) h)) result (read total end tokens.now (want_param ps h)) }
    ensures shorter { IfOk result (λ x. length x.1.now < length tokens.now) }
{
    let (ty, rest) = parameter_type(alloc, tokens, end)?;
    match after_name(alloc, rest)? {
        Some((name, after)) => Ok((
            Param {
                ty,
                name: Some(name),
            },
            after,
        )),
        None => Ok((Param { ty, name: None }, rest)),
    }
}

// The parameters of a function, from behind `(` to behind `)`.
#[tactic(auto, using(crate::proofs::Typed::first_parameter), unfolding(crate::specs::Reading::read, crate::specs::Reading::feed))]
pub fn parameters(alloc: Global, tokens: &[Token], end: u32) -> Read<'_, Vec<Param>>
    ensures gives { (total : ℕ) (h : Heading) → Gives (λ x. read total end x.1.now (after_params x.0.items h)) result (read total end tokens.now (after_params_open h)) }
    ensures shorter { IfOk result (λ x. length x.1.now < length tokens.now) }
{
    match after_mark(tokens, Mark::CloseParen) {
        Some(after) => Ok((Vec::new(alloc), after)),
        None => some_parameters(alloc, tokens, end),
    }
}

#[tactic(auto, unfolding(crate::specs::Reading::read, crate::specs::Reading::feed))]
fn some_parameters(alloc: Global, tokens: &[Token], end: u32) -> Read<'_, Vec<Param>>
    ensures gives { (total : ℕ) (h : Heading) → Gives (λ x. read total end x.1.now (after_params x.0.items h)) result (read total end tokens.now (want_param [] h)) }
    ensures shorter { IfOk result (λ x. length x.1.now < length tokens.now) }
{
    let mut params = Vec::new(alloc);
    let (first, mut rest) = parameter(alloc, tokens, end)?;
    params.push(first)?;
    while let Some(after) = after_mark(rest, Mark::Comma) {
        let (next, more) = parameter(alloc, after, end)?;
        params.push(next)?;
        rest = more;
    }
    let after = expect_mark(rest, Mark::CloseParen, end)?;
    Ok((params, after))
}
