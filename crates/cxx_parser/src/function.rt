// Reading functions.
ghost use Rattle.std.specs.Prelude.{ℕ, ◌≡◌, ◌≤◌, ◌<◌, ◌+◌, ◌-◌, IfOk, Bool, List, [], ◌∷◌, ◌++◌, codes, true, false, length, map, Option, Some, None};
ghost use Rattle.cxx_ast.specs.declared.declaration.FuncKind.{FuncKind};
ghost use Rattle.cxx_ast.specs.declared.declaration.FuncKind.TheVariants.{Constructor};
ghost use Rattle.cxx_ast.specs.declared.mark.Mark.TheVariants as sign;
ghost use Rattle.cxx_ast.specs.declared.token.TokenKind.TheVariants as kind;
ghost use Rattle.cxx_ast.specs.Limits.{most_tokens};
ghost use Rattle.cxx_ast.specs.declared.types.Param.{Param};
ghost use Rattle.cxx_ast.specs.Plain.{listed};
ghost use Rattle.cxx_ast.specs.View.{option_of, statements_of, initialiser_of, specification_of, function_of};
ghost use Rattle.cxx_parser.specs.Contexts.{Holder, Heading as HeadingState, Signature, of_specification, of_initialised};
ghost use Rattle.cxx_parser.specs.Functions.{function_from, have_function, with_initialisers, open_body, quiet};
ghost use Rattle.cxx_parser.specs.Gives.{Gives, begins, count_before};
ghost use Rattle.cxx_parser.specs.Headings.{heading_at, signature_of};
ghost use Rattle.cxx_parser.specs.Reading.{read};
ghost use Rattle.cxx_parser.specs.States.{after_params_open, after_params, after_throw_open, after_noexcept, have_signature, have_initialiser, want_name, want_listed};

use crate::error::ParseError;
use crate::expression::arguments;
use crate::statement::block;
use crate::tokens::{Read, after_mark, after_named, after_word, expect_mark, name, place_of};
use crate::types::{listed_type, parameters};
use cxx_ast::declaration::{Func, FuncKind, Init, Spec};
use cxx_ast::keyword::Keyword;
use cxx_ast::mark::Mark;
use cxx_ast::name::Name;
use cxx_ast::statement::Stmt;
use cxx_ast::token::Token;
use cxx_ast::types::{Param, Ty};
use std::alloc::Global;

// What stands before the parameters of a function, and how many tokens there are from its first one on.
#[derive(Drop)]
pub struct Heading {
    pub kind: FuncKind,
    pub result: Ty,
    pub name: Name,
    pub left: usize,
}

// What a function ends with.
#[derive(Drop)]
struct FunctionEnd {
    inits: Vec<Init>,
    body: Option<Vec<Stmt>>,
}

// A function, behind the `(` of its parameters.
#[tactic(auto, using(crate::proofs::Functions::tokens_between), unfolding(crate::specs::Reading::read, crate::specs::Reading::feed))]
pub fn function(alloc: Global, heading: Heading, tokens: &[Token], end: u32) -> Read<'_, Func>
    requires behind { length tokens.now < heading.left }
    requires few { heading.left ≤ most_tokens }
    ensures gives { (total : ℕ) (holder : Holder) → heading.left ≤ total → Gives (λ x. read total end x.1.now (have_function (function_of x.0) holder)) result (read total end tokens.now (after_params_open (heading_at heading total holder))) }
    ensures shorter { IfOk result (λ x. length x.1.now < length tokens.now) }
{
    let (params, rest) = parameters(alloc, tokens, end)?;
    definition(alloc, heading, params, rest, end)
}

// A function, behind its parameters.
#[tactic(auto, using(crate::proofs::Functions::tokens_between), unfolding(crate::specs::Reading::read, crate::specs::Reading::feed))]
pub fn definition(
    alloc: Global,
    heading: Heading,
    params: Vec<Param>,
    tokens: &[Token],
    end: u32,
) -> Read<'_, Func>
    requires behind { length tokens.now < heading.left }
    requires few { heading.left ≤ most_tokens }
    ensures gives { (total : ℕ) (holder : Holder) → heading.left ≤ total → Gives (λ x. read total end x.1.now (have_function (function_of x.0) holder)) result (read total end tokens.now (after_params params.items (heading_at heading total holder))) }
    ensures shorter { IfOk result (λ x. length x.1.now < length tokens.now) }
{
    let (spec, rest) = specification(alloc, tokens, end)?;
    let (ending, rest) = ending(alloc, heading.kind, rest, end)?;
    let read = Func {
        name: heading.name,
        kind: heading.kind,
        result: heading.result,
        params,
        spec,
        inits: ending.inits,
        body: ending.body,
        tokens: (heading.left - rest.len()) as u32,
    };
    Ok((read, rest))
}

// An exception specification, where there is one; `noexcept` is a name to the lexer.
#[tactic(auto, using(crate::proofs::Functions::no_specification), unfolding(crate::specs::Reading::read, crate::specs::Reading::feed))]
fn specification(alloc: Global, tokens: &[Token], end: u32) -> Read<'_, Option<Spec>>
    ensures gives { (b : Bool) × ((total : ℕ) (ps : List Param) (h : HeadingState) → Gives (λ x. read total end x.1.now (have_signature (signature_of h ps b (option_of specification_of x.0)))) result (read total end tokens.now (after_params ps h))) }
    ensures shorter { IfOk result (λ x. length x.1.now ≤ length tokens.now) }
{
    if let Some(rest) = after_word(tokens, Keyword::Throw) {
        let rest = expect_mark(rest, Mark::OpenParen, end)?;
        let (types, rest) = listed_types(alloc, rest, end)?;
        return Ok((Some(Spec::Throw(types)), rest));
    }
    match after_named(tokens, b"noexcept") {
        None => Ok((None, tokens)),
        Some((place, rest)) => {
            let (is_true, rest) = truth(rest, end)?;
            Ok((Some(Spec::Noexcept(place, is_true)), rest))
        }
    }
}

// What stands behind `noexcept`: nothing, `(true)` or `(false)`.
#[tactic(auto, unfolding(crate::specs::Reading::read, crate::specs::Reading::feed))]
fn truth(tokens: &[Token], end: u32) -> Read<'_, bool>
    ensures gives { (b : Bool) × ((total place : ℕ) (ps : List Param) (h : HeadingState) → Gives (λ x. read total end x.1.now (have_signature (quiet place b x.0 ps h))) result (read total end tokens.now (after_noexcept place ps h))) }
    ensures shorter { IfOk result (λ x. length x.1.now ≤ length tokens.now) }
{
    let Some(rest) = after_mark(tokens, Mark::OpenParen) else {
        return Ok((true, tokens));
    };
    let (is_true, rest) = match after_word(rest, Keyword::True) {
        Some(behind) => (true, behind),
        None => match after_word(rest, Keyword::False) {
            Some(behind) => (false, behind),
            None => return Err(ParseError::Unexpected(place_of(rest, end))),
        },
    };
    let rest = expect_mark(rest, Mark::CloseParen, end)?;
    Ok((is_true, rest))
}

// The types of an exception specification, from behind `(` to behind `)`.
#[tactic(auto, using(crate::proofs::Functions::first_type), unfolding(crate::specs::Reading::read, crate::specs::Reading::feed))]
fn listed_types(alloc: Global, tokens: &[Token], end: u32) -> Read<'_, Vec<Ty>>
    ensures gives { (total : ℕ) (ps : List Param) (h : HeadingState) → Gives (λ x. read total end x.1.now (have_signature (signature_of h ps false (Some (listed x.0.items))))) result (read total end tokens.now (after_throw_open ps h)) }
    ensures shorter { IfOk result (λ x. length x.1.now < length tokens.now) }
{
    match after_mark(tokens, Mark::CloseParen) {
        Some(after) => Ok((Vec::new(alloc), after)),
        None => some_types(alloc, tokens, end),
    }
}

#[tactic(auto, using(crate::proofs::Functions::type_settles), unfolding(crate::specs::Reading::read, crate::specs::Reading::feed))]
fn some_types(alloc: Global, tokens: &[Token], end: u32) -> Read<'_, Vec<Ty>>
    ensures gives { (total : ℕ) (ps : List Param) (h : HeadingState) → Gives (λ x. read total end x.1.now (have_signature (signature_of h ps false (Some (listed x.0.items))))) result (read total end tokens.now (want_listed (of_specification [] ps h))) }
    ensures shorter { IfOk result (λ x. length x.1.now < length tokens.now) }
{
    let mut types = Vec::new(alloc);
    let (first, mut rest) = listed_type(alloc, tokens, end)?;
    types.push(first)?;
    while let Some(after) = after_mark(rest, Mark::Comma) {
        let (next, more) = listed_type(alloc, after, end)?;
        types.push(next)?;
        rest = more;
    }
    let after = expect_mark(rest, Mark::CloseParen, end)?;
    Ok((types, after))
}

// The initialisers and the body of a function of a kind, or the `;` of one that has no body.
#[tactic(auto, using(crate::proofs::Rows::bodies), unfolding(crate::specs::Reading::read, crate::specs::Reading::feed))]
fn ending(alloc: Global, kind: FuncKind, tokens: &[Token], end: u32) -> Read<'_, FunctionEnd>
    ensures gives { (total : ℕ) (s : Signature) → s.heading.kind ≡ kind → s.initialisers ≡ [] → Gives (λ x. read total end x.1.now (have_function (function_from (count_before total x.1.now) (option_of (λ body. statements_of body.items) x.0.body) (with_initialisers s (map initialiser_of x.0.inits.items))) s.heading.holder)) result (read total end tokens.now (have_signature s)) }
    ensures shorter { IfOk result (λ x. length x.1.now < length tokens.now) }
{
    if let Some(rest) = after_mark(tokens, Mark::OpenBrace) {
        let (body, rest) = block(alloc, rest, 3, end)?;
        return Ok((bodied(Vec::new(alloc), body), rest));
    }
    match kind {
        FuncKind::Constructor => initialised(alloc, tokens, end),
        FuncKind::Plain => {
            let rest = expect_mark(tokens, Mark::Semicolon, end)?;
            Ok((
                FunctionEnd {
                    inits: Vec::new(alloc),
                    body: None,
                },
                rest,
            ))
        }
        FuncKind::Method | FuncKind::Destructor => {
            Err(ParseError::Unexpected(place_of(tokens, end)))
        }
    }
}

fn bodied(inits: Vec<Init>, body: Vec<Stmt>) -> FunctionEnd
    ensures inits { result.inits.items ≡ inits.items }
    ensures body { result.body ≡ Some body }
{
    FunctionEnd {
        inits,
        body: Some(body),
    }
}

// The initialisers and the body of a constructor, from `:` on.
#[tactic(auto, using(crate::proofs::Functions::mapped_last_init, crate::proofs::Rows::bodies), unfolding(crate::specs::Reading::read, crate::specs::Reading::feed))]
fn initialised(alloc: Global, tokens: &[Token], end: u32) -> Read<'_, FunctionEnd>
    ensures gives { (total : ℕ) (s : Signature) → s.heading.kind ≡ Constructor → s.initialisers ≡ [] → begins tokens.now (kind.Mark sign.OpenBrace) ≡ false → Gives (λ x. read total end x.1.now (have_function (function_from (count_before total x.1.now) (option_of (λ body. statements_of body.items) x.0.body) (with_initialisers s (map initialiser_of x.0.inits.items))) s.heading.holder)) result (read total end tokens.now (have_signature s)) }
    ensures shorter { IfOk result (λ x. length x.1.now < length tokens.now) }
{
    let rest = expect_mark(tokens, Mark::Colon, end)?;
    let (inits, rest) = initialisers(alloc, rest, end)?;
    let (body, rest) = block(alloc, rest, 3, end)?;
    Ok((bodied(inits, body), rest))
}

// The initialisers of a constructor, behind `:`, and the `{` of its body.
#[tactic(auto, using(crate::proofs::Functions::mapped_last_init), unfolding(crate::specs::Reading::read, crate::specs::Reading::feed))]
fn initialisers(alloc: Global, tokens: &[Token], end: u32) -> Read<'_, Vec<Init>>
    ensures gives { (total : ℕ) (s : Signature) → s.initialisers ≡ [] → Gives (λ x. read total end x.1.now (open_body (with_initialisers s (map initialiser_of x.0.items)))) result (read total end tokens.now (want_name (of_initialised s))) }
    ensures shorter { IfOk result (λ x. length x.1.now < length tokens.now) }
{
    let mut inits = Vec::new(alloc);
    let (first, mut rest) = initialiser(alloc, tokens, end)?;
    inits.push(first)?;
    while let Some(after) = after_mark(rest, Mark::Comma) {
        let (next, more) = initialiser(alloc, after, end)?;
        inits.push(next)?;
        rest = more;
    }
    let after = expect_mark(rest, Mark::OpenBrace, end)?;
    Ok((inits, after))
}

// An initialiser.
#[tactic(auto, using(crate::proofs::Rows::arguments_of), unfolding(crate::specs::Reading::read, crate::specs::Reading::feed))]
fn initialiser(alloc: Global, tokens: &[Token], end: u32) -> Read<'_, Init>
    ensures gives { (total : ℕ) (s : Signature) → Gives (λ x. read total end x.1.now (have_initialiser (with_initialisers s (s.initialisers ++ initialiser_of x.0 ∷ [])))) result (read total end tokens.now (want_name (of_initialised s))) }
    ensures shorter { IfOk result (λ x. length x.1.now < length tokens.now) }
{
    let (name, rest) = name(alloc, tokens, end)?;
    let rest = expect_mark(rest, Mark::OpenParen, end)?;
    let (args, rest) = arguments(alloc, rest, 2, end)?;
    Ok((
        Init {
            name,
            args: args.list,
        },
        rest,
    ))
}
