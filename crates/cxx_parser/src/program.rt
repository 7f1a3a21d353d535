// Reading programs.
ghost use Rattle.std.specs.Prelude.{ℕ, ◌≡◌, ◌≤◌, ◌<◌, ◌-◌, ◌++◌, ◌∷◌, [], List, Ok, false, IfOk, IfErr, length};
ghost use Rattle.cxx_ast.specs.declared.mark.Mark.TheVariants as sign;
ghost use Rattle.cxx_ast.specs.declared.name.Name.{Name};
ghost use Rattle.cxx_ast.specs.declared.token.TokenKind.TheVariants as kind;
ghost use Rattle.cxx_ast.specs.Limits.{most_tokens};
ghost use Rattle.cxx_ast.specs.Plain.{Declaration, global_declaration};
ghost use Rattle.cxx_ast.specs.Tree.{Tree};
ghost use Rattle.cxx_ast.specs.View.{declaration_of, program_of};
ghost use Rattle.cxx_parser.specs.Answers.{IsAnswer, IsRefusal};
ghost use Rattle.cxx_parser.specs.Classes.{have_value};
ghost use Rattle.cxx_parser.specs.Contexts.{of_program, of_int};
ghost use Rattle.cxx_parser.specs.Gives.{Gives, ExpectsLiteral, begins};
ghost use Rattle.cxx_parser.specs.Reading.{Answer, read, reading};
ghost use Rattle.cxx_parser.specs.States.{want_name, after_declared, after_assign, want_declaration};

use crate::class::{class, void_function};
use crate::error::ParseError;
use crate::function::{Heading, function};
use crate::tokens::{Read, after_literal, after_mark, after_word, expect_mark, name, place_of};
use cxx_ast::declaration::{Decl, FuncKind};
use cxx_ast::keyword::Keyword;
use cxx_ast::mark::Mark;
use cxx_ast::program::Program;
use cxx_ast::token::Token;
use cxx_ast::types::Ty;
use std::alloc::Global;

/// Reads the tree of at most 65,536 tokens of a source in one descent, as Annex A of ISO/IEC 14882:2003 has it for the language that the
/// compiler takes, or answers the first fault: each list has one answer.
///
/// `end` is the source's length in bytes, which the tree keeps and which is the place of what is missing at the end. No token is copied
/// but for the bytes of names, and no token is gone back to.
#[tactic(auto, using(crate::proofs::Whole::reading_tree, crate::proofs::OneAnswer::answer_given, crate::proofs::OneAnswer::refusal_given, crate::proofs::OneAnswer::same_answer))]
pub fn parse(alloc: Global, tokens: &[Token], end: u32) -> Result<Program, ParseError>
    requires { length tokens.now ≤ most_tokens }
    ensures gives { Gives (λ p. Ok (program_of p)) result (reading tokens.now end) }
    ensures tree { IfOk result (λ p. Tree tokens.now end (program_of p)) }
    ensures refusal { IfErr result (λ e. IsRefusal tokens.now end e) }
    ensures exact { (a : Answer) → IsAnswer tokens.now end a → Gives (λ p. Ok (program_of p)) result a }
    ensures one { (a b : Answer) → IsAnswer tokens.now end a → IsAnswer tokens.now end b → a ≡ b }
{
    declarations(alloc, tokens, end)
}

// Reads declaration after declaration.
#[tactic(auto, using(crate::proofs::Classed::mapped_last_declaration), unfolding(crate::specs::Reading::read))]
fn declarations(alloc: Global, tokens: &[Token], end: u32) -> Result<Program, ParseError>
    requires { length tokens.now ≤ most_tokens }
    ensures { Gives (λ p. Ok (program_of p)) result (reading tokens.now end) }
{
    let mut decls = Vec::new(alloc);
    let mut rest = tokens;
    while !rest.is_empty() {
        let (next, more) = declaration(alloc, rest, end)?;
        decls.push(next)?;
        rest = more;
    }
    Ok(Program {
        decls,
        tokens: tokens.len() as u32,
        length: end,
    })
}

// A declaration.
#[tactic(auto, unfolding(crate::specs::Reading::read, crate::specs::Reading::feed))]
fn declaration(alloc: Global, tokens: &[Token], end: u32) -> Read<'_, Decl>
    requires some { 0 < length tokens.now }
    requires few { length tokens.now ≤ most_tokens }
    ensures gives { (total : ℕ) (ds : List Declaration) → length tokens.now ≤ total → Gives (λ x. read total end x.1.now (want_declaration (ds ++ (declaration_of x.0 ∷ [])))) result (read total end tokens.now (want_declaration ds)) }
    ensures shorter { IfOk result (λ x. length x.1.now < length tokens.now) }
{
    let left = tokens.len();
    if let Some(rest) = after_word(tokens, Keyword::Struct) {
        let (class, rest) = class(alloc, rest, end)?;
        return Ok((Decl::Class(class), rest));
    }
    if let Some(rest) = after_word(tokens, Keyword::Int) {
        return int_declaration(alloc, left, rest, end);
    }
    if let Some(rest) = after_word(tokens, Keyword::Void) {
        let (func, rest) = void_function(alloc, FuncKind::Plain, left, rest, end)?;
        return Ok((Decl::Func(func), rest));
    }
    Err(ParseError::Unexpected(place_of(tokens, end)))
}

// A global or a function with the result `int`, behind that word, with so many tokens from it on.
#[tactic(auto, unfolding(crate::specs::Reading::read, crate::specs::Reading::feed))]
fn int_declaration(alloc: Global, left: usize, tokens: &[Token], end: u32) -> Read<'_, Decl>
    requires behind { length tokens.now < left }
    requires few { left ≤ most_tokens }
    ensures gives { (total : ℕ) (ds : List Declaration) → left ≤ total → Gives (λ x. read total end x.1.now (want_declaration (ds ++ (declaration_of x.0 ∷ [])))) result (read total end tokens.now (want_name (of_int (total - left) (of_program ds)))) }
    ensures shorter { IfOk result (λ x. length x.1.now < length tokens.now) }
{
    let (name, rest) = name(alloc, tokens, end)?;
    if let Some(rest) = after_mark(rest, Mark::OpenParen) {
        let heading = Heading {
            kind: FuncKind::Plain,
            result: Ty::Int,
            name,
            left,
        };
        let (func, rest) = function(alloc, heading, rest, end)?;
        return Ok((Decl::Func(func), rest));
    }
    let (value, rest) = first_value(rest, end)?;
    Ok((Decl::Global(name, value), rest))
}

// The first value of a global, 0 where none is written, and `;`.
#[tactic(auto, unfolding(crate::specs::Reading::read, crate::specs::Reading::feed))]
fn first_value(tokens: &[Token], end: u32) -> Read<'_, i32>
    ensures gives { (total start : ℕ) (n : Name) (ds : List Declaration) → begins tokens.now (kind.Mark sign.OpenParen) ≡ false → Gives (λ x. read total end x.1.now (want_declaration (ds ++ (global_declaration n x.0 ∷ [])))) result (read total end tokens.now (after_declared n start (of_program ds))) }
    ensures shorter { IfOk result (λ x. length x.1.now < length tokens.now) }
{
    if let Some(rest) = after_mark(tokens, Mark::Assign) {
        let (value, rest) = signed_literal(rest, end)?;
        let rest = expect_mark(rest, Mark::Semicolon, end)?;
        return Ok((value, rest));
    }
    let rest = expect_mark(tokens, Mark::Semicolon, end)?;
    Ok((0, rest))
}

// A literal, behind a minus where one stands.
#[tactic(auto, unfolding(crate::specs::Reading::read, crate::specs::Reading::feed))]
fn signed_literal(tokens: &[Token], end: u32) -> Read<'_, i32>
    ensures gives { (total : ℕ) (n : Name) (ds : List Declaration) → Gives (λ x. read total end x.1.now (have_value n x.0 ds)) result (read total end tokens.now (after_assign n ds)) }
    ensures shorter { IfOk result (λ x. length x.1.now < length tokens.now) }
{
    if let Some(rest) = after_mark(tokens, Mark::Minus) {
        let (value, rest) = literal(rest, end)?;
        return Ok((-value, rest));
    }
    literal(tokens, end)
}

// A literal that must come.
fn literal(tokens: &[Token], end: u32) -> Read<'_, i32>
    ensures { ExpectsLiteral (λ x. (x.0, x.1.now)) tokens.now end result }
{
    match after_literal(tokens) {
        Some(found) => Ok(found),
        None => Err(ParseError::Unexpected(place_of(tokens, end))),
    }
}
