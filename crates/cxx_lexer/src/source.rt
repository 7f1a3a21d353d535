// The tokens of a source.
ghost use Rattle.std.specs.Prelude.{ℕ, ◌≡◌, ◌<◌, ◌≤◌, ◌↔◌, List, length, OnOk, IfOk};
ghost use Rattle.cxx_ast.specs.declared.token.Token.{Token};
ghost use Rattle.cxx_ast.specs.Lex.{Lex};
ghost use Rattle.cxx_ast.specs.LexFault.{FirstFault, bad_byte, literal_range, open_comment, too_many_tokens};
ghost use Rattle.cxx_ast.specs.Limits.{most_bytes, most_tokens};
ghost use Rattle.cxx_lexer.specs.FrontOf.{kind_of};
ghost use Rattle.cxx_lexer.specs.Steps.{Steps};
ghost use Rattle.cxx_lexer.specs.Told.{UnlessNoMemory, IsTokens, Tells};

use crate::NoMemory;
use crate::error::LexError;
use crate::front::{Front, Lexeme, front_of};
use cxx_ast::text::Text;
use cxx_ast::token::{Token, TokenKind};
use std::alloc::Global;

const MAX_TOKENS: usize = 65_536;

/// Reads the tokens of a source of at most 1 MiB in one pass, as clause 2 of ISO/IEC 14882:2003 has them, or answers its first fault.
///
/// Places count bytes from the source's start. Of the faults the one at the least place is answered. Only names are copied.
pub fn lex(alloc: Global, source: &[u8]) -> Result<Vec<Token>, LexError>
    requires { length source.now ≤ most_bytes }
    ensures tokens { (tokens : List Token) → UnlessNoMemory result
        (IsTokens result tokens ↔ Lex source.now tokens) }
    ensures bad_byte { (place : ℕ) → UnlessNoMemory result
        ((result ≡ Err (LexError.BadByte place)) ↔ FirstFault source.now bad_byte place) }
    ensures literal_range { (place : ℕ) → UnlessNoMemory result
        ((result ≡ Err (LexError.LiteralRange place)) ↔ FirstFault source.now literal_range place) }
    ensures open_comment { (place : ℕ) → UnlessNoMemory result
        ((result ≡ Err (LexError.OpenComment place)) ↔ FirstFault source.now open_comment place) }
    ensures too_many_tokens { (place : ℕ) → UnlessNoMemory result
        ((result ≡ Err (LexError.TooManyTokens place)) ↔ FirstFault source.now too_many_tokens place) }
{
    read_all(alloc, source)
}

// Reads part after part.
fn read_all(alloc: Global, source: &[u8]) -> Result<Vec<Token>, LexError>
    requires { length source.now ≤ most_bytes }
    ensures { Tells source.now result }
{
    let mut tokens = Vec::new(alloc);
    let mut place = 0;
    while place < source.len() {
        place = read_part(alloc, source, place, &mut tokens)?;
    }
    Ok(tokens)
}

// Reads the part at a place, adds it to the tokens where it is one, and gives the place behind it.
fn read_part(
    alloc: Global,
    source: &[u8],
    place: usize,
    tokens: &mut Vec<Token>,
) -> Result<usize, LexError>
    requires inside { place < length source.now }
    requires small { length source.now ≤ most_bytes }
    requires few { length tokens.old.items ≤ most_tokens }
    ensures steps { Steps source.now place tokens.old.items tokens.new.items result }
    ensures few { OnOk result (length tokens.new.items ≤ most_tokens) }
    ensures forward { IfOk result (λ next. place < next) }
    ensures within { IfOk result (λ next. next ≤ length source.now) }
{
    let text = &source[place..];
    match front_of(text, place as u32)? {
        Front::Gap(length) => Ok(place + length),
        Front::Token(lexeme, length) => {
            if tokens.len() >= MAX_TOKENS {
                return Err(LexError::TooManyTokens(place as u32));
            }
            let kind = token_kind(alloc, lexeme, &text[..length])?;
            tokens.push(Token {
                kind,
                place: place as u32,
            })?;
            Ok(place + length)
        }
    }
}

// What a token is, by its lexeme and its bytes.
fn token_kind(alloc: Global, lexeme: Lexeme, bytes: &[u8]) -> Result<TokenKind, NoMemory>
    ensures { IfOk result (λ kind. kind ≡ kind_of lexeme bytes.now) }
{
    Ok(match lexeme {
        Lexeme::Name => TokenKind::Name(Text::copied(alloc, bytes)?),
        Lexeme::Number(value) => TokenKind::Number(value),
        Lexeme::Word(word) => TokenKind::Word(word),
        Lexeme::Mark(mark) => TokenKind::Mark(mark),
    })
}
