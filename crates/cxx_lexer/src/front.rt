// What stands at the start of a text.
ghost use Rattle.std.specs.Prelude.{◌≡◌, ◌<◌, length, slice_index, true};
ghost use Rattle.cxx_ast.specs.Bytes.{is_word_byte};
ghost use Rattle.cxx_lexer.specs.FrontOf.{Fronts};

use crate::error::LexError;
use crate::keywords::keyword_of;
use crate::literal::literal_value;
use crate::marks::mark_at;
use crate::runs::{close_at, is_blank, is_word_byte, line_length, word_length};
use cxx_ast::keyword::Keyword;
use cxx_ast::mark::Mark;

// A token without its bytes.
#[derive(Clone, Copy)]
pub enum Lexeme {
    Name,
    Number(i32),
    Word(Keyword),
    Mark(Mark),
}

// A blank, a comment or a token, with its length in bytes.
#[derive(Clone, Copy)]
pub enum Front {
    Gap(usize),
    Token(Lexeme, usize),
}

// What stands at the start of a text that is not empty. The place is that of the text.
pub fn front_of(text: &[u8], place: u32) -> Result<Front, LexError>
    requires { 0 < length text.now }
    ensures { Fronts text.now place result }
{
    let first = text[0];
    if is_blank(first) {
        return Ok(Front::Gap(1));
    }
    if text.starts_with(b"//") {
        return Ok(Front::Gap(line_length(text)));
    }
    if text.starts_with(b"/*") {
        return match close_at(&text[2..]) {
            Some(length) => Ok(Front::Gap(length + 4)),
            None => Err(LexError::OpenComment(place)),
        };
    }
    if is_word_byte(first) {
        return word(text, place);
    }
    match mark_at(text) {
        Some(mark) => Ok(Front::Token(Lexeme::Mark(mark), mark.spelling().len())),
        None => Err(LexError::BadByte(place)),
    }
}

// A name, a reserved word or a literal.
fn word(text: &[u8], place: u32) -> Result<Front, LexError>
    requires some { 0 < length text.now }
    requires word { is_word_byte (slice_index text.now 0) ≡ true }
    ensures { Fronts text.now place result }
{
    let length = word_length(text);
    let bytes = &text[..length];
    if !text[0].is_ascii_digit() {
        let lexeme = match keyword_of(bytes) {
            Some(word) => Lexeme::Word(word),
            None => Lexeme::Name,
        };
        return Ok(Front::Token(lexeme, length));
    }
    match literal_value(bytes) {
        Some(value) => Ok(Front::Token(Lexeme::Number(value), length)),
        None => Err(LexError::LiteralRange(place)),
    }
}
