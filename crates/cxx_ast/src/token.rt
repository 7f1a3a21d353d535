// The tokens of a source.
use crate::keyword::Keyword;
use crate::mark::Mark;
use crate::text::Text;

/// What a token is.
#[derive(Drop)]
pub enum TokenKind {
    /// A name, which is no reserved word.
    Name(Text),
    /// A literal by its value.
    Number(i32),
    /// A reserved word.
    Word(Keyword),
    /// An operator or a punctuator.
    Mark(Mark),
}

/// A token, and the place of its first byte, counted in bytes from the source's start.
#[derive(Drop)]
pub struct Token {
    pub kind: TokenKind,
    pub place: u32,
}
