// Why a source is refused.
ghost use Rattle.std.specs.Prelude.{◌≡◌};
ghost use Rattle.cxx_front.specs.Answer.{of_checker, of_lexer, of_parser};

use cxx_check::CheckError;
use cxx_lexer::LexError;
use cxx_parser::ParseError;
use thiserror::Error;

/// Why a source has no checked program.
#[derive(Clone, Copy, Debug, Drop, PartialEq, Eq, Error)]
pub enum SourceError {
    /// The number of what the source breaks, from 10 to 13 for its tokens, 20 and 21 for its tree and 30 to 49, 70 and 71 for the
    /// static rules, and the place where it does, in bytes from the source's start.
    #[error("{0} at {1}")]
    Refused(u8, u32),
    #[error("out of memory")]
    NoMemory,
}

impl From<LexError> for SourceError {
    ghost from_gives = { λ e s. s ≡ of_lexer e };

    fn from(error: LexError) -> SourceError {
        match error {
            LexError::BadByte(place) => SourceError::Refused(10, place),
            LexError::LiteralRange(place) => SourceError::Refused(11, place),
            LexError::OpenComment(place) => SourceError::Refused(12, place),
            LexError::TooManyTokens(place) => SourceError::Refused(13, place),
            LexError::NoMemory => SourceError::NoMemory,
        }
    }
}

impl From<ParseError> for SourceError {
    ghost from_gives = { λ e s. s ≡ of_parser e };

    fn from(error: ParseError) -> SourceError {
        match error {
            ParseError::Unexpected(place) => SourceError::Refused(20, place),
            ParseError::TooDeep(place) => SourceError::Refused(21, place),
            ParseError::NoMemory => SourceError::NoMemory,
        }
    }
}

impl From<CheckError> for SourceError {
    ghost from_gives = { λ e s. s ≡ of_checker e };

    fn from(error: CheckError) -> SourceError {
        match error {
            CheckError::Refused(number, place) => SourceError::Refused(number, place),
            CheckError::NoMemory => SourceError::NoMemory,
        }
    }
}
