// Why a source has no tokens.
ghost use Rattle.std.specs.Prelude.{◌≡◌};
ghost use Rattle.cxx_lexer.specs.declared.error.LexError.TheVariants.{NoMemory};

use std::alloc::{AllocError, AllocFailed};
use thiserror::Error;

/// Why a source has no tokens, with the place of the fault, counted in bytes from the source's start.
#[derive(Clone, Copy, Debug, Drop, PartialEq, Eq, Error)]
pub enum LexError {
    /// A byte outside comments that begins no token and is no blank.
    #[error("unexpected byte at {0}")]
    BadByte(u32),
    /// A run of letters, digits and underscores that begins with a digit and is no literal.
    #[error("no literal of an int at {0}")]
    LiteralRange(u32),
    /// A `/*` that is not closed.
    #[error("open comment at {0}")]
    OpenComment(u32),
    /// The first token that is too many.
    #[error("too many tokens at {0}")]
    TooManyTokens(u32),
    #[error("out of memory")]
    NoMemory,
}

impl From<AllocError> for LexError {
    ghost from_gives = { λ _ e. e ≡ NoMemory };

    fn from(_: AllocError) -> LexError {
        LexError::NoMemory
    }
}

impl<T: Drop> From<AllocFailed<T>> for LexError {
    ghost from_gives = { λ _ e. e ≡ NoMemory };

    fn from(_: AllocFailed<T>) -> LexError {
        LexError::NoMemory
    }
}
