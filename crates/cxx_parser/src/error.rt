// Why tokens have no tree.
ghost use Rattle.std.specs.Prelude.{◌≡◌};
ghost use Rattle.cxx_parser.specs.declared.error.ParseError.TheVariants.{NoMemory};

use std::alloc::{AllocError, AllocFailed};
use thiserror::Error;

/// Why tokens have no tree, with the place of the fault, counted in bytes from the source's start.
#[derive(Clone, Copy, Debug, Drop, PartialEq, Eq, Error)]
pub enum ParseError {
    /// The first token that no program has there, or the source's end, where a program is not complete.
    #[error("unexpected token or end at {0}")]
    Unexpected(u32),
    /// The first token with which every program has a tree deeper than 64.
    #[error("tree too deep at {0}")]
    TooDeep(u32),
    #[error("out of memory")]
    NoMemory,
}

impl From<AllocError> for ParseError {
    ghost from_gives = { λ _ e. e ≡ NoMemory };

    fn from(_: AllocError) -> ParseError {
        ParseError::NoMemory
    }
}

impl<T: Drop> From<AllocFailed<T>> for ParseError {
    ghost from_gives = { λ _ e. e ≡ NoMemory };

    fn from(_: AllocFailed<T>) -> ParseError {
        ParseError::NoMemory
    }
}
