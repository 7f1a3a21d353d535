// Why a program is refused.
ghost use Rattle.std.specs.Prelude.{◌≡◌};
ghost use Rattle.cxx_check.specs.declared.error.CheckError.TheVariants.{NoMemory};

use std::alloc::AllocError;
use thiserror::Error;

/// Why a program is not accepted.
#[derive(Clone, Copy, Debug, Drop, PartialEq, Eq, Error)]
pub enum CheckError {
    /// The number of a rule that the program breaks, from 30 to 49, 70 or 71, and the place where it does, in bytes from the source's start.
    #[error("rule {0} is broken at {1}")]
    Refused(u8, u32),
    #[error("out of memory")]
    NoMemory,
}

impl From<AllocError> for CheckError {
    ghost from_gives = { λ _ e. e ≡ NoMemory };

    fn from(_: AllocError) -> CheckError {
        CheckError::NoMemory
    }
}
