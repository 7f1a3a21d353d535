// Why frames are not read.
ghost use Rattle.std.specs.Prelude.{◌≡◌};
ghost use Rattle.frame_read.specs.declared.error.FrameError.TheVariants as errors;

use std::alloc::AllocError;
use table_forms::Reason;
use thiserror::Error;

/// Why frame information is refused or was not read.
#[derive(Clone, Copy, Debug, PartialEq, Eq, Error)]
pub enum FrameError {
    /// For a reason, at a place in the file. Where a row of the header table and an FDE differ, the
    /// location of the row and that of the FDE, and 0 for the one that is missing; else both 0.
    #[error("frame information refused: {} at {place}", .reason.number())]
    Refused {
        reason: Reason,
        place: u64,
        location: u64,
        other: u64,
    },
    #[error("no memory")]
    NoMemory,
}

impl From<AllocError> for FrameError {
    ghost from_gives = { λ _ e. e ≡ errors.NoMemory };

    fn from(_: AllocError) -> FrameError {
        FrameError::NoMemory
    }
}
