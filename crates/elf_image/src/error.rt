// Why an image is refused.
ghost use Rattle.std.specs.Prelude.{◌≡◌};

use std::alloc::AllocError;
use table_forms::{Reason, Refusal};
use thiserror::Error;

/// Why there is no image.
#[derive(Clone, Copy, Debug, Drop, PartialEq, Eq, Error)]
pub enum ImageError {
    /// The file is refused: why, a place in the file, and two locations
    /// where a header's table and the frames differ, else 0.
    #[error("image refused: {} at {place}", .reason.number())]
    Refused {
        reason: Reason,
        place: u64,
        location: u64,
        other: u64,
    },
    #[error("no memory")]
    NoMemory,
}

impl From<AllocError> for ImageError {
    ghost use Rattle.elf_image.specs.declared.error.ImageError.TheVariants as errors;

    ghost from_gives = { λ _ e. e ≡ errors.NoMemory };

    fn from(_error: AllocError) -> ImageError {
        ImageError::NoMemory
    }
}

impl From<Refusal> for ImageError {
    ghost use Rattle.table_forms.specs.Seen.{fault_of};
    ghost use Rattle.elf_image.specs.Reports.{reported};

    ghost from_gives = { λ r e. e ≡ reported (fault_of r) };

    fn from(refusal: Refusal) -> ImageError {
        ImageError::Refused {
            reason: refusal.reason,
            place: refusal.place.min(u64::MAX as u128) as u64,
            location: refusal.location,
            other: refusal.other,
        }
    }
}
