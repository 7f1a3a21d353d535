// Refusals of frames and tables, as those of an image.
ghost use Rattle.std.specs.Prelude.{◌≡◌};
ghost use Rattle.elf_image.specs.declared.error.ImageError.TheVariants as errors;
ghost use Rattle.table_check.specs.Refusals.{of_frames};

use elf_image::ImageError;
use frame_read::FrameError;
use lsda_read::TableError;

/// A refusal of the header or the frames.
pub fn of_frames(error: FrameError) -> ImageError
    ensures { result ≡ of_frames error }
{
    match error {
        FrameError::NoMemory => ImageError::NoMemory,
        FrameError::Refused {
            reason,
            place,
            location,
            other,
        } => ImageError::Refused {
            reason,
            place,
            location,
            other,
        },
    }
}

/// A refusal of an exception table.
pub fn of_table(error: TableError) -> ImageError
    ensures { result ≡ errors.Refused error.reason error.place 0 0 }
{
    ImageError::Refused {
        reason: error.reason,
        place: error.place,
        location: 0,
        other: 0,
    }
}
