// A refused field, and how a refusal is reported.
ghost use Rattle.std.specs.Prelude.{◌≡◌};
ghost use Rattle.table_forms.specs.Fault.{fault, frame_reason};
ghost use Rattle.table_forms.specs.Seen.{fault_of};

use crate::error::FrameError;
use eh_bytes::ByteError;
use table_forms::{Reason, Refusal, refused};

/// The refusal of a field.
pub fn field_refusal(cause: ByteError, place: u128) -> Refusal
    ensures { fault_of result ≡ fault (frame_reason cause) place }
{
    match cause {
        ByteError::Truncated => refused(Reason::FrameTruncated, place),
        ByteError::LebRange => refused(Reason::LebRange, place),
        ByteError::Encoding => refused(Reason::Encoding, place),
    }
}

impl From<Refusal> for FrameError {
    ghost use Rattle.frame_read.specs.ReadsFrames.{reported};

    ghost from_gives = { λ r e. e ≡ reported (fault_of r) };

    fn from(refusal: Refusal) -> FrameError {
        let place = if refusal.place > u64::MAX as u128 {
            u64::MAX
        } else {
            refusal.place as u64
        };
        FrameError::Refused {
            reason: refusal.reason,
            place,
            location: refusal.location,
            other: refusal.other,
        }
    }
}
