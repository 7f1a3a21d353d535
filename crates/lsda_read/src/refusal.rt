// A refused field, and how a refusal is reported.
ghost use Rattle.std.specs.Prelude.{◌≡◌};
ghost use Rattle.table_forms.specs.Fault.{fault, table_reason};
ghost use Rattle.table_forms.specs.Seen.{fault_of};
ghost use Rattle.lsda_read.specs.Reads.{reported};

use crate::error::TableError;
use eh_bytes::ByteError;
use table_forms::{Reason, Refusal, refused};

/// The refusal of a field.
pub fn field_refusal(cause: ByteError, place: u128) -> Refusal
    ensures { fault_of result ≡ fault (table_reason cause) place }
{
    match cause {
        ByteError::Truncated => refused(Reason::TableTruncated, place),
        ByteError::LebRange => refused(Reason::LebRange, place),
        ByteError::Encoding => refused(Reason::Encoding, place),
    }
}

impl From<Refusal> for TableError {
    ghost from_gives = { λ r e. e ≡ reported (fault_of r) };

    fn from(refusal: Refusal) -> TableError {
        let place = if refusal.place > u64::MAX as u128 {
            u64::MAX
        } else {
            refusal.place as u64
        };
        TableError {
            reason: refusal.reason,
            place,
            other: refusal.other,
        }
    }
}
