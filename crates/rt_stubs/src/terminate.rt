// What terminate does.
use crate::line::Line::{Addi, Beq, Ecall, Jalr, Ld, Sd};
use crate::line::Name::{A0, A7, Ra, Sp, Zero};
use crate::listing::Listing;
use eh_bytes::{FrameChange, FrameMove};

/// Calls the terminate handler in a0, if it is not 0, and aborts.
///
/// Its call has no site, so nothing that is thrown comes out of the handler.
pub static TERMINATE: Listing = Listing {
    name: b"terminate",
    code: &[
        Addi(Sp, Sp, -32),
        Sd(Ra, 8, Sp),
        Sd(A0, 24, Sp),
        Ld(A0, 24, Sp),
        Beq(A0, Zero, 8),
        Jalr(Ra, 0, A0),
        Addi(A7, Zero, 16), // abort
        Ecall,
    ],
    sites: &[],
    chains: &[],
    types: &[],
    moves: &[
        FrameMove {
            location: 4,
            change: FrameChange::Cfa(32),
        },
        FrameMove {
            location: 8,
            change: FrameChange::Saved(1, -24),
        },
    ],
};
