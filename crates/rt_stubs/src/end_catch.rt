// Leaving a handler.
use crate::line::Line::{Addi, Beq, Bne, Ecall, Jal, Jalr, Ld, Sd};
use crate::line::Name::{A0, A1, A7, Ra, Sp, Zero};
use crate::listing::Listing;
use eh_bytes::{FrameChange, FrameMove, ListSite};

/// Leaves the newest handler, and destroys and frees the exception object where it was its last.
///
/// The object is kept at sp + 40 and its destructor at sp + 32. Where the destructor throws, or a
/// forced unwind begins in it, a pad frees the object, and what is on its way goes on; the pad keeps
/// what it gets at sp + 24 and sp + 16.
pub static END_CATCH: Listing = Listing {
    name: b"end_catch",
    code: &[
        Addi(Sp, Sp, -48),
        Sd(Ra, 8, Sp),
        Addi(A7, Zero, 7), // leave the newest handler
        Ecall,
        Sd(A0, 40, Sp),
        Sd(A1, 32, Sp),
        Bne(A0, Zero, 8),
        Jal(Zero, 36), // there is nothing to destroy
        Ld(A1, 32, Sp),
        Beq(A1, Zero, 16), // the object has no destructor
        Ld(A0, 40, Sp),
        Sd(A0, -8, Sp),
        Jalr(Ra, 0, A1),
        Ld(A0, 40, Sp),
        Addi(A7, Zero, 4), // free
        Ecall,
        Addi(A0, Zero, 0),
        Ld(Ra, 8, Sp),
        Addi(Sp, Sp, 48),
        Jalr(Zero, 0, Ra),
        // the pad of the destructor's call
        Sd(A0, 24, Sp),
        Sd(A1, 16, Sp),
        Ld(A0, 40, Sp),
        Addi(A7, Zero, 4), // free the object all the same
        Ecall,
        Ld(A0, 24, Sp),
        Addi(A7, Zero, 9), // resume
        Ecall,
    ],
    sites: &[
        ListSite {
            start: 32,
            length: 20,
            pad: 80,
            chain: Some(0),
        },
        ListSite {
            start: 100,
            length: 12,
            pad: 0,
            chain: None,
        },
    ],
    chains: &[&[0]],
    types: &[],
    moves: &[
        FrameMove {
            location: 4,
            change: FrameChange::Cfa(48),
        },
        FrameMove {
            location: 8,
            change: FrameChange::Saved(1, -40),
        },
    ],
};
