// What becomes of an exception that a specification stopped.
use crate::line::Line::{Addi, Auipc, Beq, Bne, Ecall, Jal, Jalr, Ld, Lw, Sd, Subw};
use crate::line::Name::{A0, A1, A2, A7, Ra, Sp, Zero};
use crate::listing::Listing;
use eh_bytes::{FrameChange, FrameMove, ListSite};

/// Calls the unexpected handler, and throws on what the specification allows: what the handler
/// throws, or `std::bad_exception` in its place; else it terminates.
///
/// The exception and the selector are passed at sp + 72 and sp + 64. The table that names the list is
/// kept at sp + 56, the handler at sp + 48, what a pad gets at sp + 40 and sp + 32, the answer of the
/// check at sp + 24, and a bad_exception at sp + 16.
pub static CALL_UNEXPECTED: Listing = Listing {
    name: b"call_unexpected",
    code: &[
        Addi(Sp, Sp, -80),
        Sd(Ra, 8, Sp),
        Ld(A0, 72, Sp),
        Addi(A7, Zero, 18), // enter the exception: its unexpected handler, and the table of its target
        Ecall,
        Sd(A0, 48, Sp),
        Sd(A1, 56, Sp),
        Ld(A0, 48, Sp),
        Beq(A0, Zero, 8),
        Jalr(Ra, 0, A0),
        Ld(A0, 72, Sp), // there is no handler, or it came back
        Addi(A7, Zero, 20), // terminate with the handler kept with the exception
        Ecall,
        // the pad of the handler's call
        Sd(A0, 40, Sp),
        Sd(A1, 32, Sp),
        Lw(A0, 32, Sp),
        Addi(A1, Zero, 0),
        Bne(A0, A1, 8),
        Jal(Zero, 148), // a forced unwind
        Ld(A0, 40, Sp),
        Addi(A7, Zero, 6), // enter what was thrown
        Ecall,
        Ld(A0, 56, Sp),
        Lw(A1, 64, Sp),
        Ld(A2, 40, Sp),
        Addi(A7, Zero, 19), // does the list allow it?
        Ecall,
        Sd(A0, 24, Sp),
        Lw(A0, 24, Sp),
        Bne(A0, Zero, 8),
        Jal(Zero, 36), // 0: it does
        Lw(A0, 24, Sp),
        Addi(A1, Zero, 1),
        Subw(A0, A0, A1),
        Bne(A0, Zero, 8),
        Jal(Zero, 24), // 1: std::bad_exception is listed
        Ld(A0, 72, Sp),
        Addi(A7, Zero, 20), // terminate with the handler kept with the first exception
        Ecall,
        Addi(A7, Zero, 8), // throw it again
        Ecall,
        Addi(A7, Zero, 3), // make an exception
        Ecall,
        Sd(A0, 16, Sp),
        Addi(Zero, Zero, 0), // std::bad_exception has no parts to construct
        Ld(A0, 16, Sp),
        Auipc(A1, 0), // its type record
        Addi(A1, A1, -392),
        Addi(A2, Zero, 0),
        Addi(A7, Zero, 5), // throw
        Ecall,
        // the pad of both throws
        Sd(A0, 40, Sp),
        Sd(A1, 32, Sp),
        Auipc(Ra, 0), // end_catch
        Jalr(Ra, -324, Ra),
        // a forced unwind leaves the first exception on its way
        Auipc(Ra, 0), // end_catch
        Jalr(Ra, -332, Ra),
        Ld(A0, 40, Sp),
        Addi(A7, Zero, 9), // resume
        Ecall,
    ],
    sites: &[
        ListSite {
            start: 28,
            length: 12,
            pad: 52,
            chain: Some(0),
        },
        ListSite {
            start: 156,
            length: 8,
            pad: 204,
            chain: Some(1),
        },
        ListSite {
            start: 180,
            length: 24,
            pad: 204,
            chain: Some(1),
        },
        ListSite {
            start: 228,
            length: 12,
            pad: 0,
            chain: None,
        },
    ],
    chains: &[&[1, 0], &[0]],
    types: &[0],
    moves: &[
        FrameMove {
            location: 4,
            change: FrameChange::Cfa(80),
        },
        FrameMove {
            location: 8,
            change: FrameChange::Saved(1, -72),
        },
    ],
};
