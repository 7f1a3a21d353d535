// The first function of a run.
use crate::line::Line::{Addi, Auipc, Ecall, Jalr};
use crate::line::Name::{A7, Ra, Zero};
use crate::listing::Listing;
use eh_bytes::{FrameChange, FrameMove, ListSite};

/// Calls main by the unit's first word, and exits with what it gives.
///
/// It has no frame, and nothing is outward of it: x1 has no value from its first byte on. What comes
/// out of main goes on into nothing, by a site without a pad.
pub static START: Listing = Listing {
    name: b"start",
    code: &[
        Auipc(Ra, 0), // the unit's first word
        Jalr(Ra, 400, Ra),
        Addi(A7, Zero, 0), // exit
        Ecall,
    ],
    sites: &[ListSite {
        start: 0,
        length: 8,
        pad: 0,
        chain: None,
    }],
    chains: &[],
    types: &[],
    moves: &[FrameMove {
        location: 0,
        change: FrameChange::Undefined(1),
    }],
};
