// Where two FDEs differ.
ghost use Rattle.std.specs.Prelude.{◌≡◌, ◌<◌};
ghost use Rattle.eh_bytes.specs.Memory.{memory_of};
ghost use Rattle.debug_frames.specs.Least.{lesser};
ghost use Rattle.debug_frames.specs.Pair.{IsPair, differing};

use crate::list::DebugFrames;
use crate::same_row::is_row;
use eh_bytes::Segments;
use frame_read::{Fde, Frames};
use table_forms::Row;

// The lesser of two locations.
fn lesser(first: Option<u128>, second: Option<u128>) -> Option<u128>
    ensures { result ≡ lesser first second }
{
    match first {
        None => second,
        Some(location) => match second {
            None => first,
            Some(other) => Some(location.min(other)),
        },
    }
}

/// The first location from a start on and before an end at which two FDEs, whose regions have them
/// all, give rows that differ, with these rows. It goes over the instructions of both once.
pub fn difference_in(
    memory: &Segments,
    frames: &Frames,
    debug: &DebugFrames,
    first: &Fde,
    second: u32,
    start: u64,
    end: u128,
) -> Option<(u64, Row, Row)>
    requires pair { IsPair (memory_of memory.now) frames.now debug.now first.now second start end }
    requires some { start < end }
    ensures { (p : IsPair (memory_of memory.now) frames.now debug.now first.now second start end) → result ≡ differing p.first p.second start end }
{
    let mut walk = frames.walk(memory, first);
    let mut second_walk = debug.walk(second);
    let mut pc = start;
    'changes: while (pc as u128) < end {
        let until = lesser(walk.goes_to(pc), second_walk.goes_to(pc));
        let row = walk.row();
        let other = second_walk.row();
        if !is_row(&row, &other) {
            return Some((pc, row, other));
        }
        let Some(next) = until else {
            return None;
        };
        if next >= end {
            return None;
        }
        pc = next as u64;
    }
    None
}
