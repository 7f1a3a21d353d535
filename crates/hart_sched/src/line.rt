// The lines of a schedule.
ghost use Rattle.std.specs.Prelude.{◌≡◌, ◌<◌, IfSome, length, option_map};
ghost use Rattle.hart_sched.specs.Reads.{ReadsLine};
ghost use Rattle.hart_sched.specs.Schedule.{parted};

use crate::number::{number_in, turns_in};
use memchr::memchr;

/// The numbers of a line, and how many bytes the first has.
#[derive(Clone, Copy)]
pub struct Numbers {
    // `u64::MAX` for all from there on.
    pub hart: u64,
    pub turns: u32,
    pub width: usize,
}

// What stands before the first such byte, and what behind it.
fn parted(byte: u8, text: &[u8]) -> Option<(&[u8], &[u8])>
    ensures parts { option_map (λ p. (p.0.now, p.1.now)) result ≡ parted byte text.now }
    ensures short { IfSome result (λ p. length p.0.now < length text.now) }
{
    match memchr(byte, text) {
        Some(at) => Some((&text[..at], &text[at + 1..])),
        None => None,
    }
}

/// Reads a line.
pub fn read_line(line: &[u8]) -> Option<Numbers>
    ensures reads { ReadsLine line.now result }
    ensures short { IfSome result (λ numbers. numbers.width < length line.now) }
{
    let (digits, others) = parted(b' ', line)?;
    let (more, behind) = parted(b'\n', others)?;
    if !behind.is_empty() {
        return None;
    }
    let hart = number_in(digits)?;
    let turns = turns_in(more)?;
    Some(Numbers {
        hart,
        turns,
        width: digits.len(),
    })
}
