// The text of a schedule.
ghost use Rattle.std.specs.Prelude.{◌≡◌, ◌≤◌, ◌^◌, ℕ, length, None, Err, IfOk, IfSome};
ghost use Rattle.hart_sched.specs.declared.schedule.ScheduleError.TheVariants as errors;
ghost use Rattle.hart_sched.specs.Reads.{FormSoFar, Forms, Reads};
ghost use Rattle.hart_sched.specs.Schedule.{IsSchedule, schedule};

use crate::line::read_line;
use plain_text::line_length;
use std::alloc::{AllocError, AllocFailed, Global};
use thiserror::Error;

/// Why a schedule is not read.
#[derive(Clone, Copy, Debug, PartialEq, Eq, Error)]
pub enum ScheduleError {
    /// It is refused by a number, at a place in the text: 80 at a line that is not of the form, 81 at
    /// a hart that there is not, 82 at a number with which there are too many turns.
    #[error("schedule refused: {0} at {1}")]
    Refused(u8, u32),
    #[error("no memory")]
    NoMemory,
}

impl From<AllocError> for ScheduleError {
    ghost from_gives = { λ _ e. e ≡ errors.NoMemory };

    fn from(_: AllocError) -> Self {
        ScheduleError::NoMemory
    }
}

impl<T: Drop> From<AllocFailed<T>> for ScheduleError {
    ghost from_gives = { λ _ e. e ≡ errors.NoMemory };

    fn from(_: AllocFailed<T>) -> Self {
        ScheduleError::NoMemory
    }
}

// The most turns of a whole schedule.
const MOST_TURNS: u64 = 1 << 40;

// The place of the first line that is none among those that are left, where all before them are lines.
fn form_fault(text: &[u8], left: &[u8]) -> Option<usize>
    requires { FormSoFar text.now left.now }
    ensures forms { Forms text.now result }
    ensures inside { IfSome result (λ place. place ≤ length text.now) }
{
    let mut rest = left;
    while !rest.is_empty() {
        let (line, others) = rest.split_at(line_length(rest));
        match read_line(line) {
            None => return Some(text.len() - rest.len()),
            Some(_) => rest = others,
        }
    }
    None
}

// The refusal at a line of the form whose numbers are refused: one that is not of the form goes before it, also where it stands behind.
fn refusal_at(text: &[u8], behind: &[u8], number: u8, place: u32) -> ScheduleError
    requires short { length text.now ≤ 2 ^ 20 }
    requires so_far { FormSoFar text.now behind.now }
    ensures { (harts : ℕ) → (Forms text.now None → schedule harts text.now ≡ Err (record { number = number; place = place })) → Reads harts text.now (Err result) }
{
    match form_fault(text, behind) {
        Some(first) => ScheduleError::Refused(80, first as u32),
        None => ScheduleError::Refused(number, place),
    }
}

// The slices of a text, in one pass.
fn slices_of(alloc: Global, text: &[u8], harts: u32) -> Result<Vec<(u32, u32)>, ScheduleError>
    requires { length text.now ≤ 2 ^ 20 }
    ensures { Reads harts text.now result }
{
    let mut slices = Vec::new(alloc);
    let mut turns = 0;
    let mut rest = text;
    while !rest.is_empty() {
        let place = (text.len() - rest.len()) as u32;
        let (line, others) = rest.split_at(line_length(rest));
        let Some(numbers) = read_line(line) else {
            return Err(ScheduleError::Refused(80, place));
        };
        if numbers.hart >= u64::from(harts) {
            return Err(refusal_at(text, others, 81, place));
        }
        turns += u64::from(numbers.turns);
        if turns > MOST_TURNS {
            let behind = place + numbers.width as u32 + 1;
            return Err(refusal_at(text, others, 82, behind));
        }
        slices.push((numbers.hart as u32, numbers.turns))?;
        rest = others;
    }
    Ok(slices)
}

/// Reads a schedule for so many harts: lines `H N`, each a hart's number and a number of turns from 1
/// to 4,294,967,295, with one blank between, ended by a line feed.
///
/// The text has at most 1 MiB. It is refused where a line is not of this form (80), and else where
/// first a hart is out of range (81) or the turns so far are more than 2^40 (82).
pub fn read_schedule(
    alloc: Global,
    text: &[u8],
    harts: u32,
) -> Result<Vec<(u32, u32)>, ScheduleError>
    requires { length text.now ≤ 2 ^ 20 }
    ensures reads { Reads harts text.now result }
    ensures kept { IfOk result (λ slices. IsSchedule harts slices.items) }
{
    slices_of(alloc, text, harts)
}
