// Lists of call frame instructions, and the states that they remember (DWARF 5, 6.4.2.4).
ghost use Rattle.std.specs.Prelude.{◌≡◌, ◌≤◌, vec_len, IfOk, IfSome};
ghost use Rattle.eh_bytes.specs.Memory.{part_of};
ghost use Rattle.table_forms.specs.Instructions.{states_after, instructions_at};
ghost use Rattle.frame_read.specs.Reads.{Reads};
ghost use Rattle.frame_read.specs.Seen.{coding_seen, instruction_seen};
ghost use Rattle.frame_read.specs.States.{states_of, with_list};

use crate::instruction::{Coding, Instruction};
use crate::step::instruction_of;
use eh_bytes::Segment;
use table_forms::{Reason, Refusal, refused};

// How many states are remembered after an instruction, if it may stand there.
fn states_after(instruction: Instruction, states: u8) -> Option<u8>
    requires { states ≤ 16 }
    ensures after { result ≡ states_after (instruction_seen instruction) states }
    ensures few { IfSome result (λ n. n ≤ 16) }
{
    match instruction {
        Instruction::RememberState => { if states < 16 { Some(states + 1) } else { None } }
        Instruction::RestoreState => states.checked_sub(1),
        _ => Some(states),
    }
}

// How many states are remembered behind the instructions from a place up to a stop.
fn states_behind(
    coding: Coding,
    segment: &Segment,
    stop: usize,
    first: usize,
    remembered: u8,
) -> Result<u8, Refusal>
    requires stop { stop ≤ vec_len segment.now.bytes }
    requires first { first ≤ stop }
    requires few { remembered ≤ 16 }
    ensures reads { Reads (λ n. n) result (states_of (instructions_at (coding_seen coding) (part_of segment.now) stop first remembered)) }
    ensures few { IfOk result (λ n. n ≤ 16) }
{
    let mut states = remembered;
    let mut place = first;
    'instructions: while place < stop {
        match instruction_of(coding, segment, stop, place) {
            Err(e) => return Err(e),
            Ok((instruction, next)) => {
                let Some(kept) = states_after(instruction, states) else {
                    return Err(refused(
                        Reason::StateStack,
                        segment.file_at as u128 + place as u128,
                    ));
                };
                states = kept;
                place = next;
            }
        }
    }
    Ok(states)
}

/// The instructions from a place up to a stop: how many states are remembered behind them.
#[tactic(auto, using(crate::proofs::Stepped::listed, crate::proofs::Stepped::refused))]
pub fn instructions_of(
    coding: Coding,
    segment: &Segment,
    stop: usize,
    first: usize,
    remembered: u8,
) -> Result<u8, Refusal>
    requires stop { stop ≤ vec_len segment.now.bytes }
    requires first { first ≤ stop }
    requires few { remembered ≤ 16 }
    ensures reads { Reads (with_list (instructions_at (coding_seen coding) (part_of segment.now) stop first remembered)) result (instructions_at (coding_seen coding) (part_of segment.now) stop first remembered) }
    ensures few { IfOk result (λ n. n ≤ 16) }
{
    match states_behind(coding, segment, stop, first, remembered) {
        Ok(states) => Ok(states),
        Err(e) => Err(e),
    }
}
