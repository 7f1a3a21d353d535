// One call frame instruction (DWARF 5, 6.4.2 and 7.24; GNU_args_size by the LSB).
ghost use Rattle.std.specs.Prelude.{◌≡◌, ◌+◌, ◌<◌, ◌≤◌, vec_len, IfOk};
ghost use Rattle.eh_bytes.specs.Memory.{part_of};
ghost use Rattle.table_forms.specs.Instruction.{of_size, extended, operands, instruction_at};
ghost use Rattle.frame_read.specs.Reads.{Reads};
ghost use Rattle.frame_read.specs.Seen.{coding_seen, step_seen};
ghost use Rattle.frame_read.specs.Fits.{Fits};

use crate::cfa::{
    defines, defines_offset, defines_offset_signed, defines_register, defines_signed,
};
use crate::field::{byte_at, uleb_at};
use crate::instruction::{Coding, Instruction};
use crate::location::{advances_by_u8, advances_by_u16, advances_by_u32, goes_to};
use crate::rule::{
    computes, computes_signed, moves, restores, saves, saves_far, saves_signed, sets,
};
use eh_bytes::Segment;
use table_forms::{Reason, Refusal, Rule, refused};

// The size of the arguments, which changes no row.
fn passes_over_size(
    segment: &Segment,
    stop: usize,
    place: usize,
) -> Result<(Instruction, usize), Refusal>
    requires stop { stop ≤ vec_len segment.now.bytes }
    requires place { place ≤ stop }
    ensures reads { Reads step_seen result (of_size (part_of segment.now) stop place) }
    ensures fits { IfOk result (λ x. Fits x.0) }
    ensures inside { IfOk result (λ x. x.1 ≤ stop) }
    ensures on { IfOk result (λ x. place ≤ x.1) }
{
    let (_, next) = uleb_at(segment, stop, place)?;
    Ok((Instruction::Nop, next))
}

// The instruction of an opcode whose two high bits are 0, by its operands.
#[tactic(auto, unfolding(table_forms::specs::Instruction::extended))]
fn extended(
    coding: Coding,
    opcode: u8,
    segment: &Segment,
    stop: usize,
    opcode_at: usize,
    place: usize,
) -> Result<(Instruction, usize), Refusal>
    requires stop { stop ≤ vec_len segment.now.bytes }
    requires place { place ≤ stop }
    ensures reads { Reads step_seen result (extended (coding_seen coding) opcode opcode_at (part_of segment.now) stop place) }
    ensures fits { IfOk result (λ x. Fits x.0) }
    ensures inside { IfOk result (λ x. x.1 ≤ stop) }
    ensures on { IfOk result (λ x. place ≤ x.1) }
{
    let refused_at = segment.file_at as u128 + opcode_at as u128;
    match opcode {
        0x00 => Ok((Instruction::Nop, place)),
        0x01 => goes_to(coding, segment, stop, place),
        0x02 => advances_by_u8(coding, segment, stop, place),
        0x03 => advances_by_u16(coding, segment, stop, place),
        0x04 => advances_by_u32(coding, segment, stop, place),
        0x05 => saves_far(coding.data_factor, segment, stop, place),
        0x06 => restores(segment, stop, place),
        0x07 => sets(Rule::Undefined, segment, stop, place),
        0x08 => sets(Rule::Same, segment, stop, place),
        0x09 => moves(segment, stop, place),
        0x0a => Ok((Instruction::RememberState, place)),
        0x0b => Ok((Instruction::RestoreState, place)),
        0x0c => defines(segment, stop, place),
        0x0d => defines_register(segment, stop, place),
        0x0e => defines_offset(segment, stop, place),
        0x11 => saves_signed(coding.data_factor, segment, stop, place),
        0x12 => defines_signed(coding.data_factor, segment, stop, place),
        0x13 => defines_offset_signed(coding.data_factor, segment, stop, place),
        0x14 => computes(coding.data_factor, segment, stop, place),
        0x15 => computes_signed(coding.data_factor, segment, stop, place),
        0x2e => passes_over_size(segment, stop, place),
        // Expressions.
        0x0f | 0x10 | 0x16 => Err(refused(Reason::Expression, refused_at)),
        _ => Err(refused(Reason::UnknownInstruction, refused_at)),
    }
}

// The instruction of an opcode, whose two high bits may say all.
#[tactic(auto, unfolding(table_forms::specs::Instruction::operands))]
fn with_opcode(
    coding: Coding,
    opcode: u8,
    segment: &Segment,
    stop: usize,
    opcode_at: usize,
    place: usize,
) -> Result<(Instruction, usize), Refusal>
    requires stop { stop ≤ vec_len segment.now.bytes }
    requires place { place ≤ stop }
    ensures reads { Reads step_seen result (operands (coding_seen coding) opcode opcode_at (part_of segment.now) stop place) }
    ensures fits { IfOk result (λ x. Fits x.0) }
    ensures inside { IfOk result (λ x. x.1 ≤ stop) }
    ensures on { IfOk result (λ x. place ≤ x.1) }
{
    let low = opcode % 64;
    match opcode / 64 {
        1 => Ok((coding.advance(low as u32), place)),
        2 => saves(low, coding.data_factor, segment, stop, place),
        3 => Ok((Instruction::Restore(low), place)),
        _ => extended(coding, opcode, segment, stop, opcode_at, place),
    }
}

/// The instruction at a place, and the place behind it.
#[tactic(auto, unfolding(table_forms::specs::Instruction::instruction_at))]
pub fn instruction_of(
    coding: Coding,
    segment: &Segment,
    stop: usize,
    place: usize,
) -> Result<(Instruction, usize), Refusal>
    requires stop { stop ≤ vec_len segment.now.bytes }
    requires place { place ≤ stop }
    ensures reads { Reads step_seen result (instruction_at (coding_seen coding) (part_of segment.now) stop place) }
    ensures fits { IfOk result (λ x. Fits x.0) }
    ensures inside { IfOk result (λ x. x.1 ≤ stop) }
    ensures on { IfOk result (λ x. place < x.1) }
{
    let (opcode, next) = byte_at(segment, stop, place)?;
    with_opcode(coding, opcode, segment, stop, place, next)
}
