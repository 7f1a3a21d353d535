// Instructions that define the canonical frame address (DWARF 5, 6.4.2.2).
ghost use Rattle.std.specs.Prelude.{◌≡◌, ◌≤◌, vec_len, IfOk, pos};
ghost use Rattle.eh_bytes.specs.Memory.{part_of};
ghost use Rattle.table_forms.specs.Instruction.{set_cfa, set_cfa_register, set_cfa_offset, of_register, of_both, of_offset, unsigned_offset, signed_offset};
ghost use Rattle.frame_read.specs.Reads.{Reads};
ghost use Rattle.frame_read.specs.Seen.{step_seen};
ghost use Rattle.frame_read.specs.Fits.{Fits};

use crate::instruction::Instruction;
use crate::offset::{register_of, signed_of, unsigned_of};
use eh_bytes::Segment;
use table_forms::Refusal;

/// It is a register and an unsigned offset.
pub fn defines(
    segment: &Segment,
    stop: usize,
    place: usize,
) -> Result<(Instruction, usize), Refusal>
    requires stop { stop ≤ vec_len segment.now.bytes }
    requires place { place ≤ stop }
    ensures reads { Reads step_seen result (of_both set_cfa (unsigned_offset (pos 1)) (part_of segment.now) stop place) }
    ensures fits { IfOk result (λ x. Fits x.0) }
    ensures inside { IfOk result (λ x. x.1 ≤ stop) }
    ensures on { IfOk result (λ x. place ≤ x.1) }
{
    let (register, next) = register_of(segment, stop, place)?;
    let (offset, next) = unsigned_of(1, segment, stop, next)?;
    Ok((Instruction::SetCfa(register, offset), next))
}

/// It is a register and a signed offset.
pub fn defines_signed(
    factor: i64,
    segment: &Segment,
    stop: usize,
    place: usize,
) -> Result<(Instruction, usize), Refusal>
    requires stop { stop ≤ vec_len segment.now.bytes }
    requires place { place ≤ stop }
    ensures reads { Reads step_seen result (of_both set_cfa (signed_offset factor) (part_of segment.now) stop place) }
    ensures fits { IfOk result (λ x. Fits x.0) }
    ensures inside { IfOk result (λ x. x.1 ≤ stop) }
    ensures on { IfOk result (λ x. place ≤ x.1) }
{
    let (register, next) = register_of(segment, stop, place)?;
    let (offset, next) = signed_of(factor, segment, stop, next)?;
    Ok((Instruction::SetCfa(register, offset), next))
}

/// It counts from another register.
pub fn defines_register(
    segment: &Segment,
    stop: usize,
    place: usize,
) -> Result<(Instruction, usize), Refusal>
    requires stop { stop ≤ vec_len segment.now.bytes }
    requires place { place ≤ stop }
    ensures reads { Reads step_seen result (of_register set_cfa_register (part_of segment.now) stop place) }
    ensures fits { IfOk result (λ x. Fits x.0) }
    ensures inside { IfOk result (λ x. x.1 ≤ stop) }
    ensures on { IfOk result (λ x. place ≤ x.1) }
{
    let (register, next) = register_of(segment, stop, place)?;
    Ok((Instruction::SetCfaRegister(register), next))
}

/// It has another unsigned offset.
pub fn defines_offset(
    segment: &Segment,
    stop: usize,
    place: usize,
) -> Result<(Instruction, usize), Refusal>
    requires stop { stop ≤ vec_len segment.now.bytes }
    requires place { place ≤ stop }
    ensures reads { Reads step_seen result (of_offset set_cfa_offset (unsigned_offset (pos 1)) (part_of segment.now) stop place) }
    ensures fits { IfOk result (λ x. Fits x.0) }
    ensures inside { IfOk result (λ x. x.1 ≤ stop) }
    ensures on { IfOk result (λ x. place ≤ x.1) }
{
    let (offset, next) = unsigned_of(1, segment, stop, place)?;
    Ok((Instruction::SetCfaOffset(offset), next))
}

/// It has another signed offset.
pub fn defines_offset_signed(
    factor: i64,
    segment: &Segment,
    stop: usize,
    place: usize,
) -> Result<(Instruction, usize), Refusal>
    requires stop { stop ≤ vec_len segment.now.bytes }
    requires place { place ≤ stop }
    ensures reads { Reads step_seen result (of_offset set_cfa_offset (signed_offset factor) (part_of segment.now) stop place) }
    ensures fits { IfOk result (λ x. Fits x.0) }
    ensures inside { IfOk result (λ x. x.1 ≤ stop) }
    ensures on { IfOk result (λ x. place ≤ x.1) }
{
    let (offset, next) = signed_of(factor, segment, stop, place)?;
    Ok((Instruction::SetCfaOffset(offset), next))
}
