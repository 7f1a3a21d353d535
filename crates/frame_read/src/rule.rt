// Instructions that give registers their rules (DWARF 5, 6.4.2.3).
ghost use Rattle.std.specs.Prelude.{◌≡◌, ◌<◌, ◌≤◌, vec_len, IfOk};
ghost use Rattle.eh_bytes.specs.Memory.{part_of};
ghost use Rattle.table_forms.specs.declared.found.Rule.TheVariants as rules;
ghost use Rattle.table_forms.specs.Instruction.{set_rule, restore, of_register, of_registers, of_both, of_offset, unsigned_offset, signed_offset};
ghost use Rattle.frame_read.specs.Reads.{Reads};
ghost use Rattle.frame_read.specs.Seen.{step_seen};
ghost use Rattle.frame_read.specs.Fits.{Fits};

use crate::instruction::Instruction;
use crate::offset::{register_of, signed_of, unsigned_of};
use eh_bytes::Segment;
use table_forms::{Refusal, Rule};

/// A register gets this rule.
pub fn sets(
    rule: Rule,
    segment: &Segment,
    stop: usize,
    place: usize,
) -> Result<(Instruction, usize), Refusal>
    requires stop { stop ≤ vec_len segment.now.bytes }
    requires place { place ≤ stop }
    ensures reads { Reads step_seen result (of_register (λ r. set_rule r rule) (part_of segment.now) stop place) }
    ensures fits { IfOk result (λ x. Fits x.0) }
    ensures inside { IfOk result (λ x. x.1 ≤ stop) }
    ensures on { IfOk result (λ x. place ≤ x.1) }
{
    let (register, next) = register_of(segment, stop, place)?;
    Ok((Instruction::SetRule(register, rule), next))
}

/// A register gets the rule back that the CIE left.
pub fn restores(
    segment: &Segment,
    stop: usize,
    place: usize,
) -> Result<(Instruction, usize), Refusal>
    requires stop { stop ≤ vec_len segment.now.bytes }
    requires place { place ≤ stop }
    ensures reads { Reads step_seen result (of_register restore (part_of segment.now) stop place) }
    ensures fits { IfOk result (λ x. Fits x.0) }
    ensures inside { IfOk result (λ x. x.1 ≤ stop) }
    ensures on { IfOk result (λ x. place ≤ x.1) }
{
    let (register, next) = register_of(segment, stop, place)?;
    Ok((Instruction::Restore(register), next))
}

/// A register is in another one.
pub fn moves(segment: &Segment, stop: usize, place: usize) -> Result<(Instruction, usize), Refusal>
    requires stop { stop ≤ vec_len segment.now.bytes }
    requires place { place ≤ stop }
    ensures reads { Reads step_seen result (of_registers (part_of segment.now) stop place) }
    ensures fits { IfOk result (λ x. Fits x.0) }
    ensures inside { IfOk result (λ x. x.1 ≤ stop) }
    ensures on { IfOk result (λ x. place ≤ x.1) }
{
    let (register, next) = register_of(segment, stop, place)?;
    let (other, next) = register_of(segment, stop, next)?;
    Ok((Instruction::SetRule(register, Rule::Register(other)), next))
}

/// A register that the opcode names is stored at an unsigned offset.
pub fn saves(
    register: u8,
    factor: i64,
    segment: &Segment,
    stop: usize,
    place: usize,
) -> Result<(Instruction, usize), Refusal>
    requires stop { stop ≤ vec_len segment.now.bytes }
    requires place { place ≤ stop }
    requires low { register < 64 }
    ensures reads { Reads step_seen result (of_offset (λ n. set_rule register (rules.Offset n)) (unsigned_offset factor) (part_of segment.now) stop place) }
    ensures fits { IfOk result (λ x. Fits x.0) }
    ensures inside { IfOk result (λ x. x.1 ≤ stop) }
    ensures on { IfOk result (λ x. place ≤ x.1) }
{
    let (offset, next) = unsigned_of(factor, segment, stop, place)?;
    Ok((Instruction::SetRule(register, Rule::Offset(offset)), next))
}

/// A register is stored at an unsigned offset.
pub fn saves_far(
    factor: i64,
    segment: &Segment,
    stop: usize,
    place: usize,
) -> Result<(Instruction, usize), Refusal>
    requires stop { stop ≤ vec_len segment.now.bytes }
    requires place { place ≤ stop }
    ensures reads { Reads step_seen result (of_both (λ r n. set_rule r (rules.Offset n)) (unsigned_offset factor) (part_of segment.now) stop place) }
    ensures fits { IfOk result (λ x. Fits x.0) }
    ensures inside { IfOk result (λ x. x.1 ≤ stop) }
    ensures on { IfOk result (λ x. place ≤ x.1) }
{
    let (register, next) = register_of(segment, stop, place)?;
    let (offset, next) = unsigned_of(factor, segment, stop, next)?;
    Ok((Instruction::SetRule(register, Rule::Offset(offset)), next))
}

/// A register is stored at a signed offset.
pub fn saves_signed(
    factor: i64,
    segment: &Segment,
    stop: usize,
    place: usize,
) -> Result<(Instruction, usize), Refusal>
    requires stop { stop ≤ vec_len segment.now.bytes }
    requires place { place ≤ stop }
    ensures reads { Reads step_seen result (of_both (λ r n. set_rule r (rules.Offset n)) (signed_offset factor) (part_of segment.now) stop place) }
    ensures fits { IfOk result (λ x. Fits x.0) }
    ensures inside { IfOk result (λ x. x.1 ≤ stop) }
    ensures on { IfOk result (λ x. place ≤ x.1) }
{
    let (register, next) = register_of(segment, stop, place)?;
    let (offset, next) = signed_of(factor, segment, stop, next)?;
    Ok((Instruction::SetRule(register, Rule::Offset(offset)), next))
}

/// A register is the canonical frame address and an unsigned offset.
pub fn computes(
    factor: i64,
    segment: &Segment,
    stop: usize,
    place: usize,
) -> Result<(Instruction, usize), Refusal>
    requires stop { stop ≤ vec_len segment.now.bytes }
    requires place { place ≤ stop }
    ensures reads { Reads step_seen result (of_both (λ r n. set_rule r (rules.ValOffset n)) (unsigned_offset factor) (part_of segment.now) stop place) }
    ensures fits { IfOk result (λ x. Fits x.0) }
    ensures inside { IfOk result (λ x. x.1 ≤ stop) }
    ensures on { IfOk result (λ x. place ≤ x.1) }
{
    let (register, next) = register_of(segment, stop, place)?;
    let (offset, next) = unsigned_of(factor, segment, stop, next)?;
    Ok((
        Instruction::SetRule(register, Rule::ValOffset(offset)),
        next,
    ))
}

/// A register is the canonical frame address and a signed offset.
pub fn computes_signed(
    factor: i64,
    segment: &Segment,
    stop: usize,
    place: usize,
) -> Result<(Instruction, usize), Refusal>
    requires stop { stop ≤ vec_len segment.now.bytes }
    requires place { place ≤ stop }
    ensures reads { Reads step_seen result (of_both (λ r n. set_rule r (rules.ValOffset n)) (signed_offset factor) (part_of segment.now) stop place) }
    ensures fits { IfOk result (λ x. Fits x.0) }
    ensures inside { IfOk result (λ x. x.1 ≤ stop) }
    ensures on { IfOk result (λ x. place ≤ x.1) }
{
    let (register, next) = register_of(segment, stop, place)?;
    let (offset, next) = signed_of(factor, segment, stop, next)?;
    Ok((
        Instruction::SetRule(register, Rule::ValOffset(offset)),
        next,
    ))
}
