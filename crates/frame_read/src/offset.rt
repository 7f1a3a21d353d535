// Operands of call frame instructions: registers, and offsets with their factor.
ghost use Rattle.std.specs.Prelude.{◌≡◌, ◌+◌, ◌<◌, ◌≤◌, pos, ◌*ℤ◌, vec_len, IfOk};
ghost use Rattle.eh_bytes.specs.Memory.{part_of};
ghost use Rattle.table_forms.specs.Instruction.{register_at, in_range, unsigned_offset, signed_offset};
ghost use Rattle.frame_read.specs.Reads.{Reads};

use crate::field::{sleb_at, uleb_at};
use eh_bytes::Segment;
use table_forms::{Reason, Refusal, refused};

/// A register of 0 to 63.
#[tactic(auto, unfolding(table_forms::specs::Instruction::register_at))]
pub fn register_of(segment: &Segment, stop: usize, place: usize) -> Result<(u8, usize), Refusal>
    requires stop { stop ≤ vec_len segment.now.bytes }
    requires place { place ≤ stop }
    ensures reads { Reads (λ x. x) result (register_at (part_of segment.now) stop place) }
    ensures low { IfOk result (λ x. x.0 < 64) }
    ensures inside { IfOk result (λ x. x.1 ≤ stop) }
    ensures on { IfOk result (λ x. place < x.1) }
{
    let (register, next) = uleb_at(segment, stop, place)?;
    if register >= 64 {
        return Err(refused(
            Reason::RegisterRange,
            segment.file_at as u128 + place as u128,
        ));
    }
    Ok((register as u8, next))
}

// The value of the operand at a place, where it is one of 64 bits.
fn in_range(
    segment: &Segment,
    place: usize,
    value: i128,
    next: usize,
) -> Result<(i64, usize), Refusal>
    ensures reads { Reads (λ x. x) result (in_range (part_of segment.now) place value next) }
    ensures next { IfOk result (λ x. x.1 ≡ next) }
{
    if value < i64::MIN as i128 || value > i64::MAX as i128 {
        return Err(refused(Reason::LebRange, segment.file_at as u128 + place as u128));
    }
    Ok((value as i64, next))
}

/// An unsigned offset with its factor.
#[tactic(auto, unfolding(table_forms::specs::Instruction::unsigned_offset))]
pub fn unsigned_of(
    factor: i64,
    segment: &Segment,
    stop: usize,
    place: usize,
) -> Result<(i64, usize), Refusal>
    requires stop { stop ≤ vec_len segment.now.bytes }
    requires place { place ≤ stop }
    ensures reads { Reads (λ x. x) result (unsigned_offset factor (part_of segment.now) stop place) }
    ensures inside { IfOk result (λ x. x.1 ≤ stop) }
    ensures on { IfOk result (λ x. place < x.1) }
{
    let (count, next) = uleb_at(segment, stop, place)?;
    in_range(segment, place, count as i128 * factor as i128, next)
}

/// A signed offset with its factor.
#[tactic(auto, unfolding(table_forms::specs::Instruction::signed_offset))]
pub fn signed_of(
    factor: i64,
    segment: &Segment,
    stop: usize,
    place: usize,
) -> Result<(i64, usize), Refusal>
    requires stop { stop ≤ vec_len segment.now.bytes }
    requires place { place ≤ stop }
    ensures reads { Reads (λ x. x) result (signed_offset factor (part_of segment.now) stop place) }
    ensures inside { IfOk result (λ x. x.1 ≤ stop) }
    ensures on { IfOk result (λ x. place < x.1) }
{
    let (count, next) = sleb_at(segment, stop, place)?;
    in_range(segment, place, count as i128 * factor as i128, next)
}
