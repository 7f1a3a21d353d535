// Common information entries (DWARF 5, 6.4.1; LSB Core, "The Common Information Entry Format").
ghost use Rattle.std.specs.Prelude.{◌≡◌, ◌<◌, ◌≤◌, ◌==◌, if◌then◌else◌, Ok, vec_len, IfOk};
ghost use Rattle.eh_bytes.specs.Memory.{part_of};
ghost use Rattle.eh_bytes.specs.Field.{byte};
ghost use Rattle.eh_bytes.specs.Leb128.{uleb};
ghost use Rattle.table_forms.specs.Instruction.{in_frames};
ghost use Rattle.table_forms.specs.Cie.{return_register_at, cie_at};
ghost use Rattle.frame_read.specs.Reads.{Reads};
ghost use Rattle.table_forms.specs.Instructions.{instructions_at};
ghost use Rattle.frame_read.specs.Seen.{coding_seen};
ghost use Rattle.frame_read.specs.Heads.{HeadReads, cie_after};
ghost use Rattle.frame_read.specs.SeenCie.{cie_seen};
ghost use Rattle.frame_read.specs.States.{states_of};

use crate::cie_part::CiePart;
use crate::field::{byte_at, sleb_at, uleb_at};
use crate::instruction::Coding;
use crate::letters::augmented;
use crate::states::instructions_of;
use crate::text::{text_at, wrong_letter};
use eh_bytes::Segment;
use table_forms::{Reason, Refusal, refused};

// The number that a byte is.
fn byte_number(segment: &Segment, stop: usize, place: usize) -> Result<(u64, usize), Refusal>
    requires stop { stop ≤ vec_len segment.now.bytes }
    requires place { place ≤ stop }
    ensures reads { Reads (λ x. x) result (in_frames byte (part_of segment.now) stop place) }
    ensures inside { IfOk result (λ x. x.1 ≤ stop) }
{
    let (byte, next) = byte_at(segment, stop, place)?;
    Ok((byte as u64, next))
}

// The number of the return register, whose form is the version's.
fn register_number(
    version: u8,
    segment: &Segment,
    stop: usize,
    place: usize,
) -> Result<(u64, usize), Refusal>
    requires stop { stop ≤ vec_len segment.now.bytes }
    requires place { place ≤ stop }
    ensures reads { Reads (λ x. x) result (in_frames (if version == 1 then byte else uleb) (part_of segment.now) stop place) }
    ensures inside { IfOk result (λ x. x.1 ≤ stop) }
{
    if version == 1 {
        byte_number(segment, stop, place)
    } else {
        uleb_at(segment, stop, place)
    }
}

/// The return register, from 0 to 63, in the form of a version.
#[tactic(auto, unfolding(table_forms::specs::Cie::return_register_at))]
pub fn return_register_of(
    version: u8,
    segment: &Segment,
    stop: usize,
    place: usize,
) -> Result<(u8, usize), Refusal>
    requires stop { stop ≤ vec_len segment.now.bytes }
    requires place { place ≤ stop }
    ensures reads { Reads (λ x. x) result (return_register_at version (part_of segment.now) stop place) }
    ensures inside { IfOk result (λ x. x.1 ≤ stop) }
{
    let (register, next) = register_number(version, segment, stop, place)?;
    if register >= 64 {
        return Err(refused(
            Reason::RegisterRange,
            segment.file_at as u128 + place as u128,
        ));
    }
    Ok((register as u8, next))
}

/// What stands before the instructions of the CIE whose length stands at `at`, and whose version at
/// a place. Its instructions are not read, and no state is counted.
#[tactic(auto, unfolding(table_forms::specs::Cie::cie_at))]
pub fn cie_head_of(
    segment: &Segment,
    at: usize,
    stop: usize,
    place: usize,
) -> Result<CiePart<'_>, Refusal>
    requires stop { stop ≤ vec_len segment.now.bytes }
    requires place { place ≤ stop }
    ensures head { HeadReads (cie_after (part_of segment.now)) result (cie_at (part_of segment.now) at stop place) }
    ensures at { IfOk result (λ c. c.at ≡ at) }
    ensures stop { IfOk result (λ c. c.stop ≡ stop) }
    ensures first { IfOk result (λ c. c.first ≤ stop) }
{
    let (version, next) = byte_at(segment, stop, place)?;
    if version != 1 && version != 3 {
        return Err(refused(Reason::Version, segment.file_at as u128 + place as u128));
    }
    let (augmentation, behind) = text_at(segment, stop, next)?;
    if let Some(wrong) = wrong_letter(next, augmentation) {
        return Err(refused(Reason::Augmentation, segment.file_at as u128 + wrong));
    }
    let (code_factor, next) = uleb_at(segment, stop, behind)?;
    let (data_factor, next) = sleb_at(segment, stop, next)?;
    let (return_register, next) = return_register_of(version, segment, stop, next)?;
    let (letters, first) = augmented(segment, stop, augmentation, next)?;
    Ok(CiePart {
        at,
        version,
        augmentation,
        coding: Coding {
            code_factor,
            data_factor,
            encoding: letters.encoding,
        },
        return_register,
        lsda_encoding: letters.lsda_encoding,
        signal: letters.signal,
        first,
        stop,
        states: 0,
    })
}

/// The CIE whose length stands at `at`, and whose version at a place.
pub fn cie_of(
    segment: &Segment,
    at: usize,
    stop: usize,
    place: usize,
) -> Result<CiePart<'_>, Refusal>
    requires stop { stop ≤ vec_len segment.now.bytes }
    requires place { place ≤ stop }
    ensures reads { Reads (cie_seen (part_of segment.now)) result (cie_at (part_of segment.now) at stop place) }
    ensures at { IfOk result (λ c. c.at ≡ at) }
    ensures stop { IfOk result (λ c. c.stop ≡ stop) }
    ensures first { IfOk result (λ c. c.first ≤ stop) }
    ensures whole { IfOk result (λ c. states_of (instructions_at (coding_seen c.coding) (part_of segment.now) c.stop c.first 0) ≡ Ok c.states) }
{
    let head = cie_head_of(segment, at, stop, place)?;
    let states = instructions_of(head.coding, segment, head.stop, head.first, 0)?;
    Ok(CiePart {
        at: head.at,
        version: head.version,
        augmentation: head.augmentation,
        coding: head.coding,
        return_register: head.return_register,
        lsda_encoding: head.lsda_encoding,
        signal: head.signal,
        first: head.first,
        stop: head.stop,
        states,
    })
}
