// Common information entries of .debug_frame (DWARF 5, 6.4.1), without an augmentation.
ghost use Rattle.std.specs.Prelude.{◌≡◌, ◌≤◌, ◌<◌, Ok, vec_len, IfOk};
ghost use Rattle.eh_bytes.specs.Memory.{part_of};
ghost use Rattle.table_forms.specs.Instructions.{instructions_at};
ghost use Rattle.frame_read.specs.Reads.{Reads};
ghost use Rattle.frame_read.specs.Seen.{coding_seen};
ghost use Rattle.frame_read.specs.SeenCie.{cie_seen};
ghost use Rattle.frame_read.specs.States.{states_of};
ghost use Rattle.debug_frames.specs.DebugCie.{size_at, sizes_at, debug_cie_at};

use eh_bytes::Segment;
use frame_read::cie::return_register_of;
use frame_read::cie_part::CiePart;
use frame_read::field::{byte_at, sleb_at, uleb_at};
use frame_read::instruction::Coding;
use frame_read::states::instructions_of;
use frame_read::text::text_at;
use table_forms::{Reason, Refusal, refused};

const ADDRESS_SIZE: u8 = 8;

const SELECTOR_SIZE: u8 = 0;

// The place behind a size, which is this one.
#[tactic(auto, unfolding(crate::specs::DebugCie::size_at))]
fn size_of(wanted: u8, section: &Segment, stop: usize, place: usize) -> Result<usize, Refusal>
    requires stop { stop ≤ vec_len section.now.bytes }
    requires place { place ≤ stop }
    ensures reads { Reads (λ x. x) result (size_at wanted (part_of section.now) stop place) }
    ensures inside { IfOk result (λ x. x ≤ stop) }
{
    let (size, next) = byte_at(section, stop, place)?;
    if size != wanted {
        return Err(refused(Reason::AddressSize, section.file_at as u128 + place as u128));
    }
    Ok(next)
}

// The place behind the sizes that version 4 has.
#[tactic(auto, unfolding(crate::specs::DebugCie::sizes_at))]
fn sizes_of(version: u8, section: &Segment, stop: usize, place: usize) -> Result<usize, Refusal>
    requires stop { stop ≤ vec_len section.now.bytes }
    requires place { place ≤ stop }
    ensures reads { Reads (λ x. x) result (sizes_at version (part_of section.now) stop place) }
    ensures inside { IfOk result (λ x. x ≤ stop) }
{
    if version != 4 {
        return Ok(place);
    }
    let next = size_of(ADDRESS_SIZE, section, stop, place)?;
    size_of(SELECTOR_SIZE, section, stop, next)
}

/// The CIE whose length stands at `at`, and whose version at a place.
#[tactic(auto, unfolding(crate::specs::DebugCie::debug_cie_at))]
pub fn cie_of(
    section: &Segment,
    at: usize,
    stop: usize,
    place: usize,
) -> Result<CiePart<'static>, Refusal>
    requires stop { stop ≤ vec_len section.now.bytes }
    requires place { place ≤ stop }
    ensures reads { Reads (cie_seen (part_of section.now)) result (debug_cie_at (part_of section.now) at stop place) }
    ensures at { IfOk result (λ c. c.at ≡ at) }
    ensures stop { IfOk result (λ c. c.stop ≡ stop) }
    ensures first { IfOk result (λ c. c.first ≤ stop) }
    ensures whole { IfOk result (λ c. states_of (instructions_at (coding_seen c.coding) (part_of section.now) c.stop c.first 0) ≡ Ok c.states) }
{
    let (version, next) = byte_at(section, stop, place)?;
    if version != 1 && version != 3 && version != 4 {
        return Err(refused(Reason::Version, section.file_at as u128 + place as u128));
    }
    let (augmentation, behind) = text_at(section, stop, next)?;
    if !augmentation.is_empty() {
        return Err(refused(Reason::Augmentation, section.file_at as u128 + next as u128));
    }
    let sizes = sizes_of(version, section, stop, behind)?;
    let (code_factor, next) = uleb_at(section, stop, sizes)?;
    let (data_factor, next) = sleb_at(section, stop, next)?;
    let (return_register, first) = return_register_of(version, section, stop, next)?;
    let coding = Coding {
        code_factor,
        data_factor,
        encoding: 0,
    };
    let states = instructions_of(coding, section, stop, first, 0)?;
    Ok(CiePart {
        at,
        version,
        augmentation: b"".as_slice(),
        coding,
        return_register,
        lsda_encoding: None,
        signal: false,
        first,
        stop,
        states,
    })
}
