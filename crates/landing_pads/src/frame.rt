// The slots of a function's code, and the size of its frame.
ghost use Rattle.std.specs.Prelude.{◌≡◌, ◌<◌, ◌^◌, map, IfOk};
ghost use Rattle.region_forms.specs.Form.{regions_from};
ghost use Rattle.region_forms.specs.LowerProgram.{help as help_slot};
ghost use Rattle.linear_forms.specs.Frame as rules;
ghost use Rattle.region_ir.specs.View.{function_of, region_of, slot_of};

use crate::NoMemory;
use region_ir::place::{Slot, SlotKind};
use region_ir::program::RegionFunc;
use region_ir::region::Region;
use std::alloc::Global;

// The size of an address, a selector, and the name of a way.
const WORD_SIZE: u32 = 8;

// The return address, and a word for the use of emission.
const SAVED_BYTES: u64 = 16;

/// Whether some part of a region has a landing pad.
#[cycle(padded)]
#[tactic(auto, using(region_ir::proofs::Rows::region_rows))]
fn has_pad(region: &Region) -> bool
    ensures { result ≡ rules.has_pad (region_of region.now) }
{
    match region {
        Region::Seq(regions) => some_has_pad(regions.as_slice()),
        Region::Branch(_, first, second) => has_pad(first) || has_pad(second),
        Region::Loop(_, body) | Region::Barrier(body) => has_pad(body),
        Region::Protect(_, _) | Region::Catch(_, _) | Region::Limit(_, _) => true,
        Region::Op(_) | Region::Leave(_) => false,
    }
}

#[cycle(padded)]
fn some_has_pad(regions: &[Region]) -> bool
    ensures { result ≡ rules.some_has_pad (regions_from (map region_of regions.now)) }
{
    for region in regions {
        if has_pad(region) {
            return true;
        }
    }
    false
}

// A slot for a word.
fn help() -> Slot
    ensures { slot_of result ≡ help_slot }
{
    Slot {
        kind: SlotKind::Help,
        size: WORD_SIZE,
    }
}

/// The slots of a function's code: behind its own stand those of its landing pads, if it has any.
pub fn code_slots(alloc: Global, function: &RegionFunc) -> Result<Vec<Slot>, NoMemory>
    ensures { IfOk result (λ s. map slot_of s.items ≡ rules.code_slots (function_of function.now)) }
{
    let mut slots = Vec::from_slice(alloc, function.slots.as_slice())?;
    if has_pad(&function.body) {
        slots.push(help())?;
        slots.push(help())?;
        slots.push(help())?;
    }
    Ok(slots)
}

// A number of bytes, rounded up to a multiple of one more than `mask`.
fn rounded_up(mask: u64, bytes: u64) -> Result<u64, NoMemory>
    requires { mask < 2 ^ 32 }
    ensures { IfOk result (λ n. n ≡ rules.rounded_up mask bytes) }
{
    match bytes.checked_add(mask) {
        Some(sum) => Ok(sum / (mask + 1) * (mask + 1)),
        None => Err(NoMemory),
    }
}

// The bytes of slots, each rounded up to a multiple of 8.
fn slot_bytes(slots: &[Slot]) -> Result<u64, NoMemory>
    ensures { IfOk result (λ n. n ≡ rules.slot_bytes (map slot_of slots.now)) }
{
    let mut bytes: u64 = 0;
    for slot in slots {
        let size = rounded_up(7, u64::from(slot.size))?;
        bytes = bytes.checked_add(size).ok_or(NoMemory)?;
    }
    Ok(bytes)
}

/// The size of a frame with these slots.
pub fn frame_bytes(slots: &[Slot]) -> Result<u32, NoMemory>
    ensures { IfOk result (λ n. n ≡ rules.frame_bytes (map slot_of slots.now)) }
{
    let bytes = slot_bytes(slots)?.checked_add(SAVED_BYTES).ok_or(NoMemory)?;
    match u32::try_from(rounded_up(15, bytes)?) {
        Ok(size) => Ok(size),
        Err(_) => Err(NoMemory),
    }
}
