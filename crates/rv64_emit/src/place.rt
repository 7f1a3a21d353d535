// Loads, stores and addresses of places.
ghost use Rattle.std.specs.Prelude.{◌≡◌, ◌++◌, OnOk};
ghost use Rattle.region_ir.specs.View.{place_of};
ghost use Rattle.machine_forms.specs.KeptCode.{copied, int_read, register_of};
ghost use Rattle.machine_forms.specs.Piece.{instruction};
ghost use Rattle.machine_forms.specs.PlaceCode as rules;
ghost use Rattle.rv64_emit.specs.View.{target_of};

use crate::NoMemory;
use crate::code::Code;
use crate::immediate::{immediate, is_small, upper};
use crate::piece::{Piece, Target};
use crate::register::{sp, zero};
use crate::shape::Frame;
use region_ir::place::{Place, Root};
use rv64_isa::{Immediate12, Instr, Register};

// An offset from sp into a slot.
fn within(frame: &Frame<'_>, slot: u32, bytes: u32) -> Immediate12
    ensures { result ≡ rules.within frame.now slot bytes }
{
    immediate(i64::from(frame.offset(slot)) + i64::from(bytes))
}

/// A register gets the 8 bytes of a slot.
pub fn slot_load(frame: &Frame<'_>, rd: Register, slot: u32) -> Instr
    ensures { instruction result ≡ rules.slot_loaded frame.now rd slot }
{
    Instr::Ld(rd, sp(), within(frame, slot, 0))
}

/// A register is written to the 8 bytes of a slot.
pub fn slot_store(frame: &Frame<'_>, value: Register, slot: u32) -> Instr
    ensures { instruction result ≡ rules.slot_stored frame.now value slot }
{
    Instr::Sd(sp(), value, within(frame, slot, 0))
}

/// A register gets what another one holds.
pub fn copy(rd: Register, value: Register) -> Instr
    ensures { result ≡ copied rd value }
{
    Instr::Addi(rd, value, Immediate12::new(0))
}

// A register gets the int so many bytes inside a slot, or that of a kept variable.
fn int_read(frame: &Frame<'_>, rd: Register, slot: u32, bytes: u32) -> Instr
    ensures { result ≡ int_read (register_of frame.now.kept slot) rd (rules.within frame.now slot bytes) }
{
    match frame.register_of(slot) {
        None => Instr::Lw(rd, sp(), within(frame, slot, bytes)),
        Some(register) => copy(rd, register),
    }
}

/// A register gets the int of a slot.
pub fn int_load(frame: &Frame<'_>, rd: Register, slot: u32) -> Instr
    ensures { instruction result ≡ rules.int_loaded frame.now rd slot }
{
    int_read(frame, rd, slot, 0)
}

/// A register gets the address of a target.
pub fn put_target(rd: Register, target: Target, code: &mut Code) -> Result<(), NoMemory>
    ensures { OnOk result (code.new ≡ code.old ++ rules.target_address rd (target_of target)) }
{
    code.push(Piece::UpperPart(rd, target))?;
    code.push(Piece::AddRest(rd, target))
}

// A number is added to a register, unless it is 0.
fn put_added(rd: Register, bytes: u32, code: &mut Code) -> Result<(), NoMemory>
    ensures { OnOk result (code.new ≡ code.old ++ rules.added rd bytes) }
{
    if bytes == 0 {
        Ok(())
    } else {
        code.put(Instr::Addi(rd, rd, immediate(i64::from(bytes))))
    }
}

/// A register gets the address of a place, which is no kept variable.
pub fn put_address(
    frame: &Frame<'_>,
    rd: Register,
    place: Place,
    code: &mut Code,
) -> Result<(), NoMemory>
    ensures { OnOk result (code.new ≡ code.old ++ rules.place_address frame.now rd (place_of place)) }
{
    match place.root {
        Root::Slot(slot) => code.put(Instr::Addi(rd, sp(), within(frame, slot, place.offset))),
        Root::Through(slot) => {
            code.put(slot_load(frame, rd, slot))?;
            put_added(rd, place.offset, code)
        }
        Root::Global(global) => put_target(rd, Target::Global(global, place.offset), code),
    }
}

/// A register gets the int of a place.
pub fn put_load(
    frame: &Frame<'_>,
    rd: Register,
    place: Place,
    code: &mut Code,
) -> Result<(), NoMemory>
    ensures { OnOk result (code.new ≡ code.old ++ rules.place_loaded frame.now rd (place_of place)) }
{
    match place.root {
        Root::Slot(slot) => code.put(int_read(frame, rd, slot, place.offset)),
        Root::Through(slot) => {
            code.put(slot_load(frame, rd, slot))?;
            code.put(Instr::Lw(rd, rd, immediate(i64::from(place.offset))))
        }
        Root::Global(global) => {
            let target = Target::Global(global, place.offset);
            code.push(Piece::UpperPart(rd, target))?;
            code.push(Piece::LoadRest(rd, target))
        }
    }
}

/// The int in a register is written to a place, which is no kept variable, by means of another register.
pub fn put_store(
    frame: &Frame<'_>,
    value: Register,
    base: Register,
    place: Place,
    code: &mut Code,
) -> Result<(), NoMemory>
    ensures { OnOk result (code.new ≡ code.old ++ rules.place_stored frame.now value base (place_of place)) }
{
    match place.root {
        Root::Slot(slot) => code.put(Instr::Sw(sp(), value, within(frame, slot, place.offset))),
        Root::Through(slot) => {
            code.put(slot_load(frame, base, slot))?;
            code.put(Instr::Sw(base, value, immediate(i64::from(place.offset))))
        }
        Root::Global(global) => {
            let target = Target::Global(global, place.offset);
            code.push(Piece::UpperPart(base, target))?;
            code.push(Piece::StoreRest(value, base, target))
        }
    }
}

/// A register gets a number.
pub fn put_number(rd: Register, value: i64, code: &mut Code) -> Result<(), NoMemory>
    ensures { OnOk result (code.new ≡ code.old ++ rules.number_set rd value) }
{
    if is_small(value) {
        code.put(Instr::Addi(rd, zero(), immediate(value)))
    } else {
        code.put(Instr::Lui(rd, upper(value)))?;
        code.put(Instr::Addiw(rd, rd, immediate(value)))
    }
}
