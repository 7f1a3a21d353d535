// Registers of kept variables are saved where a call begins, and get back what they held where it ends.
ghost use Rattle.std.specs.Prelude.{◌≡◌, ◌++◌, pos, OnOk};
ghost use Rattle.machine_forms.specs.Immediate as fields;
ghost use Rattle.machine_forms.specs.KeptCode as rules;
ghost use Rattle.machine_forms.specs.Registers.{saved_registers};
ghost use Rattle.machine_forms.specs.Shape.{slot_offset};

use crate::NoMemory;
use crate::code::Code;
use crate::immediate::immediate;
use crate::place::copy;
use crate::register::{saved, sp, t0};
use crate::shape::Frame;
use rv64_isa::{Immediate12, Instr, Register};

// Where the register of a slot's variable is saved, from sp on.
fn offset_of(frame: &Frame<'_>, slot: u32) -> Immediate12
    ensures { result ≡ fields.immediate (pos (slot_offset frame.now slot)) }
{
    immediate(i64::from(frame.offset(slot)))
}

// A register is saved at an offset from sp; where an int is passed there it is taken before, and put in the register behind.
fn put_saved(
    parameters: u32,
    offset: Immediate12,
    register: Register,
    slot: u32,
    code: &mut Code,
) -> Result<(), NoMemory>
    ensures { OnOk result (code.new ≡ code.old ++ rules.one_saved parameters offset register slot) }
{
    if slot < parameters {
        code.put(Instr::Lw(t0(), sp(), offset))?;
        code.put(Instr::Sd(sp(), register, offset))?;
        code.put(copy(register, t0()))
    } else {
        code.put(Instr::Sd(sp(), register, offset))
    }
}

/// The registers of kept variables are saved.
pub fn put_saves(frame: &Frame<'_>, parameters: u32, code: &mut Code) -> Result<(), NoMemory>
    ensures { OnOk result (code.new ≡ code.old ++ rules.saves frame.now parameters saved_registers frame.now.kept) }
{
    let kept = frame.kept();
    for (place, slot) in kept.iter().enumerate() {
        if let Some(register) = saved(place) {
            put_saved(parameters, offset_of(frame, *slot), register, *slot, code)?;
        }
    }
    Ok(())
}

/// They get back what they held.
pub fn put_restores(frame: &Frame<'_>, code: &mut Code) -> Result<(), NoMemory>
    ensures { OnOk result (code.new ≡ code.old ++ rules.restores frame.now saved_registers frame.now.kept) }
{
    let kept = frame.kept();
    for (place, slot) in kept.iter().enumerate() {
        if let Some(register) = saved(place) {
            code.put(Instr::Ld(register, sp(), offset_of(frame, *slot)))?;
        }
    }
    Ok(())
}
