// The frame of a function: its slots, the beginning and the end of its code, and its moves.
ghost use Rattle.std.specs.Prelude.{◌≡◌, ◌++◌, ◌-◌, ◌==◌, false, length, position, IfOk, OnOk, map};
ghost use Rattle.region_ir.specs.View.{root_of, slot_of};
ghost use Rattle.linear_forms.specs.Frame.{rounded_up, slot_bytes};
ghost use Rattle.landing_pads.specs.View.{code_of};
ghost use Rattle.machine_forms.specs.Emitted.{shape_of};
ghost use Rattle.machine_forms.specs.KeptCode.{register_of, root_register};
ghost use Rattle.machine_forms.specs.Shape as rules;
ghost use Rattle.rv64_emit.specs.Offsets.{offsets_below};

use crate::NoMemory;
use crate::code::Code;
use crate::immediate::immediate;
use crate::kept::kept_slots;
use crate::leaf::is_leaf;
use crate::register::{ra, saved, sp, t0, zero};
use crate::runtime_call::{STACK, put_runtime_call};
use landing_pads::unit::FuncCode;
use region_ir::place::{Root, Slot};
use rv64_isa::{BranchOffset, Immediate12, Immediate20, Instr, Register};
use std::alloc::Global;
use std::marker::Model;

// The return address, from sp on.
pub const RETURN_OFFSET: u16 = 8;

// Below this page of the stack no call begins.
const LOWEST_PAGE: u32 = 0x70001;

/// The frame of a function, with the offsets of its slots from sp, the slots of its kept variables, and whether the function is a leaf.
#[derive(Drop)]
pub struct Frame<'a> {
    function: &'a FuncCode,
    offsets: Vec<u32>,
    lowest: u32,
    kept: Vec<u32>,
    leaf: bool,
}

impl<'a> Model for Frame<'a> {
    ghost use Rattle.machine_forms.specs.Shape.{Shape};

    ghost Value = { Shape };

    ghost use Rattle.landing_pads.specs.View.{code_of};
    ghost use Rattle.machine_forms.specs.Emitted.{shape_of};
    ghost use Rattle.rv64_emit.specs.Offsets.{HasFrame};

    ghost view = { λ f. shape_of (code_of f.function.now) };

    ghost invariant = { λ f. HasFrame (code_of f.function.now) f.offsets.items f.lowest f.kept.items f.leaf };
}

// The offset of a slot of so many bytes that ends at a byte; each slot's size is rounded up to 8.
fn below(end: u32, size: u32) -> u32
    ensures { result ≡ end - rounded_up 7 size }
{
    let rounded = (u64::from(size) + 7) / 8 * 8;
    u64::from(end).saturating_sub(rounded) as u32
}

// The offsets of slots, the first of which ends at a byte, and where the last one begins.
fn offsets_of(alloc: Global, end: u32, slots: &[Slot]) -> Result<(Vec<u32>, u32), NoMemory>
    ensures offsets { IfOk result (λ r. r.0.items ≡ offsets_below end (map slot_of slots.now)) }
    ensures lowest { IfOk result (λ r. r.1 ≡ end - slot_bytes (map slot_of slots.now)) }
{
    let mut offsets = Vec::new(alloc);
    let mut lowest = end;
    for slot in slots {
        lowest = below(lowest, slot.size);
        offsets.push(lowest)?;
    }
    Ok((offsets, lowest))
}

// The place of a slot among others.
fn place_among(slot: u32, slots: &[u32]) -> Option<usize>
    ensures { result ≡ position (λ s. s == slot) slots.now }
{
    slots.iter().position(|other| *other == slot)
}

impl<'a> Frame<'a> {
    /// The frame of a function.
    pub fn new(alloc: Global, function: &'a FuncCode) -> Result<Frame<'a>, NoMemory>
        ensures { IfOk result (λ f. f ≡ shape_of (code_of function.now)) }
    {
        let (offsets, lowest) = offsets_of(alloc, function.frame, function.slots.as_slice())?;
        Ok(Frame {
            function,
            offsets,
            lowest,
            kept: kept_slots(alloc, function)?,
            leaf: is_leaf(function),
        })
    }

    /// Its size in bytes.
    pub fn size(&self) -> u32
        ensures { result ≡ self.now.size }
    {
        self.function.frame
    }

    /// The first byte of a slot, from sp on.
    pub fn offset(&self, slot: u32) -> u32
        ensures { result ≡ rules.slot_offset self.now slot }
    {
        self.offsets
            .get(slot as usize)
            .copied()
            .unwrap_or(self.lowest)
    }

    /// The slots of its kept variables.
    pub fn kept(&self) -> &[u32]
        ensures { result.now ≡ self.now.kept }
    {
        self.kept.as_slice()
    }

    /// The register of a slot, if the variable there is kept.
    pub fn register_of(&self, slot: u32) -> Option<Register>
        ensures { result ≡ register_of self.now.kept slot }
    {
        let place = place_among(slot, self.kept())?;
        saved(place)
    }

    /// The register of what a place begins at, if that is a kept variable.
    pub fn register_at(&self, root: Root) -> Option<Register>
        ensures { result ≡ root_register self.now (root_of root) }
    {
        match root {
            Root::Slot(slot) => self.register_of(slot),
            Root::Through(_) | Root::Global(_) => None,
        }
    }

    /// Whether its function calls nothing.
    pub fn is_leaf(&self) -> bool
        ensures { result ≡ self.now.leaf }
    {
        self.leaf
    }

    /// How many words its prologue has.
    pub fn prologue_words(&self) -> u32
        ensures { result ≡ length (rules.prologue self.now) }
    {
        if self.leaf { 2 } else { 6 }
    }
}

// The program ends where too little of the stack is left.
fn put_stack_test(code: &mut Code) -> Result<(), NoMemory>
    ensures { OnOk result (code.new ≡ code.old ++ rules.stack_tested false) }
{
    code.put(Instr::Lui(t0(), Immediate20::new(LOWEST_PAGE)))?;
    code.put(Instr::Bgeu(sp(), t0(), BranchOffset::new(6)))?;
    put_runtime_call(STACK, code)
}

/// The beginning of a function: it takes its frame, saves the return address, and ends the program where too little of the stack is left. A
/// leaf does not look at the stack.
pub fn put_prologue(frame: &Frame<'_>, code: &mut Code) -> Result<(), NoMemory>
    ensures { OnOk result (code.new ≡ code.old ++ rules.prologue frame.now) }
{
    let down = immediate(-i64::from(frame.size()));
    code.put(Instr::Addi(sp(), sp(), down))?;
    code.put(Instr::Sd(sp(), ra(), Immediate12::new(RETURN_OFFSET)))?;
    if frame.is_leaf() {
        Ok(())
    } else {
        put_stack_test(code)
    }
}

/// The end of a call: the frame is given back, and control goes back.
pub fn put_epilogue(frame: &Frame<'_>, code: &mut Code) -> Result<(), NoMemory>
    ensures { OnOk result (code.new ≡ code.old ++ rules.epilogue frame.now) }
{
    let up = immediate(i64::from(frame.size()));
    code.put(Instr::Ld(ra(), sp(), Immediate12::new(RETURN_OFFSET)))?;
    code.put(Instr::Addi(sp(), sp(), up))?;
    code.put(Instr::Jalr(zero(), ra(), Immediate12::new(0)))
}
