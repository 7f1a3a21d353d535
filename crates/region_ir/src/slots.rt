// The slots of a function: its own object's address, its variables, its result, an exception object's address, and those for values
// between calls.
ghost use Rattle.std.specs.Prelude.{◌≡◌, ◌++◌, ◌∷◌, [], true, map, replicate, IfOk, OnOk};
ghost use Rattle.class_layout.specs.View.{laid_out};
ghost use Rattle.meaning_forms.specs.Class.{class_type};
ghost use Rattle.region_forms.specs.Layout.{laid_size};
ghost use Rattle.region_forms.specs.LowerProgram as rules;
ghost use Rattle.region_ir.specs.Given.{lowering_of};
ghost use Rattle.region_ir.specs.Variables.{type_in};
ghost use Rattle.region_ir.specs.View.{region_of, slot_of};

use crate::NoMemory;
use crate::lowering::Lowering;
use crate::mentioned::slots_of;
use crate::place::{Slot, SlotKind};
use crate::region::Region;
use crate::variable::Variable;
use class_layout::Layout;
use cxx_ast::types::Ty;
use scope_world::class_named;
use std::alloc::Global;

// The size of a class that is not there, and of an int.
const INT_SIZE: u32 = 4;

// The size of an address, and of a value between calls.
const WORD_SIZE: u32 = 8;

// The size of an object of a class, in bytes.
fn class_size(layout: &Layout, class: u32) -> u32
    ensures { result ≡ laid_size (laid_out layout.now) (class_type class) }
{
    match layout.classes.get(class as usize) {
        Some(it) => it.size,
        None => INT_SIZE,
    }
}

// A slot for an address.
fn address() -> Slot
    ensures { slot_of result ∷ [] ≡ rules.own_slots true }
{
    Slot {
        kind: SlotKind::Address,
        size: WORD_SIZE,
    }
}

// A slot for an address or a value between calls.
fn help() -> Slot
    ensures { slot_of result ≡ rules.help }
{
    Slot {
        kind: SlotKind::Help,
        size: WORD_SIZE,
    }
}

// The slot of a variable: references hold addresses.
fn slot_for(layout: &Layout, variable: &Variable<'_>) -> Slot
    ensures { slot_of result ≡ rules.slot_for (laid_out layout.now) (type_in variable.now) }
{
    match variable {
        Variable::Int => Slot {
            kind: SlotKind::Int,
            size: INT_SIZE,
        },
        Variable::Void => help(),
        Variable::Object(name) => Slot {
            kind: SlotKind::Object,
            size: class_size(layout, class_named(name)),
        },
        Variable::IntRef(_) | Variable::ObjectRef(_, _) => address(),
    }
}

// Slots for values between calls, so many, behind others.
#[tactic(auto, using(crate::proofs::Helps::one_more))]
fn with_help(slots: &mut Vec<Slot>, count: u64) -> Result<(), NoMemory>
    ensures { OnOk result (map slot_of slots.new.items ≡ map slot_of slots.old.items ++ replicate count rules.help) }
{
    for _ in 0..count {
        slots.push(help())?;
    }
    Ok(())
}

// The slots of an own object's address, where there is one, and of the variables.
fn named_slots(
    alloc: Global,
    layout: &Layout,
    is_member: bool,
    variables: &[Variable<'_>],
) -> Result<Vec<Slot>, NoMemory>
    ensures { IfOk result (λ s. map slot_of s.items ≡ rules.own_slots is_member ++ map (rules.slot_for (laid_out layout.now)) (map type_in variables.now)) }
{
    let mut slots = Vec::new(alloc);
    if is_member {
        slots.push(address())?;
    }
    for variable in variables {
        slots.push(slot_for(layout, variable))?;
    }
    Ok(slots)
}

/// The slots of a function: behind those that are named stand its result, an exception object's address, and what its body mentions besides.
#[tactic(auto, using(crate::proofs::Helps::counted))]
pub fn slots_for(
    alloc: Global,
    layout: &Layout,
    is_member: bool,
    variables: &[Variable<'_>],
    body: &Region,
) -> Result<Vec<Slot>, NoMemory>
    ensures { IfOk result (λ s. map slot_of s.items ≡ rules.slots_for (laid_out layout.now) is_member (map type_in variables.now) (region_of body.now)) }
{
    let mut slots = named_slots(alloc, layout, is_member, variables)?;
    let first_temporary = slots.len() as u64 + 2;
    let temporaries = slots_of(body).saturating_sub(first_temporary);
    with_help(&mut slots, 2 + temporaries)?;
    Ok(slots)
}

/// The slot that holds the result of a function: that of an int function.
pub fn result_for(l: &Lowering<'_>, result_type: &Ty) -> Result<Option<u32>, NoMemory>
    ensures { IfOk result (λ r. r ≡ rules.result_for (lowering_of l.now) result_type.now) }
{
    match result_type {
        Ty::Int => Ok(Some(l.result_slot()?)),
        _ => Ok(None),
    }
}
