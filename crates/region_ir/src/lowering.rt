// What a function's lowering is given, and where names lead.
ghost use Rattle.std.specs.Prelude.{◌≡◌, ◌+◌, IfOk};
ghost use Rattle.region_forms.specs.Layout.{laid_member};
ghost use Rattle.region_forms.specs.LowerExpression as rules;
ghost use Rattle.class_layout.specs.View.{laid_out};
ghost use Rattle.region_ir.specs.View.{place_of, root_of};
ghost use Rattle.region_ir.specs.Given.{lowering_of, offset_named};

use crate::NoMemory;
use crate::numbering::Numbering;
use crate::numbers::behind;
use crate::place::{Place, Root};
use crate::variable::Variable;
use class_layout::Layout;
use cxx_ast::name::{Bound, Name};
use std::alloc::Global;

/// The program with its numbers and its layout, the types of the function's variables, and the slot of the first of them, which is 1
/// behind the address of a member function's own object and else 0.
#[derive(Clone, Copy)]
pub struct Lowering<'a> {
    pub alloc: Global,
    pub numbering: &'a Numbering<'a>,
    pub layout: &'a Layout,
    pub variables: &'a [Variable<'a>],
    pub first_variable: u32,
}

/// The place at the beginning of a slot.
pub fn slot_place(slot: u32) -> Place
    ensures { place_of result ≡ rules.slot_place slot }
{
    Place {
        root: Root::Slot(slot),
        offset: 0,
    }
}

/// The place so many bytes behind the address that a slot holds.
pub fn through_place(slot: u32, offset: u32) -> Place
    ensures { place_of result ≡ rules.through_place slot offset }
{
    Place {
        root: Root::Through(slot),
        offset,
    }
}

/// The offset of a member in its class.
pub fn member_offset(layout: &Layout, class: u32, member: u32) -> u32
    ensures { result ≡ laid_member (laid_out layout.now) class member }
{
    match layout.classes.get(class as usize) {
        Some(it) => match it.members.get(member as usize) {
            Some(offset) => *offset,
            None => 0,
        },
        None => 0,
    }
}

impl Lowering<'_> {
    /// The slot of the result.
    pub fn result_slot(&self) -> Result<u32, NoMemory>
        ensures { IfOk result (λ n. n ≡ rules.result_slot (lowering_of self.now)) }
    {
        behind(self.first_variable, self.variables.len())
    }

    /// The slot of an exception object's address.
    pub fn exception_slot(&self) -> Result<u32, NoMemory>
        ensures { IfOk result (λ n. n ≡ rules.exception_slot (lowering_of self.now)) }
    {
        behind(self.result_slot()?, 1)
    }

    /// The first of the slots for values between calls.
    pub fn first_temporary(&self) -> Result<u32, NoMemory>
        ensures { IfOk result (λ n. n ≡ rules.first_temporary (lowering_of self.now)) }
    {
        behind(self.result_slot()?, 2)
    }

    // Where a variable begins: a reference's slot holds an address.
    fn variable_root(&self, number: u32) -> Result<Root, NoMemory>
        ensures { IfOk result (λ r. root_of r ≡ rules.variable_root (rules.variable_type (lowering_of self.now) number) (self.now.first_variable + number)) }
    {
        let slot = behind(self.first_variable, number as usize)?;
        match self.variables.get(number as usize) {
            Some(Variable::IntRef(_) | Variable::ObjectRef(_, _)) => Ok(Root::Through(slot)),
            _ => Ok(Root::Slot(slot)),
        }
    }

    // The place of what a name names by itself: a member is one of the own object.
    fn named_place(&self, bound: Bound) -> Result<Place, NoMemory>
        ensures { IfOk result (λ p. place_of p ≡ rules.named_place (lowering_of self.now) bound) }
    {
        match bound {
            Bound::Global(number) => Ok(Place {
                root: Root::Global(number),
                offset: 0,
            }),
            Bound::Local(number) => Ok(Place {
                root: self.variable_root(number)?,
                offset: 0,
            }),
            Bound::Field(class, member) => {
                Ok(through_place(0, member_offset(self.layout, class, member)))
            }
            _ => Ok(through_place(0, 0)),
        }
    }

    // The offset of what a name names after a dot; a base lies at the beginning of its object.
    fn offset_named(&self, bound: Bound) -> u32
        ensures { result ≡ offset_named (lowering_of self.now) bound }
    {
        match bound {
            Bound::Field(class, member) => member_offset(self.layout, class, member),
            _ => 0,
        }
    }

    /// The place of `a.b.c`; with no name at all, the own object.
    #[tactic(auto, using(crate::proofs::Offsets::one_named))]
    pub fn place_of(&self, names: &[Name]) -> Result<Place, NoMemory>
        ensures { IfOk result (λ p. place_of p ≡ rules.place_of (lowering_of self.now) names.now) }
    {
        let Some((first, more)) = names.split_first() else {
            return Ok(through_place(0, 0));
        };
        let at = self.named_place(first.bound)?;
        let mut offset = at.offset;
        for name in more {
            offset = offset
                .checked_add(self.offset_named(name.bound))
                .ok_or(NoMemory)?;
        }
        Ok(Place {
            root: at.root,
            offset,
        })
    }
}
