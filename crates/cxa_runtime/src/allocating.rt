// Exception objects that are made and given back.
ghost use Rattle.std.specs.Prelude.{◌≡◌, ◌≤◌, ◌<◌, ◌+◌, ℕ, Some, true, IfSome};
ghost use Rattle.caught_stack.specs.Live.{header_of};
ghost use Rattle.cxa_runtime.specs.Owed.{IsOwed, is_built_as};
ghost use Rattle.cxa_runtime.specs.Flying.{one_uncaught};
ghost use Rattle.cxa_runtime.specs.Objects.{is_building, slot_for};
ghost use Rattle.cxa_runtime.specs.Kept.{IsFresh, Makes, Stays, after_allocating};
ghost use Rattle.cxa_runtime.specs.Allocate.{allocate, free, new_header};

use crate::effect::{Effect, REFUSED};
use crate::object::object_of;
use crate::registers::A0;
use crate::runtime::Runtime;
use caught_stack::{Header, HeaderKind};
use run_items::Item;

/// The header of a new object, with no handlers and no target yet.
pub fn new_header(number: u64, kind: HeaderKind) -> Header
    ensures { result ≡ new_header number kind }
{
    Header {
        number,
        kind,
        handlers: (0, 0),
        target: 0,
        lsda: 0,
    }
}

impl Runtime {
    // Makes an object that is building, where a slot is vacant.
    fn make(&mut self, header: Header) -> Option<u32>
        requires building { is_building header.kind ≡ true }
        requires number { header.number ≤ self.old.turns }
        ensures wished { (wish : ℕ) × (slot_for self.old.exceptions.live wish ≡ result) }
        ensures made { self.new ≡ after_allocating result header self.old }
    {
        let slot = self.globals.make(header)?;
        self.last_number = header.number;
        Some(slot)
    }

    /// Makes the object of an exception that a module raises, where a slot is vacant.
    pub(crate) fn receive(&mut self, header: Header) -> Option<u32>
        requires thrown { is_built_as header.kind ≡ true }
        requires number { header.number ≤ self.old.turns }
        ensures wished { (wish : ℕ) × (slot_for self.old.exceptions.live wish ≡ result) }
        ensures made { self.new ≡ after_allocating result header self.old }
        ensures ready { IfSome result (λ slot. IsOwed (one_uncaught self.new.exceptions)) }
        ensures live { IfSome result (λ slot. header_of self.new.exceptions.live slot ≡ Some header) }
    {
        let slot = self.globals.receive(header)?;
        self.last_number = header.number;
        Some(slot)
    }

    /// The number of the next exception.
    pub(crate) fn next_number(&self) -> u64
        requires { self.now.last_number < self.now.turns }
        ensures { result ≡ self.now.last_number + 1 }
    {
        self.last_number + 1
    }

    /// Makes an exception object.
    pub(crate) fn allocate(&mut self) -> Effect
        requires { IsFresh self.old }
        ensures made { (wish : ℕ) × Makes (allocate self.old.places wish) self.old self.new result }
        ensures stays { Stays self.old self.new }
    {
        let number = self.next_number();
        match self.make(new_header(number, HeaderKind::Building)) {
            None => self.terminate_now(),
            Some(slot) => {
                self.show(Item::Make(number));
                self.give(A0, object_of(slot));
                Effect::Goes
            }
        }
    }

    /// Gives back an exception object that is building.
    pub(crate) fn free(&mut self) -> Effect
        requires { IsFresh self.old }
        ensures made { Makes free self.old self.new result }
        ensures stays { Stays self.old self.new }
    {
        let address = self.argument(A0);
        match self.globals.building_at(address) {
            None => REFUSED,
            Some(object) => {
                self.shown.push(Item::Free(object.header.number));
                self.globals.free(&object);
                Effect::Goes
            }
        }
    }
}
