// The exception objects of the thread, and which of them are caught and uncaught.
ghost use Rattle.std.specs.Prelude.{◌≡◌, ℕ, true, false, Some, IfOk, IfSome};
ghost use Rattle.caught_stack.specs.Live.{header_of, live_count};
ghost use Rattle.caught_stack.specs.Caught.{is_small, is_in_front, is_caught, handler_count};
ghost use Rattle.caught_stack.specs.Exceptions.{no_exceptions};
ghost use Rattle.caught_stack.specs.Allocate.{Allocates, freed, with_header};
ghost use Rattle.caught_stack.specs.Begin.{begun};
ghost use Rattle.caught_stack.specs.End.{ended};
ghost use Rattle.caught_stack.specs.Rethrow.{rethrown};
ghost use Rattle.cxa_runtime.specs.Owed.{IsOwed, is_built_as};
ghost use Rattle.cxa_runtime.specs.Objects.{object_in, object_at, object_where, is_building, is_native, is_thrown, slot_for};
ghost use Rattle.cxa_runtime.specs.MayBegin.{may_begin, holds_other};
ghost use Rattle.cxa_runtime.specs.Leaving.{newest_object, left_by, building_again};
ghost use Rattle.cxa_runtime.specs.Flying.{aimed, one_uncaught};

use crate::NoMemory;
use crate::object::{Object, is_building, is_native, slot_of};
use caught_stack::{CaughtStack, Ended, Header, HeaderKind};
use std::alloc::Global;
use std::marker::Model;

/// The caught stack of the thread (`__cxa_eh_globals`) with its exception objects.
#[derive(Drop)]
pub struct Globals {
    stack: CaughtStack,
}

impl Model for Globals {
    ghost use Rattle.caught_stack.specs.Exceptions.{Exceptions};
    ghost use Rattle.cxa_runtime.specs.Owed.{IsOwed};

    ghost Value = { Exceptions };

    ghost view = { λ g. g.stack };

    ghost invariant = { λ g. IsOwed g.stack };
}

// A header that counts as building again.
fn building_again(header: Header) -> Header
    ensures { result ≡ building_again header }
{
    Header {
        kind: HeaderKind::Building,
        ..header
    }
}

impl Globals {
    /// No exception yet.
    pub fn new(alloc: Global) -> Result<Globals, NoMemory>
        ensures { IfOk result (λ g. g ≡ no_exceptions) }
    {
        Ok(Globals {
            stack: CaughtStack::new(alloc)?,
        })
    }

    /// How many exceptions are live.
    pub fn live(&self) -> u32
        ensures { result ≡ live_count self.now.live }
    {
        self.stack.live()
    }

    /// How many exceptions are uncaught.
    pub fn uncaught(&self) -> u32
        ensures { result ≡ self.now.uncaught }
    {
        self.stack.uncaught()
    }

    /// The live object of a slot.
    pub fn object_in(&self, slot: u32) -> Option<Object>
        ensures { result ≡ object_in self.now.live slot }
    {
        let header = self.stack.header(slot)?;
        Some(Object { slot, header })
    }

    // The live object at an address.
    fn object_at(&self, address: u64) -> Option<Object>
        ensures { result ≡ object_at self.now.live address }
    {
        self.object_in(slot_of(address)?)
    }

    /// The object at an address that is building.
    pub fn building_at(&self, address: u64) -> Option<Object>
        ensures { result ≡ object_where is_building self.now.live address }
    {
        let object = self.object_at(address)?;
        if is_building(object.header.kind) {
            Some(object)
        } else {
            None
        }
    }

    /// The object at an address that was thrown or raised.
    pub fn thrown_at(&self, address: u64) -> Option<Object>
        ensures { result ≡ object_where is_thrown self.now.live address }
    {
        let object = self.object_at(address)?;
        if is_building(object.header.kind) {
            None
        } else {
            Some(object)
        }
    }

    /// The object at an address that was thrown by compiled code.
    pub fn native_at(&self, address: u64) -> Option<Object>
        ensures { result ≡ object_where is_native self.now.live address }
    {
        let object = self.object_at(address)?;
        if is_native(object.header.kind) {
            Some(object)
        } else {
            None
        }
    }

    /// The most recent object that is caught.
    pub fn newest(&self) -> Option<Object>
        ensures { result ≡ newest_object self.now }
    {
        self.object_in(self.stack.top()?)
    }
}

impl Globals {
    /// Whether a handler may enter the exception of a slot.
    pub fn may_begin(&self, slot: u32) -> bool
        ensures { result ≡ may_begin self.now slot }
    {
        self.stack.uncaught() > 0 && self.is_small(slot) && self.is_in_front(slot)
    }

    // Whether the handlerCount of a slot can take one more.
    fn is_small(&self, slot: u32) -> bool
        ensures { result ≡ is_small (handler_count self.now.caught slot) }
    {
        let count = self.stack.count(slot);
        count > -0x4000_0000_0000_0000 && count < 0x4000_0000_0000_0000
    }

    // Whether the exception of a slot is the most recent that is caught, or not caught.
    fn is_in_front(&self, slot: u32) -> bool
        ensures { result ≡ is_in_front self.now.caught slot }
    {
        self.stack.top() == Some(slot) || self.stack.count(slot) == 0
    }

    /// Whether another exception is caught than that of a slot.
    pub fn holds_other(&self, slot: u32) -> bool
        ensures { result ≡ holds_other self.now.caught slot }
    {
        if self.stack.top() == Some(slot) {
            self.stack.depth() > 1
        } else {
            self.stack.depth() > 0
        }
    }

    /// Makes an object that is building.
    pub fn make(&mut self, header: Header) -> Option<u32>
        requires { is_building header.kind ≡ true }
        ensures wished { (wish : ℕ) × (slot_for self.old.live wish ≡ result) }
        ensures gives { Allocates header self.old self.new result }
    {
        let _newest = self.stack.top();
        self.stack.allocate(header)
    }

    /// Makes the object of an exception that a module raises.
    pub fn receive(&mut self, header: Header) -> Option<u32>
        requires { is_built_as header.kind ≡ true }
        ensures wished { (wish : ℕ) × (slot_for self.old.live wish ≡ result) }
        ensures gives { Allocates header self.old self.new result }
        ensures ready { IfSome result (λ slot. IsOwed (one_uncaught self.new)) }
        ensures live { IfSome result (λ slot. header_of self.new.live slot ≡ Some header) }
    {
        let _newest = self.stack.top();
        self.stack.allocate(header)
    }

    /// Gives back an object that is building.
    pub fn free(&mut self, object: &Object)
        requires live { header_of self.old.live object.now.slot ≡ Some object.now.header }
        requires building { is_building object.now.header.kind ≡ true }
        ensures { self.new ≡ freed object.now.slot self.old }
    {
        self.stack.free(object.slot);
    }

    /// Throws an object that is building, with another header.
    pub fn throw(&mut self, object: &Object, header: Header)
        requires live { header_of self.old.live object.now.slot ≡ Some object.now.header }
        requires building { is_building object.now.header.kind ≡ true }
        requires thrown { is_built_as header.kind ≡ true }
        ensures thrown { self.new ≡ one_uncaught (with_header object.now.slot header self.old) }
        ensures not_caught { is_caught self.new.caught object.now.slot ≡ false }
        ensures live { header_of self.new.live object.now.slot ≡ Some header }
    {
        let _newest = self.stack.top();
        self.stack.raised();
        self.stack.set_header(object.slot, header);
    }

    /// Counts an exception that is raised.
    pub fn raised(&mut self)
        requires { IsOwed (one_uncaught self.old) }
        ensures { self.new ≡ one_uncaught self.old }
    {
        let _newest = self.stack.top();
        self.stack.raised();
    }

    /// Keeps the target of a raise with its exception.
    pub fn aim(&mut self, object: &Object, cfa: u64, lsda: u64)
        requires live { header_of self.old.live object.now.slot ≡ Some object.now.header }
        requires thrown { is_built_as object.now.header.kind ≡ true }
        ensures { self.new ≡ with_header object.now.slot (aimed cfa lsda object.now.header) self.old }
    {
        let header = Header {
            target: cfa,
            lsda,
            ..object.header
        };
        self.stack.set_header(object.slot, header);
    }

    /// Enters an exception.
    pub fn begin(&mut self, object: &Object)
        requires live { header_of self.old.live object.now.slot ≡ Some object.now.header }
        requires thrown { is_built_as object.now.header.kind ≡ true }
        requires may { may_begin self.old object.now.slot ≡ true }
        ensures { self.new ≡ begun object.now.slot self.old }
    {
        self.stack.begin(object.slot);
    }

    /// The slot of the most recent exception that is caught, where it is not on its way already.
    pub fn rethrowable(&self) -> Option<u32>
        ensures { result ≡ (rethrown self.now).0 }
    {
        let slot = self.stack.top()?;
        if self.stack.count(slot) > 0 {
            Some(slot)
        } else {
            None
        }
    }

    /// Throws the most recent exception that is caught again.
    pub fn rethrow(&mut self) -> Option<u32>
        ensures { (result, self.new) ≡ rethrown self.old }
    {
        self.stack.rethrow()
    }

    /// Leaves the newest handler of an exception.
    pub fn leave(&mut self, object: &Object) -> Option<Ended>
        requires { newest_object self.old ≡ Some object.now }
        ensures { (result, self.new) ≡ left_by object.now (ended self.old) }
    {
        let _newest = self.stack.top();
        let left = self.stack.end()?;
        if let Ended::Last(_) = left {
            match object.header.kind {
                HeaderKind::Building => {}
                HeaderKind::Native(_, _) => self
                    .stack
                    .set_header(object.slot, building_again(object.header)),
                HeaderKind::Foreign(_, _) => self.stack.free(object.slot),
            }
        }
        Some(left)
    }
}
