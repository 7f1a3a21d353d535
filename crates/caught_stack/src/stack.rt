// The headers and the stack of the exceptions that are caught.
ghost use Rattle.std.specs.Prelude.{◌≡◌, ◌↔◌, ◌<◌, ◌+◌, ◌-◌, ◌||◌, not, Some, IsTrue, IsNone, IfOk, length, slice_set};
ghost use Rattle.caught_stack.specs.Live.{slots, all_vacant, header_of, is_live, live_count};
ghost use Rattle.caught_stack.specs.Caught.{handler_count, is_caught, is_counted, is_in_front, is_small, newest};
ghost use Rattle.caught_stack.specs.Exceptions.{IsSound, no_exceptions};
ghost use Rattle.caught_stack.specs.Allocate.{Allocates, freed, with_header};
ghost use Rattle.caught_stack.specs.Begin.{begun};
ghost use Rattle.caught_stack.specs.End.{ended};
ghost use Rattle.caught_stack.specs.Rethrow.{rethrown};

use crate::nodes::HeaderNodes;
use crate::slots::{SLOTS, SlotStack};
use crate::{Ended, Header, NoMemory};
use std::alloc::Global;
use std::marker::Model;

/// The exceptions of a thread: 1,024 slots for headers, the stack of those that are caught, and how many are uncaught.
///
/// After `new` no call takes memory, and each takes the same time however many exceptions are live or caught.
#[derive(Drop)]
pub struct CaughtStack {
    nodes: HeaderNodes,
    vacant: SlotStack,
    uncaught: u32,
}

impl Model for CaughtStack {
    ghost use Rattle.caught_stack.specs.Exceptions.{Exceptions};
    ghost use Rattle.caught_stack.specs.Kept.{IsKept, exceptions_of};

    ghost Value = { Exceptions };

    ghost view = { λ a. exceptions_of a.nodes.live a.nodes.counts a.nodes.caught a.uncaught };

    ghost invariant = { λ a. IsKept a.nodes.live a.nodes.counts a.nodes.caught a.vacant a.uncaught };
}

impl CaughtStack {
    /// No exception yet.
    pub fn new(alloc: Global) -> Result<CaughtStack, NoMemory>
        ensures { IfOk result (λ stack. stack ≡ no_exceptions) }
    {
        Ok(CaughtStack {
            nodes: HeaderNodes::new(alloc)?,
            vacant: SlotStack::full(alloc)?,
            uncaught: 0,
        })
    }

    /// Puts a header into a slot that is vacant, and gives the slot, a number below 1,024. Which one it is is left open.
    pub fn allocate(&mut self, header: Header) -> Option<u32>
        ensures full { IsNone result ↔ (live_count self.old.live ≡ slots) }
        ensures gives { Allocates header self.old self.new result }
    {
        let slot = self.vacant.pop()?;
        self.nodes.insert(slot, header);
        Some(slot)
    }

    /// Makes the slot vacant.
    pub fn free(&mut self, slot: u32)
        requires live { IsTrue (is_live self.old.live slot) }
        requires not_caught { IsTrue (not (is_caught self.old.caught slot)) }
        ensures { self.new ≡ freed slot self.old }
    {
        self.nodes.remove(slot);
        self.vacant.push(slot);
    }

    /// The header of a live exception; none where the slot is not live.
    pub fn header(&self, slot: u32) -> Option<Header>
        ensures { result ≡ header_of self.now.live slot }
    {
        self.nodes.header(slot)
    }

    /// Puts another header in the place of the slot's.
    pub fn set_header(&mut self, slot: u32, header: Header)
        requires { IsTrue (is_live self.old.live slot) }
        ensures { self.new ≡ with_header slot header self.old }
    {
        self.nodes.set_header(slot, header);
    }

    /// Enters a handler for the exception, which is live, and the most recent that is caught or not caught.
    pub fn begin(&mut self, slot: u32)
        requires live { IsTrue (is_live self.old.live slot) }
        requires uncaught { 0 < self.old.uncaught }
        requires small { IsTrue (is_small (handler_count self.old.caught slot)) }
        requires in_front { IsTrue (is_in_front self.old.caught slot) }
        ensures { self.new ≡ begun slot self.old }
    {
        self.nodes.bring(slot);
        self.nodes.enter(slot);
        self.uncaught -= 1;
    }

    /// Leaves the newest handler; none where nothing is caught.
    pub fn end(&mut self) -> Option<Ended>
        ensures { (result, self.new) ≡ ended self.old }
    {
        let slot = self.nodes.top()?;
        let ended = self.nodes.leave(slot);
        if self.nodes.is_zero(slot) {
            self.nodes.unlink();
        }
        Some(ended)
    }

    /// Throws the most recent exception that is caught again; none where nothing is caught, or where it is on its way already.
    pub fn rethrow(&mut self) -> Option<u32>
        ensures { (result, self.new) ≡ rethrown self.old }
    {
        let newest = self.nodes.top()?;
        if self.nodes.negate(newest) {
            self.uncaught += 1;
            Some(newest)
        } else {
            None
        }
    }

    /// Counts an exception that is thrown or raised.
    pub fn raised(&mut self)
        requires { self.old.uncaught < 2048 }
        ensures { self.new ≡ record self.old { uncaught = self.old.uncaught + 1 } }
    {
        self.uncaught += 1;
    }

    /// The slot of the most recent exception that is caught; none where nothing is caught.
    pub fn top(&self) -> Option<u32>
        ensures value { result ≡ newest self.now.caught }
        ensures sound { IsSound self.now }
    {
        self.nodes.top()
    }

    /// How many exceptions are caught, each counted once.
    pub fn depth(&self) -> usize
        ensures { result ≡ length self.now.caught }
    {
        self.nodes.depth()
    }

    /// The handlerCount of an exception, negative where it is thrown again, and 0 where it is not caught.
    pub fn count(&self, slot: u32) -> i64
        ensures value { result ≡ handler_count self.now.caught slot }
        ensures caught { is_caught self.now.caught slot ≡ is_counted result }
    {
        self.nodes.count(slot)
    }

    /// How many exceptions are live.
    pub fn live(&self) -> u32
        ensures { result ≡ live_count self.now.live }
    {
        (SLOTS - self.vacant.len()) as u32
    }

    /// How many exceptions are uncaught.
    pub fn uncaught(&self) -> u32
        ensures { result ≡ self.now.uncaught }
    {
        self.uncaught
    }
}
