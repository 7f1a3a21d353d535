// One hart, and the turns that it gets.
ghost use Rattle.std.specs.Prelude.{◌≡◌, ◌≤◌, ◌<◌, ◌+◌, ◌^◌, map, is_some, None};
ghost use Rattle.run_items.specs.Output.{PutsAll};
ghost use Rattle.cxa_runtime.specs.NextCall.{next_call};
ghost use Rattle.hart_sched.specs.Hart.{has_to_wait, is_allocation, live_of};
ghost use Rattle.hart_sched.specs.Seats.{Stepped, hart_of, pieces_told, told_then};
ghost use Rattle.hart_sched.specs.Turns.{HasTurns, Remains};

use crate::told::put_told;
use cxa_runtime::{End, Runtime, Turn};
use eh_outer::{Once, Sink, SinkError};
use foreign_host::Host;

// How many exception objects may be live over all harts.
const SLOTS: u64 = 1024;

// The number of the runtime call that makes one.
const ALLOCATE: u64 = 3;

/// A hart, how it ended, if it did, and how often it waited.
#[derive(Drop)]
pub struct Seat {
    pub runtime: Runtime,
    pub input: Vec<u8>,
    pub end: Option<End>,
    pub waits: u64,
}

impl Seat {
    /// How many exception objects the hart has.
    pub(crate) fn live(&self) -> u64
        ensures live { result ≡ live_of (hart_of self.now) }
        ensures few { result < 2 ^ 32 }
    {
        u64::from(self.runtime.live())
    }

    // Whether the hart has ended.
    fn has_ended(&self) -> bool
        ensures { result ≡ is_some self.now.end }
    {
        self.end.is_some()
    }

    // Whether the hart has to wait where others have so many objects.
    fn has_to_wait(&self, others: u64) -> bool
        requires { others ≤ 2 ^ 40 }
        ensures { result ≡ has_to_wait (others + live_of (hart_of self.now)) (hart_of self.now).world }
    {
        let own = self.live();
        others + own >= SLOTS && own < SLOTS && self.is_about_to_allocate()
    }

    // Whether the hart's next instruction makes an exception object.
    fn is_about_to_allocate(&self) -> bool
        ensures { result ≡ is_allocation (next_call self.now.runtime.hart) }
    {
        match self.runtime.next_call() {
            Some(number) => number == ALLOCATE,
            None => false,
        }
    }

    // Takes a step, which may end the hart.
    fn step(&mut self, host: &mut Host<Once>)
        requires turns { self.old.runtime.turns < 2 ^ 40 }
        requires goes_on { self.old.end ≡ None }
        ensures { Stepped self.old self.new (map (λ m. m.seen) host.old.modules.items) (map (λ m. m.seen) host.new.modules.items) }
    {
        match self.runtime.take_step(self.input.as_slice(), host) {
            Turn::On => {}
            Turn::Ended(end) => self.end = Some(end),
        }
    }

    // Puts what is told of the last step.
    fn tell<S: Sink>(&self, number: u32, trace: bool, sink: &mut S) -> Result<(), SinkError>
        ensures { PutsAll (pieces_told trace (told_then number self.now.runtime.shown self.now.end)) (S.view sink.old) (S.view sink.new) result }
    {
        put_told(sink, number, trace, self.runtime.items(), self.end)
    }

    /// Gives the hart so many turns, where others have so many objects. A hart that has ended, or that
    /// waits, is no further on behind the rest of them.
    pub(crate) fn take_turns<S: Sink>(
        &mut self,
        number: u32,
        turns: u32,
        others: u64,
        host: &mut Host<Once>,
        trace: bool,
        sink: &mut S,
    ) -> Result<(), SinkError>
        requires others { others ≤ 2 ^ 40 }
        requires turns { self.old.runtime.turns + turns ≤ 2 ^ 40 }
        requires waits { self.old.waits + turns ≤ 2 ^ 40 }
        ensures turns { HasTurns number turns trace others self.old self.new (map (λ m. m.seen) host.old.modules.items) (map (λ m. m.seen) host.new.modules.items) (S.view sink.old) (S.view sink.new) result }
        ensures remains { Remains turns self.old self.new }
    {
        for taken in 0..turns {
            if self.has_ended() {
                return Ok(());
            }
            if self.has_to_wait(others) {
                self.waits += u64::from(turns - taken);
                return Ok(());
            }
            self.step(host);
            match self.tell(number, trace, sink) {
                Err(e) => return Err(e),
                Ok(()) => {}
            }
        }
        Ok(())
    }
}
