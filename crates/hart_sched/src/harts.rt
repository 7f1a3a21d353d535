// Several harts under a schedule.
ghost use Rattle.std.specs.Prelude.{◌≡◌, ◌≤◌, [], map, length, slice_get, option_map, IfOk};
ghost use Rattle.run_items.specs.Output.{PutsAll};
ghost use Rattle.hart_sched.specs.Harts.{known};
ghost use Rattle.hart_sched.specs.Schedule.{IsSchedule};
ghost use Rattle.hart_sched.specs.Seats.{harts_of};
ghost use Rattle.hart_sched.specs.Turns.{AreFresh, HasSlices};
ghost use Rattle.hart_sched.specs.Whole.{RunsAll, known_of, seat_of};
ghost use Rattle.hart_sched.specs.Text.{budget_of, budgets_from, piece_of};

use crate::hart::{Hart, HartRan};
use crate::seat::Seat;
use crate::told::put_end_line;
use cxa_runtime::{End, NoMemory};
use eh_outer::{Once, Sink, SinkError};
use foreign_host::Host;
use std::alloc::Global;
use std::marker::Model;

/// Harts of one image, which share the limit of exception objects.
#[derive(Drop)]
pub struct Harts {
    seats: Vec<Seat>,
    alloc: Global,
}

impl Model for Harts {
    ghost use Rattle.std.specs.Prelude.{◌≤◌, List, length};
    ghost use Rattle.hart_sched.specs.declared.seat.Seat.{Seat};

    ghost Value = { List Seat };

    ghost view = { λ h. h.seats.items };

    ghost invariant = { λ h. length h.seats.items ≤ 8 };
}

// Gives the harts the turns of a schedule.
fn run_slices<S: Sink>(
    seats: &mut Vec<Seat>,
    schedule: &[(u32, u32)],
    host: &mut Host<Once>,
    trace: bool,
    sink: &mut S,
) -> Result<(), SinkError>
    requires few { length seats.old.items ≤ 8 }
    requires fits { IsSchedule (length seats.old.items) schedule.now }
    requires fresh { AreFresh seats.old.items }
    ensures slices { HasSlices schedule.now trace seats.old.items seats.new.items (map (λ m. m.seen) host.old.modules.items) (map (λ m. m.seen) host.new.modules.items) (S.view sink.old) (S.view sink.new) result }
    ensures size { length seats.new.items ≡ length seats.old.items }
{
    let mut live = 0;
    let mut rest = schedule;
    while let Some((slice, others)) = rest.split_first() {
        let (number, turns) = *slice;
        let seat = &mut seats[number as usize];
        let elsewhere = live - seat.live();
        match seat.take_turns(number, turns, elsewhere, host, trace, sink) {
            Err(e) => return Err(e),
            Ok(()) => live = elsewhere + seat.live(),
        }
        rest = others;
    }
    Ok(())
}

// Puts a line for each hart that goes on.
fn put_budgets<S: Sink>(seats: &[Seat], sink: &mut S) -> Result<(), SinkError>
    requires { length seats.now ≤ 8 }
    ensures { PutsAll (map piece_of (budgets_from 0 (harts_of seats.now))) (S.view sink.old) (S.view sink.new) result }
{
    let mut number = 0;
    let mut rest = seats;
    while let Some((seat, others)) = rest.split_first() {
        match put_budget(seat, number, sink) {
            Err(e) => return Err(e),
            Ok(()) => {}
        }
        number += 1;
        rest = others;
    }
    Ok(())
}

// Puts the line of a hart, if it goes on.
fn put_budget<S: Sink>(seat: &Seat, number: u32, sink: &mut S) -> Result<(), SinkError>
    ensures { PutsAll (map piece_of (budget_of number seat.now.end)) (S.view sink.old) (S.view sink.new) result }
{
    match seat.end {
        Some(_) => Ok(()),
        None => put_end_line(sink, number, End::Budget),
    }
}

impl Harts {
    /// Up to eight harts at their start.
    pub fn new(alloc: Global, harts: Vec<Hart>) -> Result<Harts, NoMemory>
        requires { length harts.items ≤ 8 }
        ensures { IfOk result (λ all. all ≡ map seat_of harts.items) }
    {
        let mut seats = Vec::with_capacity(alloc, harts.len())?;
        for hart in harts {
            let Hart { runtime, input } = hart;
            seats.push(Seat {
                runtime,
                input,
                end: None,
                waits: 0,
            })?;
        }
        Ok(Harts { seats, alloc })
    }

    /// Runs the harts under the schedule, and puts each line as it comes, behind the hart's number: an
    /// int, under `trace` an event, and an end; and last the lines of the harts that go on.
    ///
    /// Each hart number of the schedule is below the number of harts, and the turns add up to at most
    /// 2^40. No hart has done anything yet. Fails exactly where the sink fails. Takes no memory.
    pub fn run<S: Sink>(
        &mut self,
        schedule: &Vec<(u32, u32)>,
        trace: bool,
        sink: &mut S,
    ) -> Result<(), SinkError>
        requires fits { IsSchedule (length self.old) schedule.now.items }
        requires fresh { AreFresh self.old }
        ensures { RunsAll schedule.now.items trace self.old self.new (S.view sink.old) (S.view sink.new) result }
    {
        let mut host = Host::new(Vec::new(self.alloc));
        let ran = run_slices(&mut self.seats, schedule.as_slice(), &mut host, trace, sink);
        host.close();
        match ran {
            Err(e) => Err(e),
            Ok(()) => put_budgets(self.seats.as_slice(), sink),
        }
    }

    /// What is known of a hart; `None` where there is none of that number.
    pub fn ran(&self, number: u32) -> Option<HartRan>
        ensures { option_map known_of result ≡ option_map known (slice_get (harts_of self.now) number) }
    {
        match self.seats.get(number as usize) {
            Some(seat) => Some(HartRan {
                end: seat.end,
                count: seat.runtime.count(),
                waits: seat.waits,
            }),
            None => None,
        }
    }
}
