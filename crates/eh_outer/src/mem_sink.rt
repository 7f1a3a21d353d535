// A sink in memory, which fails at the puts that it is told and where it is full.
ghost use Rattle.std.specs.Prelude.{◌≡◌, [], IfOk};
ghost use Rattle.eh_outer.specs.Sink.{Puts};
ghost use Rattle.eh_outer.specs.MemSink.{MemPuts, sink_of};

use crate::schedule::Schedule;
use crate::{NoMemory, Sink, SinkError};
use std::alloc::Global;
use std::marker::Model;

/// Bytes in memory, up to a number that is reserved.
#[derive(Drop)]
pub struct MemSink {
    bytes: Vec<u8>,
    room: usize,
    schedule: Schedule,
    faults: u64,
    wanted: u64,
}

impl Model for MemSink {
    ghost use Rattle.std.specs.Prelude.{◌≤◌, vec_len, vec_capacity};
    ghost use Rattle.eh_outer.specs.MemSink.{MemSinkView};

    ghost Value = { MemSinkView };

    ghost view = { λ a. record {
      bytes = a.bytes.items;
      room = a.room;
      fails = a.schedule.fails.items;
      calls = a.schedule.calls;
      faults = a.faults;
      wanted = a.wanted;
    } };

    ghost invariant = { λ a. (vec_len a.bytes ≤ a.room) × (a.room ≤ vec_capacity a.bytes) };
}

impl MemSink {
    /// An empty sink. A put fails where its number, counted from 1, stands in `fails`, or it goes beyond `room` bytes.
    pub fn new(alloc: Global, room: usize, fails: Vec<u64>) -> Result<MemSink, NoMemory>
        ensures { IfOk result (λ sink. sink ≡ record { bytes = []; room = room; fails = fails.items; calls = 0; faults = 0; wanted = 0 }) }
    {
        Ok(MemSink {
            bytes: Vec::with_capacity(alloc, room)?,
            room,
            schedule: Schedule::new(fails),
            faults: 0,
            wanted: 0,
        })
    }

    /// The bytes that it took.
    pub fn bytes(&self) -> &[u8]
        ensures { result.now ≡ self.now.bytes }
    {
        self.bytes.as_slice()
    }
}

impl Sink for MemSink {
    ghost view = { sink_of };

    fn put(&mut self, piece: &[u8]) -> Result<(), SinkError>
        ensures answer { Puts piece.now (sink_of self.old) (sink_of self.new) result }
        ensures exact { MemPuts piece.now self.old self.new result }
    {
        let fails = self.schedule.next_fails();
        if fails || piece.len() > self.room - self.bytes.len() {
            self.faults = self.faults.saturating_add(1);
            self.wanted = piece.len() as u64;
            return Err(SinkError::Failed);
        }
        match self.bytes.extend_from_slice(piece) {
            Ok(()) => Ok(()),
            Err(_) => unreachable!(),
        }
    }
}
