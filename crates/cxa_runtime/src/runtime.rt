// The runtime's state.
ghost use Rattle.std.specs.Prelude.{◌≡◌, ◌<◌, ◌++◌, [], ◌∷◌, length, IfOk};
ghost use Rattle.cxa_runtime.specs.Lasting.{AreLasting};
ghost use Rattle.cxa_runtime.specs.Kept.{at_first};

use crate::NoMemory;
use crate::globals::Globals;
use crate::shown::Shown;
use crate::unwinder::Unwinder;
use eh_bytes::RuntimeRecord;
use frame_read::Frames;
use run_items::Item;
use rv64_machine::Machine;
use std::alloc::Global;
use std::marker::Model;

/// A machine with the runtime of C++ exceptions: what `__cxa_eh_globals` holds, and what is behind it.
#[derive(Drop)]
pub struct Runtime {
    pub(crate) unwinder: Unwinder,
    pub(crate) places: RuntimeRecord,
    pub(crate) globals: Globals,
    pub(crate) terminate_handler: u64,
    pub(crate) unexpected_handler: u64,
    // The last number that was given to an exception.
    pub(crate) last_number: u64,
    // The exit number of the forced unwind that is on.
    pub(crate) unwinding: Option<i32>,
    // How many bytes of the input are read.
    pub(crate) read: usize,
    pub(crate) shown: Shown,
    // How many steps were counted, and how many turns were begun.
    pub(crate) count: u64,
    pub(crate) turns: u64,
    pub(crate) terminating: bool,
}

impl Model for Runtime {
    ghost use Rattle.cxa_runtime.specs.Kept.{Kept, IsKept};

    ghost Value = { Kept };

    ghost view = { λ r. record {
      hart = r.unwinder.hart;
      frames = r.unwinder.frames;
      places = r.places;
      exceptions = r.globals;
      terminate_handler = r.terminate_handler;
      unexpected_handler = r.unexpected_handler;
      last_number = r.last_number;
      unwinding = r.unwinding;
      read = r.read;
      shown = r.shown;
      count = r.count;
      turns = r.turns;
      terminating = r.terminating;
    } };

    ghost invariant = { λ r. IsKept r.globals r.last_number r.count r.turns };
}

impl Runtime {
    /// The runtime of an image whose segments the machine has, with the frames that were read of them and the places that it records.
    pub fn new(
        alloc: Global,
        machine: Machine,
        frames: Frames,
        places: RuntimeRecord,
    ) -> Result<Runtime, NoMemory>
        requires { AreLasting machine frames }
        ensures { IfOk result (λ runtime. runtime ≡ at_first machine frames places) }
    {
        Ok(Runtime {
            unwinder: Unwinder::new(machine, frames),
            places,
            globals: Globals::new(alloc)?,
            terminate_handler: 0,
            unexpected_handler: 0,
            last_number: 0,
            unwinding: None,
            read: 0,
            shown: Shown::new(),
            count: 0,
            turns: 0,
            terminating: false,
        })
    }

    /// Shows an item.
    pub(crate) fn show(&mut self, item: Item)
        requires { length self.old.shown < 2 }
        ensures { self.new ≡ record self.old { shown = self.old.shown ++ item ∷ [] } }
    {
        self.shown.push(item);
    }
}
