// The machine, and the frames of the image that it runs.
ghost use Rattle.std.specs.Prelude.{◌≡◌, ◌<◌, ◌+◌, Contains, IfSome, find};
ghost use Rattle.personality.specs.Seen.{thrown_of};
ghost use Rattle.raise_core.specs.Raise as forms;
ghost use Rattle.raise_core.specs.Reads.{AreTables};
ghost use Rattle.rv64_isa.specs.State.{with_reg};
ghost use Rattle.rv64_isa.specs.Step.{step_of};
ghost use Rattle.cxa_runtime.specs.Lasting.{AreLasting, StaysUnlessEntered};
ghost use Rattle.frame_walk.specs.Outward.{tables_of};
ghost use Rattle.lsda_read.specs.Names.{lists_named};
ghost use Rattle.cxa_runtime.specs.Frozen.{frozen};
ghost use Rattle.cxa_runtime.specs.Unexpected.{has_list, readings};

use crate::readings::reading_with;
use frame_read::Frames;
use lsda_read::Lsda;
use personality::Thrown;
use raise_core::{Raised, forced, raise, resume};
use rv64_isa::Step;
use rv64_machine::Machine;
use std::marker::Model;

/// A machine, and the frames of its image, which no step of it changes.
#[derive(Drop)]
pub struct Unwinder {
    machine: Machine,
    frames: Frames,
}

impl Model for Unwinder {
    ghost use Rattle.cxa_runtime.specs.Lasting.{AreLasting, Walked};

    ghost Value = { Walked };

    ghost view = { λ u. record { hart = u.machine; frames = u.frames } };

    ghost invariant = { λ u. AreLasting u.machine u.frames };
}

impl Unwinder {
    /// A machine over these frames.
    pub fn new(machine: Machine, frames: Frames) -> Unwinder
        requires { AreLasting machine frames }
        ensures { result ≡ record { hart = machine; frames = frames } }
    {
        Unwinder { machine, frames }
    }

    /// The machine.
    pub fn machine(&self) -> &Machine
        ensures { result.now ≡ self.now.hart }
    {
        &self.machine
    }

    /// Executes an instruction.
    pub fn step(&mut self) -> Step
        ensures step { (result, self.new.hart) ≡ step_of self.old.hart }
        ensures frames { self.new.frames ≡ self.old.frames }
        ensures frozen { frozen self.new.hart.memory ≡ frozen self.old.hart.memory }
    {
        self.machine.step()
    }

    /// Sets a register.
    pub fn set_reg(&mut self, n: u8, value: u64)
        requires { n < 32 }
        ensures { self.new ≡ record self.old { hart = record self.old.hart { regs = with_reg self.old.hart.regs n value } } }
    {
        self.machine.set_reg(n, value);
    }

    /// Sets the pc.
    pub fn set_pc(&mut self, pc: u64)
        ensures { self.new ≡ record self.old { hart = record self.old.hart { pc = pc } } }
    {
        self.machine.set_pc(pc);
    }

    /// Raises an exception.
    pub fn raise(&mut self, thrown: &Thrown) -> Raised
        ensures raised { (t : AreTables self.old.hart self.old.frames) → (result, self.new.hart) ≡ forms.raise t.read.fdes (thrown_of thrown.now) self.old.hart }
        ensures frames { self.new.frames ≡ self.old.frames }
        ensures memory { self.new.hart.memory ≡ self.old.hart.memory }
        ensures stays { StaysUnlessEntered result self.old self.new }
    {
        raise(&mut self.machine, &self.frames, thrown)
    }

    /// Goes on with a raise, up to the frame with this canonical frame address.
    pub fn resume(&mut self, thrown: &Thrown, target: u64) -> Raised
        ensures raised { (t : AreTables self.old.hart self.old.frames) → (result, self.new.hart) ≡ forms.resume t.read.fdes (thrown_of thrown.now) target self.old.hart }
        ensures frames { self.new.frames ≡ self.old.frames }
        ensures memory { self.new.hart.memory ≡ self.old.hart.memory }
        ensures stays { StaysUnlessEntered result self.old self.new }
    {
        resume(&mut self.machine, &self.frames, thrown, target)
    }

    /// Goes on with a forced unwind.
    pub fn force(&mut self) -> Raised
        ensures raised { (t : AreTables self.old.hart self.old.frames) → (result, self.new.hart) ≡ forms.forced_unwind t.read.fdes self.old.hart }
        ensures frames { self.new.frames ≡ self.old.frames }
        ensures memory { self.new.hart.memory ≡ self.old.hart.memory }
        ensures stays { StaysUnlessEntered result self.old self.new }
    {
        forced(&mut self.machine, &self.frames)
    }

    /// The first reading of the exception table at an address that has the filter of a list, counted from 0.
    pub fn reading_with(&self, address: u64, list: u64) -> Option<Lsda<'_>>
        ensures reading { (t : AreTables self.now.hart self.now.frames) → result ≡ find (has_list list) (readings (tables_of self.now.hart) t.read.fdes address) }
        ensures named { IfSome result (λ table. Contains (lists_named table) (list + 1)) }
    {
        reading_with(&self.machine, &self.frames, address, list)
    }
}
