// One turn: an instruction or a runtime call.
ghost use Rattle.std.specs.Prelude.{◌≡◌, ◌<◌, ◌+◌, ◌^◌, ℕ, List, [], ◌∷◌, map};
ghost use Rattle.eh_outer.specs.declared.module.Reply.{Reply};
ghost use Rattle.rv64_isa.specs.Step.{step_of};
ghost use Rattle.run_items.specs.Line.{lines_of};
ghost use Rattle.run_items.specs.Output.{PutsAll};
ghost use Rattle.cxa_runtime.specs.Items.{items_of};
ghost use Rattle.cxa_runtime.specs.Frozen.{frozen};
ghost use Rattle.table_forms.specs.Fde.{Fde};
ghost use Rattle.rv64_isa.specs.State.{reg_of};
ghost use Rattle.raise_core.specs.Reads.{AreTables};
ghost use Rattle.cxa_runtime.specs.Call.{call_effect};
ghost use Rattle.cxa_runtime.specs.Lasting.{LastsAs};
ghost use Rattle.cxa_runtime.specs.Kept.{IsFresh, Remains, StaysFrozen, begun_turn, image_of, replies_of, world_of};
ghost use Rattle.cxa_runtime.specs.Turns.{Answers, IsOwn, Writes, after_cleanups, apart_from_replies};
ghost use Rattle.cxa_runtime.specs.Run as forms;

use crate::call::Call;
use crate::effect::{Effect, End, REFUSED, Turn};
use crate::registers::A7;
use crate::runtime::Runtime;
use crate::shown::Shown;
use eh_outer::{Module, Sink, SinkError};
use foreign_host::Host;
use run_items::{Item, put_item};
use rv64_isa::Step;

impl Runtime {
    // A turn begins, and has shown nothing.
    fn begin_turn(&mut self)
        requires { self.old.turns < 2 ^ 40 }
        ensures turn { self.new ≡ begun_turn self.old }
        ensures fresh { IsFresh self.new }
    {
        self.shown = Shown::new();
        self.turns += 1;
    }

    // Executes an instruction.
    fn execute(&mut self) -> Step
        ensures step { (result, self.new.hart) ≡ step_of self.old.hart }
        ensures rest { self.new ≡ record self.old { hart = self.new.hart } }
        ensures frozen { frozen self.new.hart.memory ≡ frozen self.old.hart.memory }
    {
        self.unwinder.step()
    }

    // The address of the instruction that is next.
    fn pc(&self) -> u64
        ensures { result ≡ self.now.hart.pc }
    {
        self.unwinder.machine().pc()
    }

    // Counts a step.
    fn tally(&mut self)
        requires { self.old.count < self.old.turns }
        ensures { self.new ≡ record self.old { count = self.old.count + 1 } }
    {
        self.count += 1;
    }

    // Makes the runtime call of the number in a7, behind its ECALL. It stands apart from the turn, since hardly any turn makes a call.
    #[inline(never)]
    fn make_call<M: Module>(&mut self, place: u64, input: &[u8], host: &mut Host<M>) -> Turn
        requires { IsFresh self.old }
        ensures turn { (wish : ℕ) × ((t : AreTables self.old.hart self.old.frames) →
            (result, world_of self.new input.now (replies_of (map M.view host.new.modules.items)))
            ≡ forms.called place (call_effect (reg_of self.old.hart.regs 17) (image_of t.read.fdes self.old) wish (world_of self.old input.now (replies_of (map M.view host.old.modules.items))))) }
        ensures stays { Remains self.old self.new }
        ensures modules { (t : AreTables self.old.hart self.old.frames) →
            apart_from_replies (map M.view host.new.modules.items) ≡ apart_from_replies (after_cleanups self.new.shown (map M.view host.old.modules.items)) }
        ensures own { IsOwn result }
    {
        match Call::numbered(self.argument(A7)) {
            None => self.finish(REFUSED, place),
            Some(call) => {
                let effect = self.call(call, input, host);
                self.finish(effect, place)
            }
        }
    }

    /// Executes an instruction, or makes a runtime call, and writes nothing: `items` tells what it shows.
    ///
    /// Fewer than 2^40 turns were made before. Takes no memory.
    pub fn take_step<M: Module>(&mut self, input: &[u8], host: &mut Host<M>) -> Turn
        requires { self.old.turns < 2 ^ 40 }
        ensures step { (wish : ℕ) × ((fdes : List Fde) → LastsAs self.old.hart self.old.frames fdes →
            (result, world_of self.new input.now (replies_of (map M.view host.new.modules.items)))
            ≡ forms.turn (image_of fdes self.old) wish (world_of self.old input.now (replies_of (map M.view host.old.modules.items)))) }
        ensures stays { StaysFrozen self.old self.new }
        ensures modules { (fdes : List Fde) → LastsAs self.old.hart self.old.frames fdes →
            apart_from_replies (map M.view host.new.modules.items) ≡ apart_from_replies (after_cleanups self.new.shown (map M.view host.old.modules.items)) }
        ensures own { IsOwn result }
    {
        self.begin_turn();
        let place = self.pc();
        match self.execute() {
            Step::Done => {
                self.tally();
                Turn::On
            }
            Step::Fault(kind) => Turn::Ended(End::Fault(kind, place)),
            Step::Ecall => self.make_call(place, input, host),
        }
    }

    /// Executes one instruction, or makes one runtime call, and writes what it shows: an int that the
    /// program prints, and under `trace` the events of its exceptions.
    ///
    /// `input` is the whole input of the run, of which the runtime knows how much is read. Fewer than
    /// 2^40 turns were made before. `Ended(Fault)` where the instruction or the call can't be done;
    /// `Ended(WriteFault)` exactly where the sink failed. Takes no memory.
    pub fn turn<S: Sink, M: Module>(
        &mut self,
        input: &[u8],
        host: &mut Host<M>,
        trace: bool,
        sink: &mut S,
    ) -> Turn
        requires { self.old.turns < 2 ^ 40 }
        ensures step { (wish : ℕ) × ((fdes : List Fde) → LastsAs self.old.hart self.old.frames fdes →
            Answers (forms.turn (image_of fdes self.old) wish (world_of self.old input.now (replies_of (map M.view host.old.modules.items)))) result
            (world_of self.new input.now (replies_of (map M.view host.new.modules.items)))) }
        ensures writes { Writes trace self.new.shown (S.view sink.old) (S.view sink.new) result }
        ensures stays { StaysFrozen self.old self.new }
        ensures modules { (fdes : List Fde) → LastsAs self.old.hart self.old.frames fdes →
            apart_from_replies (map M.view host.new.modules.items) ≡ apart_from_replies (after_cleanups self.new.shown (map M.view host.old.modules.items)) }
    {
        let turn = self.take_step(input, host);
        let (first, second) = self.items();
        match put_items(sink, trace, first, second) {
            Err(_) => Turn::Ended(End::WriteFault),
            Ok(()) => turn,
        }
    }

    // What comes of a runtime call at an address: one that can't be done is not counted.
    fn finish(&mut self, effect: Effect, place: u64) -> Turn
        requires { self.old.count < self.old.turns }
        ensures turn { (input : List ℕ) (replies : List (List Reply)) → (result, world_of self.new input replies) ≡ forms.called place (effect, world_of self.old input replies) }
        ensures stays { Remains self.old self.new }
        ensures shown { self.new.shown ≡ self.old.shown }
        ensures own { IsOwn result }
    {
        match effect {
            Effect::Goes => {
                self.tally();
                Turn::On
            }
            Effect::Exits(n) => {
                self.tally();
                Turn::Ended(End::Exit(n))
            }
            Effect::Aborts => {
                self.tally();
                Turn::Ended(End::Aborted)
            }
            Effect::Overflows => {
                self.tally();
                Turn::Ended(End::Stack)
            }
            Effect::Fails(kind) => Turn::Ended(End::Fault(kind, place)),
        }
    }

    /// The items that the last turn showed.
    pub fn items(&self) -> (Option<Item>, Option<Item>)
        ensures { self.now.shown ≡ items_of result.0 result.1 }
    {
        self.shown.items()
    }
}

// Puts the lines of two items.
fn put_both<S: Sink>(sink: &mut S, trace: bool, first: Item, second: Item) -> Result<(), SinkError>
    ensures { PutsAll (lines_of trace (first ∷ second ∷ [])) (S.view sink.old) (S.view sink.new) result }
{
    match put_item(sink, trace, first) {
        Err(e) => Err(e),
        Ok(()) => put_item(sink, trace, second),
    }
}

// Puts the lines of up to two items.
fn put_items<S: Sink>(
    sink: &mut S,
    trace: bool,
    first: Option<Item>,
    second: Option<Item>,
) -> Result<(), SinkError>
    ensures { PutsAll (lines_of trace (items_of first second)) (S.view sink.old) (S.view sink.new) result }
{
    match first {
        None => Ok(()),
        Some(first) => match second {
            None => put_item(sink, trace, first),
            Some(second) => put_both(sink, trace, first, second),
        },
    }
}
