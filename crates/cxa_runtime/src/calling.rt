// What each runtime call does.
ghost use Rattle.std.specs.Prelude.{◌≡◌, ℕ, map, true};
ghost use Rattle.raise_core.specs.Reads.{AreTables};
ghost use Rattle.cxa_runtime.specs.Call.{is_alone, made_call};
ghost use Rattle.cxa_runtime.specs.Kept.{IsFresh, MakesOver, Stays, image_of, replies_of, world_of};
ghost use Rattle.cxa_runtime.specs.Turns.{after_cleanups, apart_from_replies};

use crate::call::Call;
use crate::effect::{Effect, REFUSED};
use crate::runtime::Runtime;
use eh_outer::Module;
use foreign_host::Host;

impl Runtime {
    // Makes a call that asks neither the input nor a module.
    fn call_alone(&mut self, call: Call) -> Effect
        requires { IsFresh self.old }
        ensures made { is_alone call ≡ true → (wish : ℕ) × MakesOver (λ image w. made_call image wish w call) self.old self.new result }
        ensures stays { Stays self.old self.new }
    {
        match call {
            Call::Exit => self.exit(),
            Call::WriteInt => self.write_int(),
            Call::Allocate => self.allocate(),
            Call::Free => self.free(),
            Call::Throw => self.throw(),
            Call::BeginCatch => self.begin_catch(),
            Call::Rethrow => self.rethrow(),
            Call::Resume => self.resume(),
            Call::UncaughtException => self.uncaught_exception(),
            Call::SetTerminate => self.set_terminate(),
            Call::SetUnexpected => self.set_unexpected(),
            Call::Terminate => self.terminate_now(),
            Call::Cancel => self.cancel(),
            Call::Abort => Effect::Aborts,
            Call::Stack => Effect::Overflows,
            Call::UnexpectedBegin => self.unexpected_begin(),
            Call::UnexpectedCheck => self.unexpected_check(),
            Call::TerminateFor => self.terminate_for(),
            Call::ReadByte | Call::EndCatch | Call::Module => REFUSED,
        }
    }

    /// Makes a runtime call.
    pub(crate) fn call<M: Module>(&mut self, call: Call, input: &[u8], host: &mut Host<M>) -> Effect
        requires { IsFresh self.old }
        ensures made { (wish : ℕ) × ((t : AreTables self.old.hart self.old.frames) →
            (result, world_of self.new input.now (replies_of (map M.view host.new.modules.items)))
            ≡ made_call (image_of t.read.fdes self.old) wish (world_of self.old input.now (replies_of (map M.view host.old.modules.items))) call) }
        ensures stays { Stays self.old self.new }
        ensures modules { (t : AreTables self.old.hart self.old.frames) →
            apart_from_replies (map M.view host.new.modules.items) ≡ apart_from_replies (after_cleanups self.new.shown (map M.view host.old.modules.items)) }
    {
        match call {
            Call::ReadByte => self.read_byte(input),
            Call::EndCatch => self.end_catch(host),
            Call::Module => self.call_module(host),
            _ => self.call_alone(call),
        }
    }
}
