// std::terminate.
ghost use Rattle.std.specs.Prelude.{◌≡◌};
ghost use Rattle.cxa_runtime.specs.Kept.{Makes, Stays};
ghost use Rattle.cxa_runtime.specs.Terminate.{terminates, terminates_now};

use crate::effect::Effect;
use crate::registers::A0;
use crate::runtime::Runtime;

impl Runtime {
    /// Whether terminate is running.
    pub(crate) fn is_terminating(&self) -> bool
        ensures { result ≡ self.now.terminating }
    {
        self.terminating
    }

    /// Terminate with a handler: its stub is entered, and where terminate is running already the run ends.
    pub(crate) fn terminate(&mut self, handler: u64) -> Effect
        ensures made { Makes (terminates self.old.places handler) self.old self.new result }
        ensures stays { Stays self.old self.new }
    {
        if self.terminating {
            return Effect::Aborts;
        }
        self.unwinder.set_reg(A0, handler);
        self.unwinder.set_pc(self.places.terminate);
        self.terminating = true;
        Effect::Goes
    }

    /// Terminate with the handler in effect.
    pub(crate) fn terminate_now(&mut self) -> Effect
        ensures made { Makes (terminates_now self.old.places) self.old self.new result }
        ensures stays { Stays self.old self.new }
    {
        self.terminate(self.terminate_handler)
    }
}
