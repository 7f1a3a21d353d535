// Forced unwinding.
ghost use Rattle.std.specs.Prelude.{◌≡◌, Some};
ghost use Rattle.cxa_runtime.specs.Kept.{MakesOver, Stays};
ghost use Rattle.cxa_runtime.specs.Cancel.{cancel, unwinds};

use crate::effect::Effect;
use crate::registers::{A0, as_int};
use crate::runtime::Runtime;
use raise_core::Raised;

impl Runtime {
    /// Goes on with a forced unwind from the frame that makes the call; at the end of the stack the program exits.
    pub(crate) fn unwind(&mut self, n: i32) -> Effect
        ensures made { MakesOver (λ image w. unwinds image n w) self.old self.new result }
        ensures stays { Stays self.old self.new }
    {
        match self.force() {
            Raised::Install(_, _, _, _) => {
                self.give_pad(0, 0);
                Effect::Goes
            }
            Raised::NoHandler => Effect::Exits(n),
            Raised::Terminate => self.terminate_now(),
            Raised::Fault(kind) => Effect::Fails(kind),
        }
    }

    // Keeps the exit number of a forced unwind.
    fn set_unwinding(&mut self, n: i32)
        ensures { self.new ≡ record self.old { unwinding = Some n } }
    {
        self.unwinding = Some(n);
    }

    /// The exit number of the forced unwind that is on.
    pub(crate) fn exit_number(&self) -> Option<i32>
        ensures { result ≡ self.now.unwinding }
    {
        self.unwinding
    }

    /// Begins a forced unwind, also in place of one that is on.
    pub(crate) fn cancel(&mut self) -> Effect
        ensures made { MakesOver cancel self.old self.new result }
        ensures stays { Stays self.old self.new }
    {
        let n = as_int(self.argument(A0));
        self.set_unwinding(n);
        self.unwind(n)
    }
}
