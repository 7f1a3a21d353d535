// What others may know of a runtime between its turns.
ghost use Rattle.std.specs.Prelude.{◌≡◌};
ghost use Rattle.caught_stack.specs.Live.{live_count};
ghost use Rattle.cxa_runtime.specs.NextCall.{next_call};

use crate::registers::A7;
use crate::runtime::Runtime;
use rv64_isa::Instr;

impl Runtime {
    /// How many exception objects are live.
    pub fn live(&self) -> u32
        ensures { result ≡ live_count self.now.exceptions.live }
    {
        self.globals.live()
    }

    /// The number in a7 where the next instruction is an ECALL.
    pub fn next_call(&self) -> Option<u64>
        ensures { result ≡ next_call self.now.hart }
    {
        match self.unwinder.machine().next_instr() {
            Some(Instr::Ecall) => Some(self.argument(A7)),
            _ => None,
        }
    }

    /// How many steps were counted.
    pub fn count(&self) -> u64
        ensures { result ≡ self.now.count }
    {
        self.count
    }
}
