// Frames of a stack (Itanium C++ ABI: Exception Handling, level I, "Context Management").
ghost use Rattle.std.specs.Prelude.{◌≡◌};
ghost use Rattle.table_forms.specs.Verdict.{look_up_place};

use rv64_isa::FaultKind;

/// A frame of a stack: the address behind its call, and its registers, x0 to x31 and f0 to f31.
#[derive(Clone, Copy, Debug, PartialEq, Eq)]
pub struct Frame {
    pub pc: u64,
    /// The canonical frame address of the frame before, and 0 in the top frame.
    pub cfa: u64,
    pub regs: [u64; 64],
    /// It is the frame that made the runtime call.
    pub top: bool,
    /// A signal interrupted it, so that it stands at its pc and not before it.
    pub signal: bool,
}

/// What is outward of a frame.
#[derive(Clone, Copy, Debug, PartialEq, Eq)]
pub enum Walk {
    Next(Frame),
    EndOfStack,
    Fault(FaultKind),
}

impl Frame {
    /// The place for which the tables are asked: at the call and not behind it.
    pub fn place(&self) -> u64
        ensures { result ≡ look_up_place self.now.pc self.now.signal }
    {
        if self.signal {
            self.pc
        } else {
            self.pc.wrapping_sub(1)
        }
    }
}
