// The frame that makes a runtime call.
ghost use Rattle.std.specs.Prelude.{◌≡◌};
ghost use Rattle.raise_core.specs.Stack.{first_frame};

use frame_walk::Frame;
use rv64_machine::Machine;

/// The frame that makes a runtime call, as the machine stands behind it.
pub fn first_frame(machine: &Machine) -> Frame
    ensures { result ≡ first_frame machine.now }
{
    let mut regs = [0u64; 64];
    'registers: for number in 0..32u8 {
        regs[number as usize] = machine.reg(number);
    }
    Frame {
        pc: machine.pc(),
        cfa: 0,
        regs,
        top: true,
        signal: false,
    }
}
