// Where control enters a frame.
ghost use Rattle.std.specs.Prelude.{◌≡◌};
ghost use Rattle.raise_core.specs.Raise.{with_registers, installs, enters, stops_at};

use crate::asked::Target;
use crate::raised::Raised;
use frame_walk::{FaultKind, Frame};
use rv64_machine::Machine;
use table_forms::Verdict;

// x1 to x31 become those of the frame.
fn restore(machine: &mut Machine, frame: &Frame)
    ensures { machine.new ≡ record machine.old { regs = with_registers 0 32 frame.now.regs machine.old.regs } }
{
    'registers: for number in 0..32u8 {
        machine.set_reg(number, frame.regs[number as usize]);
    }
}

// Control goes to the pad (_URC_INSTALL_CONTEXT).
fn install_context(
    machine: &mut Machine,
    frame: &Frame,
    target: Target,
    pad: u64,
    selector: i64,
) -> Raised
    ensures { (result, machine.new) ≡ installs machine.old frame.now target pad selector }
{
    restore(machine, frame);
    machine.set_pc(pad);
    Raised::Install(pad, selector, target.cfa, target.lsda)
}

/// Enters a frame by its verdict, on the way to a target.
pub fn enter(machine: &mut Machine, frame: &Frame, target: Target, verdict: Verdict) -> Raised
    ensures { (result, machine.new) ≡ enters machine.old frame.now target verdict }
{
    match verdict {
        Verdict::Cleanup(pad) => install_context(machine, frame, target, pad, 0),
        Verdict::Handler(pad, selector) => install_context(machine, frame, target, pad, selector),
        Verdict::Spec(pad, selector) => install_context(machine, frame, target, pad, selector),
        Verdict::Nothing | Verdict::Terminate => Raised::Fault(FaultKind::Walk),
    }
}

/// Enters a frame by its verdict, unless that ends the program.
pub fn stop_at(machine: &mut Machine, frame: &Frame, target: Target, verdict: Verdict) -> Raised
    ensures { (result, machine.new) ≡ stops_at machine.old frame.now target verdict }
{
    match verdict {
        Verdict::Terminate => Raised::Terminate,
        _ => enter(machine, frame, target, verdict),
    }
}
