// Laws of the stack: calls of no effect, whose contracts state what holds of every unit, or of every checked program.
ghost use Rattle.stack_bounds.specs.Overflow.{CallsOverflow, FunctionsOverflow};
ghost use Rattle.stack_bounds.specs.Taken.{CheckedFramesAreSmall, OpenCallsTake, StacksHoldCalls};

use landing_pads::laws::frames_of_checked_fit;
use machine_pieces::laws::{addresses_are_computed, calls_are_turns, control_goes};

/// At the first word of a function that finds no room for its frame a run ends for want of stack.
pub fn functions_overflow()
    ensures { FunctionsOverflow }
{
    calls_are_turns();
    control_goes();
}

/// So does a run at a call of such a function.
pub fn calls_overflow()
    ensures { CallsOverflow }
{
    addresses_are_computed();
    functions_overflow();
}

/// Open calls take at most 1,728 bytes for each that is of a compiled function, with what terminate hides and a little beside them.
pub fn open_calls_take()
    ensures { OpenCallsTake }
{}

/// A stack on which the next call finds no room had 4,096 calls open at once, though a forced unwind left frames on it.
pub fn stacks_hold_calls()
    ensures { StacksHoldCalls }
{
    open_calls_take();
}

/// The frames of a checked program have at most 1,600 bytes.
pub fn checked_frames_are_small()
    ensures { CheckedFramesAreSmall }
{
    frames_of_checked_fit();
}
