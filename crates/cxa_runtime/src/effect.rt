// What comes of a turn.
use rv64_isa::FaultKind;

/// How a run ends.
#[derive(Clone, Copy, Debug, PartialEq, Eq)]
pub enum End {
    /// The program exits with the number.
    Exit(i32),
    /// It calls abort, or terminate where terminate is running already.
    Aborted,
    /// As many steps as were allowed are done.
    Budget,
    /// Its stack is used up.
    Stack,
    /// The instruction, or the runtime call, at the address can't be done.
    Fault(FaultKind, u64),
    /// What it shows can't be written.
    WriteFault,
}

/// What comes of a runtime call.
#[derive(Clone, Copy, Debug, PartialEq, Eq)]
pub enum Effect {
    /// The run goes on.
    Goes,
    /// The program exits with the number.
    Exits(i32),
    /// The program is aborted.
    Aborts,
    /// The stack is used up.
    Overflows,
    /// The call can't be done.
    Fails(FaultKind),
}

/// What a turn answers.
#[derive(Clone, Copy, Debug, PartialEq, Eq)]
pub enum Turn {
    /// The run goes on.
    On,
    /// The run ends.
    Ended(End),
}

/// A call whose argument is no object in the state that it needs, or a number of no call.
pub const REFUSED: Effect = Effect::Fails(FaultKind::Call);
