// The runtime calls.
ghost use Rattle.std.specs.Prelude.{◌≡◌};
ghost use Rattle.cxa_runtime.specs.Call.{numbered};

/// A runtime call.
#[derive(Clone, Copy, Debug, PartialEq, Eq)]
pub enum Call {
    Exit,
    WriteInt,
    ReadByte,
    Allocate,
    Free,
    Throw,
    BeginCatch,
    EndCatch,
    Rethrow,
    Resume,
    UncaughtException,
    SetTerminate,
    SetUnexpected,
    Terminate,
    Module,
    Cancel,
    Abort,
    Stack,
    UnexpectedBegin,
    UnexpectedCheck,
    TerminateFor,
}

impl Call {
    /// The call of a number.
    #[tactic(auto, unfolding(crate::specs::Call::numbered))]
    pub fn numbered(number: u64) -> Option<Call>
        ensures { result ≡ numbered number }
    {
        Some(match number {
            0 => Call::Exit,
            1 => Call::WriteInt,
            2 => Call::ReadByte,
            3 => Call::Allocate,
            4 => Call::Free,
            5 => Call::Throw,
            6 => Call::BeginCatch,
            7 => Call::EndCatch,
            8 => Call::Rethrow,
            9 => Call::Resume,
            10 => Call::UncaughtException,
            11 => Call::SetTerminate,
            12 => Call::SetUnexpected,
            13 => Call::Terminate,
            14 => Call::Module,
            15 => Call::Cancel,
            16 => Call::Abort,
            17 => Call::Stack,
            18 => Call::UnexpectedBegin,
            19 => Call::UnexpectedCheck,
            20 => Call::TerminateFor,
            _ => return None,
        })
    }
}
