// How an evaluation comes out.

ghost use Rattle.std.specs.Prelude.{◌≡◌};
ghost use Rattle.scope_world.specs.declared.outcome.Halt.TheVariants.{NoMemory};
ghost use Rattle.scope_world.specs.Gives.{unwinds};

use std::alloc::{AllocError, AllocFailed};

/// Why an evaluation stops before it is done.
#[derive(Clone, Copy, Debug, PartialEq, Eq)]
pub enum Halt {
    /// The exception with the number travels.
    Thrown(u64),
    /// Every frame is unwound, and then the program exits with the int.
    Cancelled(i32),
    /// The program exits with the int.
    Exited(i32),
    Aborted,
    Undefined,
    OutOfTurns,
    /// A call would have been one more than may be open.
    Deep,
    NoMemory,
}

impl Halt {
    /// Whether it unwinds what is outside: an exception or a forced unwind.
    pub fn unwinds(&self) -> bool
        ensures { result ≡ unwinds self.now }
    {
        matches!(self, Halt::Thrown(_) | Halt::Cancelled(_))
    }
}

impl From<AllocError> for Halt {
    ghost from_gives = { λ _ e. e ≡ NoMemory };

    fn from(_: AllocError) -> Self {
        Halt::NoMemory
    }
}

impl<T: Drop> From<AllocFailed<T>> for Halt {
    ghost from_gives = { λ _ e. e ≡ NoMemory };

    fn from(_: AllocFailed<T>) -> Self {
        Halt::NoMemory
    }
}

/// How a statement that is done goes on.
#[derive(Clone, Copy, Debug, PartialEq, Eq)]
pub enum Flow {
    Normal,
    Breaks,
    Continues,
    Returns(Option<i32>),
}
