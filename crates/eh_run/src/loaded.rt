// An image that is ready to run.
ghost use Rattle.std.specs.Prelude.{◌≡◌, ℕ};
ghost use Rattle.eh_run.specs.Ready.{IsReady, program_in};

use cxa_runtime::Runtime;
use std::marker::Model;

/// An image that is ready to run. Contracts see its program: what the runtime knows of the image, and
/// the hart as a run begins.
#[derive(Drop)]
pub struct Loaded {
    pub(crate) runtime: Runtime,
    // Where the frames' header stands, by which contracts name the FDEs.
    pub(crate) frame_header: u64,
}

impl Model for Loaded {
    ghost use Rattle.eh_run.specs.Program.{Program};

    ghost Value = { Program };

    ghost use Rattle.eh_run.specs.Ready.{IsReady, program_in};

    ghost view = { λ l. program_in l.runtime l.frame_header };

    ghost invariant = { λ l. IsReady l.runtime l.frame_header };
}

impl Loaded {
    /// The runtime that is to run it, at the beginning.
    pub fn into_runtime(self) -> Runtime
        ensures { (header : ℕ) × IsReady result header × (program_in result header ≡ self) }
    {
        self.runtime
    }
}
