// What holds of every run of the ABI machine, whatever image it runs: calls of no effect, whose contracts state it.
ghost use Rattle.runtime_invariant.specs.Aims.{HeadersStayAimed};
ghost use Rattle.runtime_invariant.specs.Memory.{RunsKeepMemory};

/// No run changes the memory that may not be written.
pub fn runs_keep_memory()
    ensures { RunsKeepMemory }
{}

/// While an exception is on its way, and no handler enters it, its header stays as it is, and so the target and the table in it.
pub fn headers_stay_aimed()
    ensures { HeadersStayAimed }
{}
