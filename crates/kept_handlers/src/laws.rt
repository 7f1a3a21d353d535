// Laws of the handlers of open calls of linear code: calls of no effect, whose contracts state what holds of every program.
ghost use Rattle.kept_handlers.specs.Code.{ProgramsOpen};
ghost use Rattle.kept_handlers.specs.Handlers.{FirstOpens, LeadsOpen, ReturnsToStopped, RunsOpen, RunsWithStopped, StepsKeepHandlers};
ghost use Rattle.kept_handlers.specs.Lowered.{LoweredAreInStep};

/// A step keeps how many handlers each open call has, and that what a specification stopped is handled.
pub fn steps_keep_handlers()
    ensures { StepsKeepHandlers }
{}

/// In the state in which a program begins its only call has none.
pub fn first_opens()
    ensures { FirstOpens }
{}

/// So it is after any number of steps, where it was before them.
pub fn leads_open()
    ensures { LeadsOpen }
{}

/// So it is after any number of steps of a program.
pub fn runs_open()
    ensures { RunsOpen }
{}

/// An unexpected handler comes back to call_unexpected at its second operation, where what was stopped is handled, and of this language.
pub fn returns_to_stopped()
    ensures { ReturnsToStopped }
{}

/// So is what was stopped where call_unexpected runs, up to where it leaves it.
pub fn runs_with_stopped()
    ensures { RunsWithStopped }
{}

/// The linear code of every program whose regions open and leave handlers in step does so.
pub fn programs_open()
    ensures { ProgramsOpen }
{}

/// The regions of every program open and leave handlers in step.
pub fn lowered_are_in_step()
    ensures { LoweredAreInStep }
{}
