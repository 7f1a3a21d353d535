// Laws of the machine for linear code: calls of no effect, whose contracts state what holds between two steps.
ghost use Rattle.linear_invariant.specs.Asked.{EntersAreAsked, FreesAreAsked, LeavesAreAsked, PassesAreAsked, ResumesAreAsked, ReturnsAreAsked, TestsAreAsked, ThrowsAreAsked};
ghost use Rattle.linear_invariant.specs.Forced.{ForcedAreNewest, StepsKeepForced};
ghost use Rattle.linear_invariant.specs.Stands.{FirstStatesStand, LeadsStand, ProgramsFit, RunsStand, StepsStand};

/// Each step keeps what holds of the state.
pub fn steps_stand()
    ensures { StepsStand }
{}

/// The code of every well-formed program is as asked, where each call that installs a handler is given a function.
pub fn programs_fit()
    ensures { ProgramsFit }
{}

/// In the state in which a program begins it holds, where what is given to the program is bytes and replies that are in range.
pub fn first_states_stand()
    ensures { FirstStatesStand }
{}

/// So it holds after any number of steps from a state in which it does.
pub fn leads_stand()
    ensures { LeadsStand }
{}

/// So it holds after any number of steps of a program.
pub fn runs_stand()
    ensures { RunsStand }
{}

/// Where an exception is thrown, the slot has its object itself, which is being built, and no call waits for its destructor.
pub fn throws_are_asked()
    ensures { ThrowsAreAsked }
{}

/// Where a handler begins, the slot has the object itself, no call waits for its destructor, and there are no more open handlers than steps.
pub fn enters_are_asked()
    ensures { EntersAreAsked }
{}

/// Where an object is given back, the slot has that of a live exception, and no older call waits for its destructor.
pub fn frees_are_asked()
    ensures { FreesAreAsked }
{}

/// The newest handled exception, which is left or thrown again, is live and built, and no call waits for its destructor.
pub fn leaves_are_asked()
    ensures { LeavesAreAsked }
{}

/// What goes on outwards is a forced unwind, or an exception that is live and built, with one of the open calls as its target.
pub fn resumes_are_asked()
    ensures { ResumesAreAsked }
{}

/// What a specification stopped is a forced unwind, or an exception that is live and built, with the number of a filter.
pub fn passes_are_asked()
    ensures { PassesAreAsked }
{}

/// Where a filter is tested, the slot has a number.
pub fn tests_are_asked()
    ensures { TestsAreAsked }
{}

/// After a step no forced unwind is on its way above the newest call of terminate, or that which was, or that which the step began.
pub fn steps_keep_forced()
    ensures { StepsKeepForced }
{}

/// A forced unwind that goes on outwards is the newest that is on its way.
pub fn forced_are_newest()
    ensures { ForcedAreNewest }
{}

/// A destructor comes back to the runtime's function for leaving a handler where that waits for it, with the object.
pub fn returns_are_asked()
    ensures { ReturnsAreAsked }
{}
