// Laws of raises: calls of no effect, whose contracts state what holds of every stack.
ghost use Rattle.raise_simulation.specs.Raises.{RaisesAgree};
ghost use Rattle.raise_simulation.specs.Resumes.{ForcedAgree, ResumesAgree};
ghost use Rattle.raise_simulation.specs.Walks.{CallsAreWalked};

/// The frames that an unwinder meets are those of the open calls.
pub fn calls_are_walked()
    ensures { CallsAreWalked }
{}

/// A raise comes to the pad that the unwind of linear code enters first, if its search finds a target.
pub fn raises_agree()
    ensures { RaisesAgree }
{}

/// A raise that goes on comes to the pad that the unwind of linear code enters next.
pub fn resumes_agree()
    ensures { ResumesAgree }
{}

/// A forced unwind comes to the pad that the one of linear code enters next.
pub fn forced_agree()
    ensures { ForcedAgree }
{}
