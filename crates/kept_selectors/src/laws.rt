// Laws of the numbers of filters in open calls of linear code: calls of no effect, whose contracts state what holds of every program.
ghost use Rattle.kept_selectors.specs.Selectors.{ChainsAreSites, FirstSelectors, OpenListsStand, PassesHaveLists, RunsKeepSelectors, StepsKeepSelectors, StoppedAreThere};
ghost use Rattle.kept_selectors.specs.Stopping.{ProgramsStop};

/// A call that carries what a pad caught keeps the number of a filter of its function, and call_unexpected keeps that of the list that stopped an exception.
pub fn steps_keep_selectors()
    ensures { StepsKeepSelectors }
{}

/// In the state in which a program begins no call carries anything.
pub fn first_selectors()
    ensures { FirstSelectors }
{}

/// So it is after any number of steps of a program.
pub fn runs_keep_selectors()
    ensures { RunsKeepSelectors }
{}

/// What a specification stopped has the number of a list, which stands in a chain of the function.
pub fn passes_have_lists()
    ensures { PassesHaveLists }
{}

/// An exception that a specification stopped has come to its target.
pub fn stopped_are_there()
    ensures { StoppedAreThere }
{}

/// A filter of what covers a place is one of a site.
pub fn chains_are_sites()
    ensures { ChainsAreSites }
{}

/// What call_unexpected has in its slots for the number and the function is a list of that function, in a chain of one of its sites.
pub fn open_lists_stand()
    ensures { OpenListsStand }
{}

/// What a specification passes on comes from the test of its list alone.
pub fn programs_stop()
    ensures { ProgramsStop }
{}
