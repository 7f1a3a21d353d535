// Laws of the simulation: calls of no effect, whose contracts state what holds of every program.
ghost use Rattle.linear_simulation.specs.Fronts.{EndsAreMeant, FrontsAreMeant};
ghost use Rattle.linear_simulation.specs.FunctionsRun.{FunctionsRun, SoundWhereWellFormed};
ghost use Rattle.linear_simulation.specs.ProgramRuns.{ProgramsRun, WatchedIsMeant};
ghost use Rattle.linear_simulation.specs.Simulates.{CodeRunsWatched};

/// With calls that run, the code of every region does at the machine what the region does, watched, in steps in proportion to its turns:
/// values and effects, calls, throw and search, branches and loops, scopes with their cleanups, handlers, specifications, barriers, exits.
pub fn regions_run()
    ensures { CodeRunsWatched }
{}

/// In a program of sound functions every call runs, whatever its fuel.
pub fn functions_run()
    ensures { FunctionsRun }
{}

/// The functions of well-formed regions are sound, where each region that catches has a clause.
pub fn well_formed_is_sound()
    ensures { SoundWhereWellFormed }
{}

/// The watched meaning of a program of regions is its meaning, or stops as a call that is too deep.
pub fn watched_is_meant()
    ensures { WatchedIsMeant }
{}

/// Of well-formed regions of which each that catches has a clause, the run of the linear code comes to the end of the watched meaning, with its
/// items, its deepest call and its replies, in steps in proportion to its turns; where the turns are used up or calls are too deep, it begins
/// with the items so far. Where the watched meaning does not stop as a call that is too deep, so it is of the meaning.
pub fn programs_run()
    ensures { ProgramsRun }
{}

/// Where a run shows a meaning, a front of the run in which fewer steps pay for turns than the meaning has shows nothing beyond the meaning.
pub fn fronts_are_meant()
    ensures { FrontsAreMeant }
{}

/// And where the run is over by then, so is the meaning, with the same items, end, deepest call and replies.
pub fn ends_are_meant()
    ensures { EndsAreMeant }
{}
