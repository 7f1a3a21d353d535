//! Laws of the linear code of sources: calls of no effect, whose contracts state what holds of every source.
ghost use Rattle.linear_meaning.specs.Clauses.{CheckedCatchesHaveClauses};
ghost use Rattle.linear_meaning.specs.Costs.{CheckedCostsFit, ValidSourcesRunInTime};
ghost use Rattle.linear_meaning.specs.Fields.{CheckedProgramsHaveFields};
ghost use Rattle.linear_meaning.specs.Regions.{CheckedRegionsBreakNothing};
ghost use Rattle.linear_meaning.specs.Runs.{CheckedProgramsRunAsMeant, ValidSourcesRunAsMeant};
ghost use Rattle.linear_meaning.specs.WatchedRuns.{CheckedProgramsRun, ValidSourcesRun};

use linear_simulation::laws::watched_is_meant;
use region_forms::laws::caught_list_follows;

/// In the regions of each checked program each region that catches has a clause, since a try block has a handler.
pub fn checked_catches_have_clauses()
    ensures clauses { CheckedCatchesHaveClauses }
{}

/// For each checked program: for every limit of open calls, every input, all replies and every number of turns the run of its linear
/// code comes to the end of the watched meaning of its regions, with its items, its deepest call and its replies, in steps in proportion to its
/// turns; where the turns are used up or calls are too deep, it begins with the items so far. Where the watched meaning does not stop as a call that
/// is too deep, so it is of the meaning.
pub fn checked_programs_run()
    ensures run { CheckedProgramsRun }
{}

/// So it is of each valid source, with no other premise.
pub fn valid_sources_run()
    ensures run { ValidSourcesRun }
{}

/// What the code of each function of a checked program costs, but for its turns, is at most 40 steps for each token of the source, and 200 beside them.
pub fn checked_costs_fit()
    ensures fit { CheckedCostsFit }
{}

/// So many steps, for each turn and one more, are enough for the run of a valid source's linear code to show what its regions mean.
pub fn valid_sources_run_in_time()
    ensures run { ValidSourcesRunInTime }
{}

/// Each number of a checked program's regions is below 2^32: those of functions, types, globals and slots, sizes and offsets in bytes, and how many
/// regions an exit leaves.
pub fn checked_programs_have_fields()
    ensures fields { CheckedProgramsHaveFields }
{}

/// The regions of a checked program break nothing that is watched, where the program comes to nothing that is undefined: watched, they mean what it
/// means, and they stop as a call that is too deep only where it does; elsewhere they mean it unwatched too.
pub fn regions_break_nothing()
    ensures kept { CheckedRegionsBreakNothing }
{
    caught_list_follows();
    watched_is_meant();
}

/// For each checked program: for every limit of open calls, every input, all replies and every number of turns the run of its linear code comes to
/// the end of the program's meaning, with its items, its deepest call and its replies, in steps in proportion to its turns; where the turns are used
/// up or calls are too deep, it begins with the items so far. Of a program that comes to what is undefined nothing is said.
pub fn checked_programs_run_as_meant()
    ensures run { CheckedProgramsRunAsMeant }
{
    caught_list_follows();
    checked_programs_run();
}

/// So it is of each valid source, with no other premise.
pub fn valid_sources_run_as_meant()
    ensures run { ValidSourcesRunAsMeant }
{
    caught_list_follows();
    checked_programs_run();
}
