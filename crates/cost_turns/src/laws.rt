// Laws on what runs of linear code weigh: calls of no effect, whose contracts state what holds of every program.
ghost use Rattle.cost_turns.specs.Counting.{AllAreCounted};
ghost use Rattle.cost_turns.specs.Once.{RunsWeighByCalls, TerminateBeginsOnce};
ghost use Rattle.cost_turns.specs.Runs.{RunsWeighLittle};

/// Whatever operations weigh, if labels weigh nothing, a run of a program weighs no more for each of its turns than the longest of its
/// functions, with what its operations call of the runtime's own functions.
pub fn runs_weigh_little()
    ensures { RunsWeighLittle }
{}

/// Terminate begins at most once in a run of any code.
pub fn terminate_begins_once()
    ensures { TerminateBeginsOnce }
{}

/// So a run of a program weighs no more for each of its calls and turns of loops, and for two more, than the longest function.
pub fn runs_weigh_by_calls()
    ensures { RunsWeighByCalls }
{}

/// No more calls begin and no more loops turn back in a run than it has steps that count as such.
pub fn all_are_counted()
    ensures { AllAreCounted }
{}
