// Laws of runs in words: calls of no effect, whose contracts state what holds of every program.
ghost use Rattle.cost_words.specs.Counts.{FunctionsBeginBriefly, OperationsHaveWords};
ghost use Rattle.cost_words.specs.Runs.{CheckedRunsAreShort};
ghost use Rattle.cost_words.specs.Spends.{CheckedRunsSpendLittle};

/// The code of an operation, with the beginning of what it calls of the runtime's own functions, is no longer than is said, wherever its slots
/// stand.
pub fn operations_have_words()
    ensures { OperationsHaveWords }
{}

/// Functions begin with few words, wherever their slots stand.
pub fn functions_begin_briefly()
    ensures { FunctionsBeginBriefly }
{}

/// What a checked program runs, but for landing pads, is at most 2^18 words for each call, each turn of a loop, and for two more.
pub fn checked_runs_are_short()
    ensures { CheckedRunsAreShort }
{}

/// What a checked program's run spends is at most 128 for each token and 1,024, for each call, each turn of a loop, and for two more.
pub fn checked_runs_spend_little()
    ensures { CheckedRunsSpendLittle }
{}
