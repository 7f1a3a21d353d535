// Laws of depths: calls of no effect, whose contracts state what holds of every program.
ghost use Rattle.meaning_depths.specs.Laws.{ShallowMeanings};
ghost use Rattle.meaning_depths.specs.Shallow.{AllCallsAreShallow};

/// A call where open calls and turns together are below the limit is not stopped as too deep, nor is a call inside it.
pub fn all_calls_are_shallow()
    ensures { AllCallsAreShallow }
{}

/// With fewer turns than open calls are allowed no call is too deep, since each spends a turn.
pub fn shallow_meanings()
    ensures { ShallowMeanings }
{}
