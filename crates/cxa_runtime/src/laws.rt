// What the definitions say of every turn and every run.
ghost use Rattle.cxa_runtime.specs.Laws.{RunsBalance, TurnsBalance};

/// Each foreign exception is cleaned at most once, by its own module: of each module and token, those that are live behind a turn are
/// those before it, with those that it raised and without those that it cleaned; and so from the beginning of a run to its end.
pub fn foreign_exceptions_are_cleaned_once()
    ensures turns { TurnsBalance }
    ensures runs { RunsBalance }
{}
