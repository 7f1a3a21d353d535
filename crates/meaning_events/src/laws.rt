// Laws of events: calls of no effect, whose contracts state what holds of every program.
ghost use Rattle.meaning_events.specs.Counted.{AllowedAreCounted, FrontsAreAllowed};
ghost use Rattle.meaning_events.specs.Going.{AllCallsGoOn};
ghost use Rattle.meaning_events.specs.Laws.{AllCallsSettle, EventLaws};
ghost use Rattle.meaning_events.specs.Terminates.{AllBuildsSettle, FinalLaw, TerminateLaw};

/// Each call inside a run, whatever its context, tells its events in an allowed order and settles the exceptions that are made in it, but
/// for one that comes out of it; all others are as they were.
pub fn all_calls_settle()
    ensures { AllCallsSettle }
{}

/// The events of every meaning come in an allowed order, and all that was made is freed, and all that was raised cleaned, where main
/// comes out by a return, at its end or by a forced unwind.
pub fn events_are_right()
    ensures { EventLaws }
{}

/// In an allowed order a number is given once, an object is destroyed and freed at most once, a foreign exception never, and no more
/// handlers are left than entered, and no more tokens cleaned than raised.
pub fn allowed_events_are_counted()
    ensures { AllowedAreCounted }
{}

/// The front of an allowed order is allowed, as that of a run that is cut short.
pub fn fronts_are_allowed()
    ensures { FrontsAreAllowed }
{}

/// So does what builds the operand of a `throw`, and the bad_exception that a specification throws.
pub fn all_builds_settle()
    ensures { AllBuildsSettle }
{}

/// No call takes an item back: what is told in it comes behind what was told.
pub fn all_calls_go_on()
    ensures { AllCallsGoOn }
{}

/// A native exception that is doomed is entered next, where terminate is not running, and that is the next item: at the end of its building,
/// where it is thrown again, and where a specification passes it on.
pub fn doomed_exceptions_are_entered()
    ensures { TerminateLaw }
{}

/// What comes of terminate ends the program or its meaning, and passes all that is open: nothing is destroyed, freed or caught.
pub fn terminate_passes_out()
    ensures { FinalLaw }
{}
