// Laws of exceptions between a throw and a handler: calls of no effect, whose contracts state what holds of any code.
ghost use Rattle.exceptions_in_flight.specs.Aims.{AimsHaveTargets, FlightsComeToPads, SearchesAim, UnwindsComeToPads};
ghost use Rattle.exceptions_in_flight.specs.Flights.{FlightsAreCarried};
ghost use Rattle.exceptions_in_flight.specs.Slots.{SlotsAreKept};

/// The places between a landing pad and what ends its cleanup are known: control comes into them from their pad alone, each `resume` and
/// each `unexpected` is one of them, and none writes the slots of the pad.
pub fn flights_are_carried()
    ensures { FlightsAreCarried }
{}

/// In a well-formed function nothing but a landing pad writes the slots in which pads put the exception's object and the selector.
pub fn slots_are_kept()
    ensures { SlotsAreKept }
{}

/// What the search finds stops the exception, and those inside let it pass.
pub fn searches_aim()
    ensures { SearchesAim }
{}

/// That is one of the open calls.
pub fn aims_have_targets()
    ensures { AimsHaveTargets }
{}

/// An unwind with a target comes to a pad, at the target or for a cleanup inside it.
pub fn unwinds_come_to_pads()
    ensures { UnwindsComeToPads }
{}

/// So does an exception that is raised and found a target, and one that goes on.
pub fn flights_come_to_pads()
    ensures { FlightsComeToPads }
{}
