// Laws of runs of linear code: calls of no effect, whose contracts state what holds of every program.
ghost use Rattle.address_invariant.specs.Laws.{PlacesLieInside, StepsReachInside, FirstReaches};
ghost use Rattle.address_invariant.specs.Plans.{PlansGoOn, NewestWasMade};

/// Behind a place lie the bytes of ints for which it has room.
pub fn places_lie_inside()
    ensures { PlacesLieInside }
{}

/// A step leaves what lies behind addresses.
pub fn steps_reach_inside()
    ensures { StepsReachInside }
{}

/// Where main begins, bytes of ints lie behind all addresses.
pub fn first_calls_reach_inside()
    ensures { FirstReaches }
{}

/// The plan of a run goes on so with calls that begin and exceptions that are made.
pub fn plans_go_on()
    ensures { PlansGoOn }
{}

/// The newest exception that is handled was made.
pub fn newest_was_made()
    ensures { NewestWasMade }
{}
