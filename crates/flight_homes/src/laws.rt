// Laws of what a landing pad caught: calls of no effect, whose contracts state what holds of every well-formed program.
ghost use Rattle.flight_homes.specs.Binds.{BindsAreRight};
ghost use Rattle.flight_homes.specs.Filters.{FiltersAreNamed, FiltersFit};
ghost use Rattle.flight_homes.specs.First.{FirstStatesStand};
ghost use Rattle.flight_homes.specs.Helps.{BindsFit, SlotsAreHelp};
ghost use Rattle.flight_homes.specs.Laws.{HomesAreFound, ProgramsCarry};
ghost use Rattle.flight_homes.specs.LetsOn.{AllPadsLetOn};
ghost use Rattle.flight_homes.specs.Lives.{CodeIsKnown, HandlersTakeNothing, ProgramsKeepLives};
ghost use Rattle.flight_homes.specs.NewFrames.{NewFramesAreEmpty};
ghost use Rattle.flight_homes.specs.OpenCalls.{StepsKeepCalls};
ghost use Rattle.flight_homes.specs.WholeCalls.{StepsKeepWhole};
ghost use Rattle.flight_homes.specs.Whole.{BindsAreWhole, FramesStayWhole};

/// A landing pad lets on what it does not stop by a filter of its own, as the cover of its surroundings says.
pub fn all_pads_let_on()
    ensures { AllPadsLetOn }
{}

/// In a well-formed function the operations behind a landing pad say where it goes on outwards and which filters are still to be tested, and
/// what the pad's chain lets on, the cover of that place lets on.
pub fn homes_are_found()
    ensures { HomesAreFound }
{}

/// So it is in each function of a well-formed program, by what its filters mean there.
pub fn programs_carry()
    ensures { ProgramsCarry }
{}

/// In a well-formed function the slots that hold exceptions and selectors, and that of the result, are neither variables nor references.
pub fn slots_are_help()
    ensures { SlotsAreHelp }
{}

/// Where the regions of a well-formed function bind references only, any other bind is a handler's, of the exception's object itself.
pub fn binds_fit()
    ensures { BindsFit }
{}

/// Each filter of a function's tables is 0, the index of one of its types, or what says a byte of its lists.
pub fn filters_are_named()
    ensures { FiltersAreNamed }
{}

/// Each step of the machine keeps how open calls stand on one another, that terminate runs with a handler exactly where it waits for one, and
/// that no more calls are open than were at once; it never forgets how many were.
pub fn steps_keep_calls()
    ensures { StepsKeepCalls }
{}

/// The types, destructors and handlers that the operations of a well-formed program name are there, where each call that installs a handler is
/// given a function.
pub fn code_is_known()
    ensures { CodeIsKnown }
{}

/// What is known as a handler of a well-formed program is a function of its linear code, and takes nothing.
pub fn handlers_take_nothing()
    ensures { HandlersTakeNothing }
{}

/// Each step keeps that the types, destructors and kept handlers of live exceptions and the handlers in effect are there, and that exceptions
/// have numbers from 1 on.
pub fn programs_keep_lives()
    ensures { ProgramsKeepLives }
{}

/// A new call holds nothing in slots that are for help: what is passed goes to variables and references.
pub fn new_frames_are_empty()
    ensures { NewFramesAreEmpty }
{}

/// Where a function has few enough types and bytes of lists, its filters are ints.
pub fn filters_fit()
    ensures { FiltersFit }
{}

/// A slot for help that holds the address of an exception's object holds that of its first byte: operations, pads and values of calls keep that,
/// and new calls begin so.
pub fn frames_stay_whole()
    ensures { FramesStayWhole }
{}

/// Where the regions of a well-formed function bind references only, the operations of its linear code bind so.
pub fn binds_are_whole()
    ensures { BindsAreWhole }
{}

/// The state in which a program begins has calls that stand, and nothing live.
pub fn first_states_stand()
    ensures { FirstStatesStand }
{}

/// Each step keeps, in all open calls, that a slot for help with the address of an exception's object holds that of its first byte.
pub fn steps_keep_whole()
    ensures { StepsKeepWhole }
{}

/// In a well-formed function each bind is of a reference, or a handler's, of the exception's object itself.
pub fn binds_are_right()
    ensures { BindsAreRight }
{}
