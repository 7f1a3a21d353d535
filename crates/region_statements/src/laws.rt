// Laws of lowering: calls of no effect, whose contracts state what holds of every program.
ghost use Rattle.region_statements.specs.Calls.{FunctionsRunAlike, MethodsRunAlike};
ghost use Rattle.region_statements.specs.Declarations.{IntsStandSet, IntsStandUnset, ReferencesAreBound};
ghost use Rattle.region_statements.specs.Fueled.{FuelLasts};
ghost use Rattle.region_statements.specs.Jumps.{JumpsStayInLoops};
ghost use Rattle.region_statements.specs.Main.{MainRunsAlike};
ghost use Rattle.region_statements.specs.Members.{ConstructorsRunAlike, CopyConstructorsRunAlike, DefaultConstructorsRunAlike, DestructorsRunAlike, ImplicitDestructorsRunAlike};
ghost use Rattle.region_statements.specs.Objects.{ObjectsDoAlike};
ghost use Rattle.region_statements.specs.Parts.{PartsBuildAlike, PartsDestroyAlike};
ghost use Rattle.region_statements.specs.Programs.{CallsDoAlike, ProgramsMeanTheSame};
ghost use Rattle.region_statements.specs.Sequences.{BlocksAreHeld, BranchesDecide, BreaksLeave, ContinuesLeave, DroppedValuesGoOn, EffectsGoOn, LoopsTurn, ReturnsLeave, SequencesFollow, ValuesReturn};
ghost use Rattle.region_statements.specs.Statements.{StatementsDoAlike};
ghost use Rattle.region_statements.specs.Whole.{AllCallsDoAlike, RegionsMeanTheSame};

/// Every typed statement, wherever it stands, is lowered to regions that do what it does: with calls that do the same, and with throws, try
/// blocks, local objects and the two built-in functions that may terminate or raise that do.
pub fn statements_do_alike()
    ensures { StatementsDoAlike }
{}

/// A local int without a value stands at its slot, unset: nothing is said of the bytes there.
pub fn ints_stand_unset()
    ensures { IntsStandUnset }
{}

/// A local int with a value stands at its slot, which holds the value, as long as its scope lasts.
pub fn ints_stand_set()
    ensures { IntsStandSet }
{}

/// The slot of a local reference gets the address of what the reference is bound to.
pub fn references_are_bound()
    ensures { ReferencesAreBound }
{}

/// Where regions do what a statement does, and others what the rest of its block does, the one before the others do what the statement and then
/// the rest does: unless the flow breaks, continues or returns. What was declared in scopes that are left stands nowhere by then, so its slots
/// may be used again.
pub fn sequences_follow()
    ensures { SequencesFollow }
{}

/// A block is one region that holds those of its statements.
pub fn blocks_are_held()
    ensures { BlocksAreHeld }
{}

/// Regions that do what an action does and go on normally may stand before those of the rest.
pub fn effects_go_on()
    ensures { EffectsGoOn }
{}

/// An expression that is evaluated for its effects alone: regions that drop its value do what those do that store it.
pub fn dropped_values_go_on()
    ensures { DroppedValuesGoOn }
{}

/// `if`: the value of a test decides which of two regions is done.
pub fn branches_decide()
    ensures { BranchesDecide }
{}

/// `while`: each turn of the source is one of the regions and spends one in both, with the test before the body or, where it makes calls, in it.
pub fn loops_turn()
    ensures { LoopsTurn }
{}

/// `break` goes to the end of the loop's region.
pub fn breaks_leave()
    ensures { BreaksLeave }
{}

/// `continue` goes to the end of the region of the loop's body.
pub fn continues_leave()
    ensures { ContinuesLeave }
{}

/// `return;` goes out of every region of the function.
pub fn returns_leave()
    ensures { ReturnsLeave }
{}

/// `return` with a value stores it in the result's slot, and goes out of every region of the function.
pub fn values_return()
    ensures { ValuesReturn }
{}

/// A call of a function of the program that is not main does what the call of its regions does, with one unit of fuel more than the calls in it:
/// it is too deep for both or spends a turn, its parameters stand at the slots of a new call, its body's flow gives its value, and for the
/// caller, whose frame runs again, no variable of the call stands any more.
pub fn functions_run_alike()
    ensures { FunctionsRunAlike }
{}

/// So does a call of a function of a class, which is passed the address of its object first.
pub fn methods_run_alike()
    ensures { MethodsRunAlike }
{}

/// Calls do the same with any fuel, where each does with one unit more than those in it.
pub fn calls_do_alike()
    ensures { CallsDoAlike }
{}

/// Where the call of main does the same, the regions of a program mean what the program means: the same items and the same end, the same
/// greatest number of open calls, and the same replies left. Of a source that comes to what is undefined nothing is said.
pub fn programs_mean_the_same()
    ensures { ProgramsMeanTheSame }
{}

/// The parts of an object are built in order, each as it does by itself, where what is done between a part's completion and the object's does
/// the same in a region that the part's destruction protects.
pub fn parts_build_alike()
    ensures { PartsBuildAlike }
{}

/// What is done in the scopes of the parts of an object, which are destroyed in reverse order, does the same where each scope does.
pub fn parts_destroy_alike()
    ensures { PartsDestroyAlike }
{}

/// A call of a declared constructor does what the call of its regions does: each part is built by its initialiser, whatever the order of these,
/// or by default, and then the body is done.
pub fn constructors_run_alike()
    ensures { ConstructorsRunAlike }
{}

/// So does a call of an implicit default constructor, which sets ints to 0 and builds every other part by default.
pub fn default_constructors_run_alike()
    ensures { DefaultConstructorsRunAlike }
{}

/// So does a call of an implicit copy constructor, which copies each part.
pub fn copy_constructors_run_alike()
    ensures { CopyConstructorsRunAlike }
{}

/// So does a call of a declared destructor, whose body is done in the scope of the parts.
pub fn destructors_run_alike()
    ensures { DestructorsRunAlike }
{}

/// So does a call of an implicit destructor.
pub fn implicit_destructors_run_alike()
    ensures { ImplicitDestructorsRunAlike }
{}

/// A call of main does the same, where its regions store 0 behind those of its body: flowing off its end is returning 0.
pub fn main_runs_alike()
    ensures { MainRunsAlike }
{}

/// Every call of a typed program does what the call of its regions does, with any fuel, where the forms that raise exceptions, or clean up behind
/// them, do the same in each function.
pub fn all_calls_do_alike()
    ensures { AllCallsDoAlike }
{}

/// So the regions of a typed program mean what the program means, for every input, all replies of modules, every number of turns and every limit
/// of open calls.
pub fn regions_mean_the_same()
    ensures { RegionsMeanTheSame }
{}

/// No `break` and no `continue` comes out of a function's body where each stands in a loop, whatever is thrown, caught and unexpected.
pub fn jumps_stay_in_loops()
    ensures { JumpsStayInLoops }
{}

/// Calls of a source with fuel above the turns that are left are what they are where nothing is said once fuel runs out: it does not.
pub fn fuel_lasts()
    ensures { FuelLasts }
{}

/// A local object of a class is built in its slot by the constructor that its arguments select, and what follows is done in its scope, where what
/// is done in such a scope does the same.
pub fn objects_do_alike()
    ensures { ObjectsDoAlike }
{}
