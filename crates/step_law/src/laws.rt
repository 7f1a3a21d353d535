// The step law: calls of no effect, whose contracts state what holds of every checked program.
ghost use Rattle.step_law.specs.Barred.{BarredFollow};
ghost use Rattle.step_law.specs.Breaks.{BreaksFollow};
ghost use Rattle.step_law.specs.Complete.{CheckedImagesAreCompiled, CheckedImagesGoOn, CheckedImagesHaveEnough};
ghost use Rattle.step_law.specs.Dooms.{DoomsFollow};
ghost use Rattle.step_law.specs.Facts.{FactsStand};
ghost use Rattle.step_law.specs.Filters.{FiltersFollow};
ghost use Rattle.step_law.specs.Forced.{CancelsFollow, ForcedFollow};
ghost use Rattle.step_law.specs.ForcedEnds.{ForcedEndsFollow};
ghost use Rattle.step_law.specs.Handled.{ChecksFollow};
ghost use Rattle.step_law.specs.Leaves.{DestructorsBeginFollow, DestructorsEndFollow, LeavesFollow};
ghost use Rattle.step_law.specs.Modules.{ModulesFollow};
ghost use Rattle.step_law.specs.Own.{FreedFlightsFollow, PassedFlightsFollow};
ghost use Rattle.step_law.specs.OwnLeaves.{OwnDestructorsBeginFollow, OwnDestructorsEndFollow, OwnLeavesFollow};
ghost use Rattle.step_law.specs.OwnUnwindEnds.{OwnBarredFollow, OwnUnwindsEndFollow};
ghost use Rattle.step_law.specs.OwnUnwinds.{FreedUnwindsFollow, PassedUnwindsFollow};
ghost use Rattle.step_law.specs.Passing.{StoppedTerminates, UnexpectedReturns};
ghost use Rattle.step_law.specs.Raises.{RaisesAreAsked, ResumesFollow};
ghost use Rattle.step_law.specs.RethrowDooms.{RethrowDoomsFollow};
ghost use Rattle.step_law.specs.Rows.{AbortsFollow, AnswersFollow, BytesFollow, CallsFollow, EntersFollow, ExitsFollow, FreesFollow, HandlersAbort, LinesFollow, MainsFollow, MakesFollow, QuietStepsFollow, ReturnsFollow};
ghost use Rattle.step_law.specs.Starts.{StartsStand};
ghost use Rattle.step_law.specs.Terminates.{CrowdsFollow, TerminatesFollow};
ghost use Rattle.step_law.specs.Thrown.{AllowedFollows, BadFollows, OutOfHandlerBreaks, OutOfHandlerIsCrowded, UnlistedFollows};
ghost use Rattle.step_law.specs.Throws.{RethrowsFollow, ThrowsFollow};
ghost use Rattle.step_law.specs.Unexpected.{UnexpectedBreaks, UnexpectedFollows};

use builtin_calls::laws::builtin_calls_fit;
use compiled_runs::laws::{images_are_compiled, images_have_enough};
use handler_overflows::laws::{
    dooms_overflow, forced_unwinds_overflow, modules_overflow, rethrows_overflow,
    terminates_overflow,
};
use machine_exceptions::laws::{
    answers_run, destructors_begin, destructors_end, enters_run, filters_run, frees_run,
    leaves_run, makes_run, terminates_run,
};
use machine_raises::laws::dooms_run;
use machine_simulation::laws::{
    bytes_run, calls_run, exits_end, lines_run, mains_end, operations_run, returns_run,
};
use own_ends::laws::{
    canceled_leaves, catch_frees_on_the_way, destructors_overflow, own_destructors_begin,
    own_destructors_end, own_flights_go_on, own_handlers_left, own_unwinds_end,
};
use raise_ends::laws::{
    dooms_abort, forced_unwinds_exit, forced_unwinds_terminate, modules_are_refused_when_full,
    modules_doom, rethrows_doom,
};
use raise_premises::laws::{
    checked_filters_are_ints, checked_jumps_are_ints, checked_pads_are_plain,
};
use source_bounds::laws::checked_is_linkable;
use stack_bounds::laws::{calls_overflow, checked_frames_are_small, stacks_hold_calls};
use stub_landings::laws::{
    cancels_land, forced_lands, modules_land, resumes_land, rethrows_land, throws_land,
};
use unexpected_calls::laws::{
    allowed_is_doomed, allowed_is_thrown, bad_is_doomed, bad_is_thrown,
    terminate_handlers_overflow, unexpected_handlers_begin, unexpected_handlers_overflow,
    unexpected_refuses, unexpected_terminates, unlisted_terminates,
};

/// All that is asked of a program and of its image is so of every checked program and of each file that is read as its image.
pub fn facts_stand()
    ensures { FactsStand }
{
    checked_pads_are_plain();
    checked_filters_are_ints();
    checked_jumps_are_ints();
    checked_frames_are_small();
}

/// From a state that stands, an operation that does nothing outside its call leads to one that stands, or is not defined.
pub fn quiet_steps_follow()
    ensures { QuietStepsFollow }
{
    operations_run();
}

/// So does one that writes a line, which both machines show.
pub fn lines_follow()
    ensures { LinesFollow }
{
    lines_run();
}

/// So does one that reads a byte, or finds the end of the input.
pub fn bytes_follow()
    ensures { BytesFollow }
{
    bytes_run();
}

/// A call of a compiled function begins on both machines alike, or the run is over for want of stack, with 4,096 calls open.
pub fn calls_follow()
    ensures { CallsFollow }
{
    calls_run();
    calls_overflow();
    stacks_hold_calls();
}

/// A call of a compiled function returns to another on both machines alike.
pub fn returns_follow()
    ensures { ReturnsFollow }
{
    returns_run();
}

/// Where main returns, both machines exit with the same number.
pub fn mains_follow()
    ensures { MainsFollow }
{
    mains_end();
}

/// So they do where exit is called.
pub fn exits_follow()
    ensures { ExitsFollow }
{
    exits_end();
}

/// The first state of a run stands, where main begins on the machine.
pub fn starts_stand()
    ensures { StartsStand }
{}

/// Where an exception is made and there is room for it, both machines make it, in whatever slot.
pub fn makes_follow()
    ensures { MakesFollow }
{
    makes_run();
}

/// Where an exception is given back that is being built, both machines free it, or that is not defined.
pub fn frees_follow()
    ensures { FreesFollow }
{
    frees_run();
}

/// Where a handler begins that does not terminate, both machines enter the exception, or that is not defined.
pub fn enters_follow()
    ensures { EntersFollow }
{
    enters_run();
}

/// Where it is asked whether an exception travels, and where a handler is set, both machines answer alike.
pub fn answers_follow()
    ensures { AnswersFollow }
{
    answers_run();
}

/// Where the program terminates at once and no handler is called, both machines abort.
pub fn aborts_follow()
    ensures { AbortsFollow }
{
    terminates_run();
}

/// So they do where terminate's handler returns.
pub fn handlers_abort()
    ensures { HandlersAbort }
{
    terminates_run();
}

/// In a state that stands all is so that the laws of raises ask: of throws, of what is thrown again, and of what goes on outwards.
pub fn raises_are_asked()
    ensures { RaisesAreAsked }
{}

/// Where an exception goes on behind a cleanup, both machines come to the same landing pad.
pub fn resumes_follow()
    ensures { ResumesFollow }
{
    resumes_land();
}

/// At a jump on a filter both machines jump or go on alike.
pub fn filters_follow()
    ensures { FiltersFollow }
{
    filters_run();
}

/// Where the program terminates at once and a handler is in effect, it begins on both machines alike, or the run is over for want of stack, with 4,096
/// calls open.
pub fn terminates_follow()
    ensures { TerminatesFollow }
{
    terminates_run();
    terminates_overflow();
    stacks_hold_calls();
}

/// So it is where a foreign exception is entered while another is handled; without a handler, or while one runs, both machines abort.
pub fn crowds_follow()
    ensures { CrowdsFollow }
{
    terminates_run();
    terminates_overflow();
    stacks_hold_calls();
}

/// Where an exception is thrown that nothing stops, terminate's handler begins on both machines alike, or finds no room, or both machines abort.
pub fn dooms_follow()
    ensures { DoomsFollow }
{
    dooms_run();
    dooms_abort();
    dooms_overflow();
    stacks_hold_calls();
}

/// So it is where the newest exception that is handled is thrown again, and nothing stops it.
pub fn rethrow_dooms_follow()
    ensures { RethrowDoomsFollow }
{
    rethrows_doom();
    rethrows_overflow();
    stacks_hold_calls();
}

/// Where an exception came out of a destructor that end_catch called, both machines free the object of that, and the exception comes to the same
/// landing pad.
pub fn freed_flights_follow()
    ensures { FreedFlightsFollow }
{
    catch_frees_on_the_way();
}

/// So it does where call_unexpected has left both handlers, and an exception goes on.
pub fn passed_flights_follow()
    ensures { PassedFlightsFollow }
{
    own_flights_go_on();
}

/// Where a specification stopped an exception with which an unexpected handler is kept, that begins on both machines alike, or the run is over for want
/// of stack, with 4,096 calls open.
pub fn unexpected_follows()
    ensures { UnexpectedFollows }
{
    unexpected_handlers_begin();
    unexpected_handlers_overflow();
    stacks_hold_calls();
}

/// Where it stopped what may not be entered, what follows is not defined.
pub fn unexpected_breaks()
    ensures { UnexpectedBreaks }
{}

/// A step that comes to what is not defined, or to a fault, needs nothing of the ABI machine.
pub fn breaks_follow()
    ensures { BreaksFollow }
{}

/// Where an exception is thrown, both machines come to the same landing pad; or nothing stops it, and they go on as that says.
pub fn throws_follow()
    ensures { ThrowsFollow }
{
    throws_land();
    dooms_follow();
}

/// So they do where the newest exception that is handled is thrown again, or none is.
pub fn rethrows_follow()
    ensures { RethrowsFollow }
{
    rethrows_land();
    rethrow_dooms_follow();
    aborts_follow();
    terminates_follow();
}

/// Where a module is called, both machines get the same value, or come to the same landing pad with the exception that it raises; or terminate's handler
/// begins on both alike, or finds no room, or both abort.
pub fn modules_follow()
    ensures { ModulesFollow }
{
    answers_run();
    modules_land();
    modules_doom();
    modules_are_refused_when_full();
    modules_overflow();
    stacks_hold_calls();
}

/// Where a handler is left and no destructor is called, both machines leave it, and clean up or free the exception that it was the last to have.
pub fn leaves_follow()
    ensures { LeavesFollow }
{
    leaves_run();
}

/// Where the exception has a destructor, that begins on both machines, or the run is over for want of stack, with 4,096 calls open.
pub fn destructors_begin_follow()
    ensures { DestructorsBeginFollow }
{
    destructors_begin();
    destructors_overflow();
    stacks_hold_calls();
}

/// Where it returns, both machines free the exception and go on behind the handler, in the function that left it.
pub fn destructors_end_follow()
    ensures { DestructorsEndFollow }
{
    destructors_end();
}

/// Where a forced unwind goes on behind a cleanup and comes to a landing pad, both machines come to the same.
pub fn forced_follow()
    ensures { ForcedFollow }
{
    forced_lands();
}

/// So they do where one begins.
pub fn cancels_follow()
    ensures { CancelsFollow }
{
    cancels_land();
}

/// Where a forced unwind comes to no landing pad, both machines exit with its number, or abort where no terminate handler is called.
pub fn forced_ends_follow()
    ensures { ForcedEndsFollow }
{
    forced_unwinds_exit();
    forced_unwinds_terminate();
}

/// Where a forced unwind comes to a call out of which nothing may come, the terminate handler in effect begins on both machines, below the frames
/// that were left, or the run is over for want of stack, with 4,096 calls open.
pub fn barred_follow()
    ensures { BarredFollow }
{
    forced_unwinds_terminate();
    forced_unwinds_overflow();
    stacks_hold_calls();
}

/// Where call_unexpected has left both handlers and goes on with a forced unwind, which comes to a landing pad, both machines come to the same.
pub fn passed_unwinds_follow()
    ensures { PassedUnwindsFollow }
{
    own_flights_go_on();
}

/// So they do where it came out of a destructor that end_catch called, which frees its object.
pub fn freed_unwinds_follow()
    ensures { FreedUnwindsFollow }
{
    catch_frees_on_the_way();
}

/// Where call_unexpected leaves a handler and no destructor is called, both machines come to behind its `leave`.
pub fn own_leaves_follow()
    ensures { OwnLeavesFollow }
{
    own_handlers_left();
    canceled_leaves();
}

/// Where a destructor is called there, it begins on both machines, or the run is over for want of stack, with 4,096 calls open.
pub fn own_destructors_begin_follow()
    ensures { OwnDestructorsBeginFollow }
{
    own_destructors_begin();
    destructors_overflow();
    stacks_hold_calls();
    canceled_leaves();
}

/// Where it returns, both machines free the exception and go on behind the `leave` of call_unexpected.
pub fn own_destructors_end_follow()
    ensures { OwnDestructorsEndFollow }
{
    own_destructors_end();
}
/// Where no unexpected handler is kept with what a specification stopped, the terminate handler kept with it begins on both machines alike, or the run is
/// over for want of stack, with 4,096 calls open, or both machines abort.
pub fn stopped_terminates()
    ensures { StoppedTerminates }
{
    unexpected_terminates();
    terminate_handlers_overflow();
    stacks_hold_calls();
}

/// So it is where an unexpected handler returns.
pub fn unexpected_returns()
    ensures { UnexpectedReturns }
{
    unexpected_terminates();
    terminate_handlers_overflow();
    stacks_hold_calls();
}

/// Where a forced unwind goes on from end_catch or call_unexpected and comes to no landing pad, both machines exit with its number, or abort where no
/// terminate handler is called.
pub fn own_unwinds_end_follow()
    ensures { OwnUnwindsEndFollow }
{
    own_unwinds_end();
    catch_frees_on_the_way();
}

/// Where the terminate handler in effect is called there, it begins below the frames that were left, or finds no room with 4,096 calls open.
pub fn own_barred_follow()
    ensures { OwnBarredFollow }
{
    own_unwinds_end();
    catch_frees_on_the_way();
    stacks_hold_calls();
}
/// Where what comes out of an unexpected handler may not be entered, what follows is not defined.
pub fn out_of_handler_breaks()
    ensures { OutOfHandlerBreaks }
{}

/// Where it is foreign while another is handled, the terminate handler in effect begins on both machines alike, or the run is over for want of stack,
/// with 4,096 calls open, or both machines abort.
pub fn out_of_handler_is_crowded()
    ensures { OutOfHandlerIsCrowded }
{
    unexpected_refuses();
    terminate_handlers_overflow();
    stacks_hold_calls();
}

/// So it is with the terminate handler kept with what the specification stopped, where the list neither allows it nor has bad_exception.
pub fn unlisted_follows()
    ensures { UnlistedFollows }
{
    unlisted_terminates();
    terminate_handlers_overflow();
    stacks_hold_calls();
}

/// Where the list allows it, it is thrown again, and comes to the same landing pad on both machines, or its terminate handler is called.
pub fn allowed_follows()
    ensures { AllowedFollows }
{
    allowed_is_thrown();
    allowed_is_doomed();
    terminate_handlers_overflow();
    stacks_hold_calls();
}

/// Where bad_exception is listed, one is thrown in its place, which comes to the same landing pad on both machines; or the terminate handler in effect is
/// called, where nothing stops it and where none can be made.
pub fn bad_follows()
    ensures { BadFollows }
{
    bad_is_thrown();
    bad_is_doomed();
    unexpected_refuses();
    terminate_handlers_overflow();
    stacks_hold_calls();
}

/// Behind its first pad call_unexpected goes on, whatever came out of the unexpected handler, as far as what the specification stopped is handled still.
pub fn checks_follow()
    ensures { ChecksFollow }
{
    out_of_handler_breaks();
    out_of_handler_is_crowded();
    unlisted_follows();
    allowed_follows();
    bad_follows();
    own_leaves_follow();
    own_destructors_begin_follow();
}

/// In the image of a checked program steps of linear code go on as turns from where main begins.
pub fn checked_images_go_on()
    ensures { CheckedImagesGoOn }
{
    facts_stand();
    starts_stand();
    quiet_steps_follow();
    lines_follow();
    bytes_follow();
    calls_follow();
    returns_follow();
    mains_follow();
    exits_follow();
    makes_follow();
    frees_follow();
    enters_follow();
    crowds_follow();
    answers_follow();
    aborts_follow();
    terminates_follow();
    handlers_abort();
    throws_follow();
    rethrows_follow();
    modules_follow();
    leaves_follow();
    destructors_begin_follow();
    destructors_end_follow();
    filters_follow();
    resumes_follow();
    forced_follow();
    cancels_follow();
    forced_ends_follow();
    barred_follow();
    unexpected_follows();
    unexpected_breaks();
    breaks_follow();
    stopped_terminates();
    unexpected_returns();
    own_destructors_end_follow();
    freed_flights_follow();
    freed_unwinds_follow();
    passed_flights_follow();
    passed_unwinds_follow();
    own_unwinds_end_follow();
    own_barred_follow();
    checks_follow();
    own_leaves_follow();
    own_destructors_begin_follow();
    builtin_calls_fit();
    checked_is_linkable();
}

/// The image of a checked program is the compiled program: what its runs show, and how they end, is what the program means.
pub fn checked_images_are_compiled()
    ensures { CheckedImagesAreCompiled }
{
    checked_images_go_on();
    images_are_compiled();
}

/// So many instructions are enough for its runs: they come to the end of what the program means with fewer turns, or show all that it shows with these.
pub fn checked_images_have_enough()
    ensures { CheckedImagesHaveEnough }
{
    checked_images_go_on();
    images_have_enough();
}
