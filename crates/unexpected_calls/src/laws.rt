// Laws of call_unexpected in words: calls of no effect, whose contracts state what holds of every unit.
ghost use Rattle.unexpected_calls.specs.Allowed.{AllowedIsThrown};
ghost use Rattle.unexpected_calls.specs.Bad.{BadIsThrown};
ghost use Rattle.unexpected_calls.specs.BadDoomed.{BadIsDoomed};
ghost use Rattle.unexpected_calls.specs.Begins.{UnexpectedHandlersBegin};
ghost use Rattle.unexpected_calls.specs.Doomed.{AllowedIsDoomed};
ghost use Rattle.unexpected_calls.specs.Goes.{UnexpectedGoesOn};
ghost use Rattle.unexpected_calls.specs.Leaves.{UnexpectedLeaves};
ghost use Rattle.unexpected_calls.specs.ListKept.{ListsAreKept};
ghost use Rattle.unexpected_calls.specs.Lists.{ListsAnswer, TablesAreLow};
ghost use Rattle.unexpected_calls.specs.Overflow.{UnexpectedHandlersOverflow};
ghost use Rattle.unexpected_calls.specs.Refused.{UnexpectedRefuses};
ghost use Rattle.unexpected_calls.specs.TerminateOverflow.{TerminateHandlersOverflow};
ghost use Rattle.unexpected_calls.specs.Terminates.{UnexpectedTerminates};
ghost use Rattle.unexpected_calls.specs.Unlisted.{UnlistedTerminates};

use machine_stubs::laws::{
    calls_are_made, terminate_runs, unexpected_answers, unexpected_begins, unexpected_checks,
    unexpected_ends,
};
use raise_simulation::laws::raises_agree;
use runtime_invariant::laws::runs_keep_memory;
use stack_bounds::laws::functions_overflow;
use stub_landings::laws::{
    own_forced_lands, own_resumes_land, own_rethrows_land, own_throws_land, stub_stacks_stand,
};

/// Where a specification stops an exception, it is entered, and the unexpected handler kept with it begins.
pub fn unexpected_handlers_begin()
    ensures { UnexpectedHandlersBegin }
{
    calls_are_made();
    unexpected_begins();
}

/// Without an unexpected handler, and where that comes back, the terminate handler kept with the exception begins, or both machines abort.
pub fn unexpected_terminates()
    ensures { UnexpectedTerminates }
{
    calls_are_made();
    terminate_runs();
    unexpected_begins();
}

/// Call_unexpected leaves the handlers of the exceptions that it entered by calls of end_catch.
pub fn unexpected_leaves()
    ensures { UnexpectedLeaves }
{
    unexpected_checks();
    unexpected_ends();
}

/// Of an exception that comes out of the unexpected handler the list of the specification says on the ABI machine what it says in linear code.
pub fn lists_answer()
    ensures { ListsAnswer }
{}

/// Where neither what comes out of the handler nor bad_exception is listed, the terminate handler kept with the stopped exception begins, or both
/// machines abort.
pub fn unlisted_terminates()
    ensures { UnlistedTerminates }
{
    calls_are_made();
    terminate_runs();
    unexpected_checks();
    unexpected_answers();
    runs_keep_memory();
    lists_answer();
}

/// What comes out of the handler and is allowed is thrown again, and comes to where the next state rests.
pub fn allowed_is_thrown()
    ensures { AllowedIsThrown }
{
    calls_are_made();
    unexpected_checks();
    unexpected_answers();
    runs_keep_memory();
    lists_answer();
    own_rethrows_land();
}

/// What call_unexpected lets out goes on to where the next state rests.
pub fn unexpected_goes_on()
    ensures { UnexpectedGoesOn }
{
    unexpected_ends();
    runs_keep_memory();
    own_resumes_land();
    own_forced_lands();
}

/// What is allowed is thrown again; where nothing stops it, the terminate handler kept with it begins, or both machines abort.
pub fn allowed_is_doomed()
    ensures { AllowedIsDoomed }
{
    calls_are_made();
    terminate_runs();
    unexpected_checks();
    unexpected_answers();
    runs_keep_memory();
    lists_answer();
    stub_stacks_stand();
    raises_agree();
}

/// In place of what is not allowed a bad_exception is thrown, where that is listed, and comes to where the next state rests.
pub fn bad_is_thrown()
    ensures { BadIsThrown }
{
    calls_are_made();
    unexpected_checks();
    unexpected_answers();
    runs_keep_memory();
    lists_answer();
    own_throws_land();
}

/// Where a foreign exception comes out of the handler while another is handled, and where no bad_exception can be made, the terminate handler in effect
/// begins, or both machines abort.
pub fn unexpected_refuses()
    ensures { UnexpectedRefuses }
{
    calls_are_made();
    terminate_runs();
    unexpected_checks();
    unexpected_answers();
    runs_keep_memory();
    lists_answer();
}

/// Where nothing stops the bad_exception that is thrown, the terminate handler in effect begins, or both machines abort.
pub fn bad_is_doomed()
    ensures { BadIsDoomed }
{
    calls_are_made();
    terminate_runs();
    unexpected_checks();
    unexpected_answers();
    runs_keep_memory();
    lists_answer();
    stub_stacks_stand();
    raises_agree();
}

/// Where the unexpected handler finds no room for its frame, the run ends for want of stack.
pub fn unexpected_handlers_overflow()
    ensures { UnexpectedHandlersOverflow }
{
    calls_are_made();
    unexpected_begins();
    functions_overflow();
}

/// What call_unexpected keeps behind its first pad names a list of a function of the unit, which is in a chain of its sites.
pub fn lists_are_kept()
    ensures { ListsAreKept }
{}

/// The addresses of exception tables have 64 bits.
pub fn tables_are_low()
    ensures { TablesAreLow }
{}

/// So it ends where a terminate handler finds no room below call_unexpected.
pub fn terminate_handlers_overflow()
    ensures { TerminateHandlersOverflow }
{
    calls_are_made();
    terminate_runs();
    unexpected_begins();
    unexpected_checks();
    unexpected_answers();
    runs_keep_memory();
    lists_answer();
    stub_stacks_stand();
    raises_agree();
    functions_overflow();
}
