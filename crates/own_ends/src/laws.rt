// Laws of the ends of the runtime's own functions: calls of no effect, whose contracts state what holds of every unit.
ghost use Rattle.own_ends.specs.Canceled.{CanceledLeaves};
ghost use Rattle.own_ends.specs.Destroying.{OwnDestructorsBegin, OwnDestructorsEnd};
ghost use Rattle.own_ends.specs.Left.{OwnHandlersLeft};
ghost use Rattle.own_ends.specs.Overflow.{DestructorsOverflow};
ghost use Rattle.own_ends.specs.Resumes.{CatchFreesOnTheWay, OwnFlightsGoOn};
ghost use Rattle.own_ends.specs.Unwinds.{OwnUnwindsEnd};

use machine_stubs::laws::{
    calls_are_made, end_catch_comes_back, end_catch_destroys, end_catch_frees, end_catch_runs,
    terminate_runs, unexpected_checks, unexpected_ends,
};
use raise_simulation::laws::forced_agree;
use runtime_invariant::laws::runs_keep_memory;
use stack_bounds::laws::functions_overflow;
use stub_landings::laws::{own_forced_lands, own_resumes_land};

/// Where a forced unwind comes out of the unexpected handler, both machines come to call_unexpected's second `leave`.
pub fn canceled_leaves()
    ensures { CanceledLeaves }
{
    unexpected_checks();
}

/// Where call_unexpected leaves a handler for whose exception no destructor is called, both machines come to behind its `leave`.
pub fn own_handlers_left()
    ensures { OwnHandlersLeft }
{
    unexpected_ends();
    end_catch_runs();
    calls_are_made();
    end_catch_comes_back();
    end_catch_frees();
}

/// Where call_unexpected leaves the last handler of an exception with a destructor, both machines come to the destructor.
pub fn own_destructors_begin()
    ensures { OwnDestructorsBegin }
{
    unexpected_ends();
    end_catch_destroys();
}

/// Where that destructor returns, both machines free the object and come to behind the `leave` of call_unexpected.
pub fn own_destructors_end()
    ensures { OwnDestructorsEnd }
{
    end_catch_destroys();
}

/// Where the stack has no room for the destructor, a run ends for want of stack; so it does where a compiled function leaves the handler.
pub fn destructors_overflow()
    ensures { DestructorsOverflow }
{
    unexpected_ends();
    end_catch_destroys();
    functions_overflow();
}

/// Where call_unexpected has left both handlers, it goes on with what is on its way, which comes to where the next state rests.
pub fn own_flights_go_on()
    ensures { OwnFlightsGoOn }
{
    unexpected_ends();
    runs_keep_memory();
    own_resumes_land();
    own_forced_lands();
}

/// Where something came out of a destructor that end_catch has called, both machines free the object, and go on with what is on its way.
pub fn catch_frees_on_the_way()
    ensures { CatchFreesOnTheWay }
{
    end_catch_runs();
    calls_are_made();
    runs_keep_memory();
    own_resumes_land();
    own_forced_lands();
}

/// Where a forced unwind goes on from end_catch or from call_unexpected and comes to no landing pad, both machines exit, or the terminate handler in
/// effect begins, or both abort.
pub fn own_unwinds_end()
    ensures { OwnUnwindsEnd }
{
    unexpected_ends();
    end_catch_runs();
    calls_are_made();
    runs_keep_memory();
    terminate_runs();
    forced_agree();
    functions_overflow();
}
