// Laws of operations on exceptions: calls of no effect, whose contracts state what holds of every program.
ghost use Rattle.machine_exceptions.specs.Answers.{AnswersRun};
ghost use Rattle.machine_exceptions.specs.Destroys.{DestructorsBegin, DestructorsEnd};
ghost use Rattle.machine_exceptions.specs.Enters.{EntersRun};
ghost use Rattle.machine_exceptions.specs.Filters.{FiltersRun};
ghost use Rattle.machine_exceptions.specs.Frees.{FreesRun};
ghost use Rattle.machine_exceptions.specs.Leaves.{LeavesRun};
ghost use Rattle.machine_exceptions.specs.Makes.{MakesRun};
ghost use Rattle.machine_exceptions.specs.Terminates.{TerminatesRun};
ghost use Rattle.machine_exceptions.specs.Unexpected.{UnexpectedCalled};

use machine_pieces::laws::{calls_are_turns, places_are_written};
use machine_stubs::laws::{
    calls_are_made, calls_terminate, end_catch_comes_back, end_catch_destroys, end_catch_frees,
    end_catch_runs, terminate_runs,
};

/// An exception object that is being built is given back on the ABI machine as on the machine for linear code.
pub fn frees_run()
    ensures { FreesRun }
{
    calls_are_turns();
    calls_are_made();
}

/// An exception that travels is entered on the ABI machine as on the machine for linear code.
pub fn enters_run()
    ensures { EntersRun }
{
    calls_are_turns();
    calls_are_made();
}

/// An exception object is made on the ABI machine as on the machine for linear code, in whatever vacant slot.
pub fn makes_run()
    ensures { MakesRun }
{
    calls_are_turns();
    calls_are_made();
}

/// A handler is left on the ABI machine as on the machine for linear code, where no destructor is called for its exception.
pub fn leaves_run()
    ensures { LeavesRun }
{
    end_catch_runs();
    calls_are_made();
    end_catch_comes_back();
    end_catch_frees();
}

/// Where a handler is left whose exception has a destructor, both machines come to the destructor.
pub fn destructors_begin()
    ensures { DestructorsBegin }
{
    end_catch_destroys();
}

/// Where a destructor of an exception's object returns, both machines free the object and come to behind the handler that was left.
pub fn destructors_end()
    ensures { DestructorsEnd }
{
    end_catch_destroys();
}

/// A jump on a filter goes on the ABI machine where it goes on the machine for linear code.
pub fn filters_run()
    ensures { FiltersRun }
{}

/// Whether an exception travels is answered, a handler is set, and a module answers with a value, on the ABI machine as on the machine for
/// linear code.
pub fn answers_run()
    ensures { AnswersRun }
{
    places_are_written();
    calls_are_turns();
    calls_are_made();
}

/// Where the program terminates, the handler begins on the ABI machine as on the machine for linear code, or the run aborts on both.
pub fn terminates_run()
    ensures { TerminatesRun }
{
    calls_are_turns();
    calls_terminate();
    terminate_runs();
}

/// Where a specification stops an exception, the ABI machine comes to the first word of call_unexpected, with what the machine for linear code passes.
pub fn unexpected_called()
    ensures { UnexpectedCalled }
{}
