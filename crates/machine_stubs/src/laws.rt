// Laws of the runtime's own functions on the ABI machine: calls of no effect, whose contracts state what holds of every program.
ghost use Rattle.machine_stubs.specs.Calls.{CallsAreMade};
ghost use Rattle.machine_stubs.specs.CallUnexpected.{UnexpectedAnswers, UnexpectedBegins, UnexpectedChecks, UnexpectedEnds};
ghost use Rattle.machine_stubs.specs.ComesBack.{EndCatchComesBack};
ghost use Rattle.machine_stubs.specs.Destroys.{EndCatchDestroys};
ghost use Rattle.machine_stubs.specs.EndCatch.{EndCatchRuns};
ghost use Rattle.machine_stubs.specs.Frees.{EndCatchFrees};
ghost use Rattle.machine_stubs.specs.Start.{StartRuns};
ghost use Rattle.machine_stubs.specs.Terminate.{TerminateRuns};
ghost use Rattle.machine_stubs.specs.Terminates.{CallsTerminate};
ghost use Rattle.machine_stubs.specs.Words.{StubsStand};

/// Terminate calls its handler, if it has one, and aborts.
pub fn terminate_runs()
    ensures { TerminateRuns }
{}

/// End_catch leaves the newest handler, destroys and frees what it must, and returns, or resumes what came out of the destructor.
pub fn end_catch_runs()
    ensures { EndCatchRuns }
{}

/// Start calls the unit, and the run exits with what main gives.
pub fn start_runs()
    ensures { StartRuns }
{}

/// Where the words of a unit stand, the runtime's own functions stand in front of it.
pub fn stubs_stand()
    ensures { StubsStand }
{}

/// Call_unexpected enters the exception that was stopped and calls the unexpected handler, or terminates.
pub fn unexpected_begins()
    ensures { UnexpectedBegins }
{}

/// What comes out of the unexpected handler is entered, and the list is asked about it.
pub fn unexpected_checks()
    ensures { UnexpectedChecks }
{}

/// By the answer, what was thrown is thrown again, a bad_exception is thrown in its place, or the program terminates.
pub fn unexpected_answers()
    ensures { UnexpectedAnswers }
{}

/// What is thrown in the end leaves both exceptions and goes on.
pub fn unexpected_ends()
    ensures { UnexpectedEnds }
{}

/// A turn at an ECALL makes the runtime call of the number in a7.
pub fn calls_are_made()
    ensures { CallsAreMade }
{}

/// A call of end_catch comes back where the newest handler is not the last one of its exception.
pub fn end_catch_comes_back()
    ensures { EndCatchComesBack }
{}

/// A call of end_catch frees the object of an exception without a destructor that its last handler leaves, and comes back.
pub fn end_catch_frees()
    ensures { EndCatchFrees }
{}

/// A runtime call that terminates comes to the handler, or the run aborts.
pub fn calls_terminate()
    ensures { CallsTerminate }
{}

/// A call of end_catch comes to the destructor of an object that its last handler leaves, and behind it frees the object and comes back.
pub fn end_catch_destroys()
    ensures { EndCatchDestroys }
{}
