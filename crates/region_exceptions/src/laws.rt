// Laws of exceptions in lowered programs: calls of no effect, whose contracts state what holds of every program.
ghost use Rattle.region_exceptions.specs.Catches.{HandlersCatchAlike, TryBlocksDoAlike};
ghost use Rattle.region_exceptions.specs.Copies.{CopiesAlike};
ghost use Rattle.region_exceptions.specs.Doomed.{CheckedClassesAreOrdered, DoomedAlike};
ghost use Rattle.region_exceptions.specs.Ends.{TerminatesAlike};
ghost use Rattle.region_exceptions.specs.Exceptions.{AllPlacesLead, AllThrowsDoAlike, AllTriesDoAlike, ScopesDoAlike};
ghost use Rattle.region_exceptions.specs.Extents.{AllExtentsDoAlike, BadExceptionsAlike, ExtentsAlike, ExtentsDoAlike};
ghost use Rattle.region_exceptions.specs.Fares.{AllCallsFare, FaringCallsAreBarred};
ghost use Rattle.region_exceptions.specs.Handlers.{EntersAlike, HandlersEndAlike};
ghost use Rattle.region_exceptions.specs.Operands.{OperandsThrowAlike};
ghost use Rattle.region_exceptions.specs.Raises.{AllExpressionsEvaluate, EntriesStaySound, ModulesAnswerAlike, RaisesAlike};
ghost use Rattle.region_exceptions.specs.Scopes.{BarriersAlike, DestroysAlike, ProtectsAlike, ScopesEndAlike};
ghost use Rattle.region_exceptions.specs.Throws.{RethrowsAlike, ThrowsAlike};
ghost use Rattle.region_exceptions.specs.Tries.{TriesAlike};

use region_forms::laws::caught_list_follows;

/// In a checked program there is a class, `std::bad_exception`, and the parts of each class are of classes before it.
pub fn checked_classes_are_ordered()
    ensures { CheckedClassesAreOrdered }
{}

/// Where classes stand behind those of their parts, clauses match, specifications allow and guards doom in regions exactly the exceptions that they do in
/// the source.
pub fn doomed_alike()
    ensures { DoomedAlike }
{}

/// Terminate ends alike: with a handler, which may come back or not, without one, and while a handler runs.
pub fn terminates_alike()
    ensures { TerminatesAlike }
{}

/// An exception that is entered leaves what is handled and what travels sound, where it has no handler beneath those of others.
pub fn entries_stay_sound()
    ensures { EntriesStaySound }
{}

/// An exception is raised alike: where it is doomed, terminate is called before anything else, in a handler of it if it is native; any other
/// begins to travel.
pub fn raises_alike()
    ensures { RaisesAlike }
{
    caught_list_follows();
}

/// The built-in functions that may raise or terminate do the same: a module answers with its next reply, which may raise a foreign exception, or
/// terminate where as many exceptions are live as can be.
pub fn modules_answer_alike()
    ensures { ModulesAnswerAlike }
{
    caught_list_follows();
}

/// So every typed expression is lowered to what it means, where calls do the same.
pub fn all_expressions_evaluate()
    ensures { AllExpressionsEvaluate }
{
    caught_list_follows();
}

/// What is done behind a barrier comes out alike, and neither an exception nor a forced unwind does: a forced unwind calls terminate there.
pub fn barriers_alike()
    ensures { BarriersAlike }
{}

/// A scope ends alike, whatever is done in it and at its end, and so does what is built between a part and its object: what was built is destroyed
/// in a normal exit of the scope, and behind a barrier where an exception or a forced unwind comes out.
pub fn scopes_end_alike()
    ensures { ScopesEndAlike }
{}

/// An object is destroyed alike, in a place that leads to it.
pub fn destroys_alike()
    ensures { DestroysAlike }
{}

/// A region that is protected by the destruction of an object does what a scope of the object does, or the building of an object that it is a part
/// of, over whatever is done inside.
pub fn protects_alike()
    ensures { ProtectsAlike }
{}

/// An exception that travels is entered alike, and then is handled; entering a foreign one while another is handled calls terminate.
pub fn enters_alike()
    ensures { EntersAlike }
{
    caught_list_follows();
}

/// What is done while an exception is handled comes out alike with the leaving behind it: the exception is kept where another handler of it is
/// entered or it travels again, and else it is destroyed and freed, or cleaned up by its module; behind a barrier where another exception or a
/// forced unwind comes out.
pub fn handlers_end_alike()
    ensures { HandlersEndAlike }
{
    caught_list_follows();
}

/// An object of a type of the program is thrown alike, over whatever builds it: an exception object is made, built, kept as one of its type, and raised. It is freed where
/// building exits by an exception or a forced unwind; where as many exceptions are live as can be, terminate is called.
pub fn throws_alike()
    ensures { ThrowsAlike }
{
    caught_list_follows();
}

/// The newest handled exception is thrown again alike; where none is handled, or it travels, terminate is called.
pub fn rethrows_alike()
    ensures { RethrowsAlike }
{
    caught_list_follows();
}

/// An object is copied alike behind a barrier, by its class's copy constructor, declared or not.
pub fn copies_alike()
    ensures { CopiesAlike }
{}

/// `throw` does the same with each operand that can be thrown, an int, an object that is built from arguments or a copy of what names stand for,
/// and without one.
pub fn operands_throw_alike()
    ensures { OperandsThrowAlike }
{
    caught_list_follows();
}

/// A try block does the same, over whatever is done in it and whatever its clauses do with an exception that comes out.
pub fn tries_alike()
    ensures { TriesAlike }
{}

/// Handlers catch alike: the first whose clause matches is entered, with its parameter, a copy behind a barrier that is destroyed when the body is
/// left, an int, or a reference to the exception's object or its base; where none matches, the exception travels on.
pub fn handlers_catch_alike()
    ensures { HandlersCatchAlike }
{
    caught_list_follows();
}

/// A try block of statements with handlers does the same, where each exception that comes out of its statements can be entered.
pub fn try_blocks_do_alike()
    ensures { TryBlocksDoAlike }
{
    caught_list_follows();
}

/// Where calls let out no exception but one that travelled not before and that no guard dooms, none comes out of a call behind a barrier.
pub fn faring_calls_are_barred()
    ensures { FaringCallsAreBarred }
{}

/// What calls of a source keep, with any fuel, whatever its program is: no number of an exception is used again, what travels stays what it is,
/// and an exception that comes out travelled not before, has no handler beneath others, and is not doomed.
pub fn all_calls_fare()
    ensures { AllCallsFare }
{}

/// So every throw does the same, where calls of the source keep that.
pub fn all_throws_do_alike()
    ensures { AllThrowsDoAlike }
{
    caught_list_follows();
}

/// So does every try block whose statements and handlers do.
pub fn all_tries_do_alike()
    ensures { AllTriesDoAlike }
{
    caught_list_follows();
}

/// What is done in the scope of an object, or until a part is part of a complete object, does the same in a region that its destruction protects,
/// where a place leads to the object.
pub fn scopes_do_alike()
    ensures { ScopesDoAlike }
{}

/// In any call the slot of a variable in reach leads to its object, and the place of a part to that part of the own object.
pub fn all_places_lead()
    ensures { AllPlacesLead }
{}

/// A bad_exception is thrown alike in place of an exception that a specification does not allow, though regions build it without a function.
pub fn bad_exceptions_alike()
    ensures { BadExceptionsAlike }
{
    caught_list_follows();
}

/// What is done under an exception specification that lists types does the same: an exception that it does not allow is entered, the unexpected handler kept with it is
/// called, and what comes out of that is thrown on, or a bad_exception in its place, or terminate is called.
pub fn extents_alike()
    ensures { ExtentsAlike }
{
    caught_list_follows();
}

/// So the extent of each specification in a function does the same, over whatever is done in it. What comes out of one that is `noexcept` is entered, and
/// terminate is called.
pub fn extents_do_alike()
    ensures { ExtentsDoAlike }
{
    caught_list_follows();
}

/// So does the extent of each specification, of a function and of a constructor or a destructor with the parts of its object, where calls of the source
/// keep what is known of exceptions.
pub fn all_extents_do_alike()
    ensures { AllExtentsDoAlike }
{
    caught_list_follows();
}
