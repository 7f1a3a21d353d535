// Laws of the choice of a handler: calls of no effect, whose contracts state what holds of every program.
ghost use Rattle.handler_choice.specs.Laws.{CheckedGuardsAreSaid, CheckedTargetsAreNamed, FirstClausesMatch, GuardsAreSaid, OwnGuardsAreSaid, TargetsAreNamed};

use region_formed::laws::checked_regions_are_well_formed;

/// The tables of a well-formed function say of each operation out of which something may come which guards stand around its place inside the function: the
/// clauses of each try block in order of appearance and the list of each specification, from the innermost on; and of one in a barrier nothing.
pub fn guards_are_said()
    ensures { GuardsAreSaid }
{}

/// So it is in each function of every checked program.
pub fn checked_guards_are_said()
    ensures { CheckedGuardsAreSaid }
{
    checked_regions_are_well_formed();
}

/// So do the tables of the runtime's own functions.
pub fn own_guards_are_said()
    ensures { OwnGuardsAreSaid }
{}

/// The search ends at the call in which the first guard stands that stops the exception, from the innermost open call on; and it finds none where
/// there is no such guard, where that is a barrier, and where a specification stops a foreign exception.
pub fn targets_are_named()
    ensures { TargetsAreNamed }
{}

/// So it does by the guards of the open calls of every checked program, each of which is at an operation out of which something may come.
pub fn checked_targets_are_named()
    ensures { CheckedTargetsAreNamed }
{
    checked_guards_are_said();
    own_guards_are_said();
    targets_are_named();
}

/// At its target the selector is that of the first clause of that try block that matches, or of the specification's list.
pub fn first_clauses_match()
    ensures { FirstClausesMatch }
{}
