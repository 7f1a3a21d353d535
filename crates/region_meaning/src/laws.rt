// Laws of lowering: calls of no effect, whose contracts state what holds of every program.
ghost use Rattle.region_meaning.specs.Destructors.{EmptyConstructorsAreSame, EmptyDestructorsAreSame};
ghost use Rattle.region_meaning.specs.Extents.{ExtentsAreSame};
ghost use Rattle.region_meaning.specs.Forms.{CheckedProgramsAreOrdered, FormsAreSame};
ghost use Rattle.region_meaning.specs.Lowered.{ProgramsAreLowered};
ghost use Rattle.region_meaning.specs.Scopes.{ObjectScopesAreSame, PartsAreSame};
ghost use Rattle.region_meaning.specs.Sources.{CheckedProgramsMeanTheSame, CheckedSourcesMeanTheSame};

use region_forms::laws::caught_list_follows;

/// Scopes of parts of objects, and what is done until an object is complete, are the same, with calls that do the same.
pub fn parts_are_same()
    ensures { PartsAreSame }
{}

/// So are scopes of local objects.
pub fn object_scopes_are_same()
    ensures { ObjectScopesAreSame }
{}

/// So is the destruction of a `std::bad_exception`, with any fuel: a call that does nothing but open and close.
pub fn empty_destructors_are_same()
    ensures { EmptyDestructorsAreSame }
{}

/// Each callee of a program has its number among the functions of regions that the program is lowered to, main as one that stores 0 behind its
/// body.
pub fn programs_are_lowered()
    ensures { ProgramsAreLowered }
{}

/// The classes of a checked program stand behind those of their parts, `std::bad_exception` in front of all.
pub fn checked_programs_are_ordered()
    ensures { CheckedProgramsAreOrdered }
{}

/// A `std::bad_exception` is built, with any fuel, by a call that does nothing but open and close.
pub fn empty_constructors_are_same()
    ensures { EmptyConstructorsAreSame }
{}

/// The extents of exception specifications of functions, constructors and destructors are the same in every context, where calls of the source keep
/// what is known of exceptions.
pub fn extents_are_same()
    ensures { ExtentsAreSame }
{
    caught_list_follows();
}

/// In each function of a program whose classes stand in order the forms that raise exceptions, or clean up behind them, do the same with calls of
/// any fuel that do: throws, try blocks, scopes of objects, parts of objects and extents of specifications.
pub fn forms_are_same()
    ensures { FormsAreSame }
{
    caught_list_follows();
}

/// The regions of each checked program, watched, mean what the program means: the same items and end, the same greatest number of open calls, the
/// same outcome of main and the same replies left, for every input, all replies, every number of turns and every limit of open calls, where the
/// program comes to nothing that is undefined. So they break nothing that is watched, and are too deep only where the program is.
pub fn checked_programs_mean_the_same()
    ensures { CheckedProgramsMeanTheSame }
{
    caught_list_follows();
}

/// So do those of each valid source, with no other premise.
pub fn checked_sources_mean_the_same()
    ensures { CheckedSourcesMeanTheSame }
{
    caught_list_follows();
}
