// Laws of the units of checked programs: calls of no effect, whose contracts state what holds of every program.
ghost use Rattle.checked_units.specs.Images.{CodeIsLow, GlobalsAreInts, ImagesBegin, UnitsHaveBits, WordsHaveBits};
ghost use Rattle.checked_units.specs.Operations.{CheckedFramesAreLaidOut, LiteralsAreInts, NeedsAreSmall, ProgramsAreKnown, RegionsHaveInts, RegionsHoldFew};
ghost use Rattle.checked_units.specs.Tables.{CheckedTablesAreAsked};
ghost use Rattle.checked_units.specs.Units.{CheckedUnitsAreAsked};

use function_lengths::laws::checked_functions_are_short;
use machine_simulation::laws::units_stand;
use region_formed::laws::checked_regions_are_well_formed;
use source_bounds::laws::{
    checked_is_linkable, programs_are_short, registers_suffice, tokens_are_few, units_are_bounded,
};

/// The unit of a checked program has fewer than 2^28 words with those of the runtime's own functions, its frames are as they are laid out,
/// and no operation needs more registers than there are.
pub fn checked_units_are_asked()
    ensures { CheckedUnitsAreAsked }
{
    programs_are_short();
    registers_suffice();
    tokens_are_few();
    units_are_bounded();
}

/// In the unit of a checked program the lists of specifications name types, and each chain of bases has at most 64 types, and no more than
/// there are.
pub fn checked_tables_are_asked()
    ensures { CheckedTablesAreAsked }
{}

/// Each literal of a checked program is an int.
pub fn literals_are_ints()
    ensures { LiteralsAreInts }
{}

/// So is each number in its regions.
pub fn regions_have_ints()
    ensures { RegionsHaveInts }
{}

/// In each of its functions fewer than 2^31 regions hold others.
pub fn regions_hold_few()
    ensures { RegionsHoldFew }
{}

/// Its frames are small, and each slot has the bytes of its kind.
pub fn checked_frames_are_laid_out()
    ensures { CheckedFramesAreLaidOut }
{}

/// No function needs more bytes behind an address than a class may have.
pub fn needs_are_small()
    ensures { NeedsAreSmall }
{}

/// All is known of its regions that their operations ask for, with no premise but that it is checked.
pub fn programs_are_known()
    ensures { ProgramsAreKnown }
{}

/// The first value of each global of a checked program is an int.
pub fn globals_are_ints()
    ensures { GlobalsAreInts }
{}

/// The word of a piece of code has 32 bits, wherever the piece stands.
pub fn words_have_bits()
    ensures { WordsHaveBits }
{}

/// Each word of the image of a unit whose functions are short has 32 bits.
pub fn units_have_bits()
    ensures { UnitsHaveBits }
{}

/// The code of an image ends below 2^30.
pub fn code_is_low()
    ensures { CodeIsLow }
{}

/// A machine that begins a run of the image of a checked program has the program's unit in its memory, with the globals and their first
/// values below it, and stands at its first word.
pub fn images_begin()
    ensures { ImagesBegin }
{
    checked_is_linkable();
    checked_units_are_asked();
    checked_functions_are_short();
    checked_regions_are_well_formed();
    units_stand();
}
