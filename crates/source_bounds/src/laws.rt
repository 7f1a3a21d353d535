//! Laws of what is emitted for checked programs: calls of no effect, whose contracts state what holds of each program.
ghost use Rattle.source_bounds.specs.KeptChoice.{VariablesAreChosen};
ghost use Rattle.source_bounds.specs.KeptFrames.{KeptFramesAreSmall};
ghost use Rattle.source_bounds.specs.KeptSaves.{KeptRegistersAreSaved};
ghost use Rattle.source_bounds.specs.KeptVariables.{KeptVariablesAreUnbound};
ghost use Rattle.source_bounds.specs.Laws.{BadExceptionIsThere, BasesAreThere, CheckedIsLinkable, FunctionsFit, FunctionsStandInRow, RoomIsSmall, TokensAreFew, UnitsAreBounded};
ghost use Rattle.source_bounds.specs.RegisterLaws.{BuiltinsAreBrief, RegistersSuffice, ValuesNeedFew};
ghost use Rattle.source_bounds.specs.WordLaws.{FunctionsAreShort, OperationsAreShort, ProgramsAreShort};

use landing_pads::laws::{
    frames_fit, frames_of_checked_fit, frames_of_sources_fit, tables_are_short,
};
use machine_forms::laws::{frames_are_small, variables_are_kept};
use region_ir::laws::checked_bases_stand_before;
use rv64_emit::laws::{functions_are_apart, moves_fit, tables_are_good};

/// An operation of linear code has no more words than is said, whatever its function's frame.
pub fn operations_are_short()
    ensures { OperationsAreShort }
{}

/// A function has no more words than its region makes it, where exits out of each scope go to few places.
pub fn functions_are_short()
    ensures { FunctionsAreShort }
{}

/// A checked program has at most 128 words for each of its tokens, and 2,048 beside them.
pub fn programs_are_short()
    ensures { ProgramsAreShort }
{}

/// The unit of a checked program keeps the bounds of units: its frames are small, and its words few, as they are counted.
pub fn units_are_bounded()
    ensures { UnitsAreBounded }
{
    frames_of_checked_fit();
}

/// A checked program has at most 65,536 tokens.
pub fn tokens_are_few()
    ensures { TokensAreFew }
{}

/// The base of a type's record is the record of a type.
pub fn bases_are_there()
    ensures { BasesAreThere }
{
    checked_bases_stand_before();
}

/// The record of `std::bad_exception` is there, behind that of int.
pub fn bad_exception_is_there()
    ensures { BadExceptionIsThere }
{}

/// The functions of a unit stand in the order of their words, no two of them share a word, and all lie in its code.
pub fn functions_stand_in_row()
    ensures { FunctionsStandInRow }
{
    functions_are_apart();
}

/// Each function of a checked program has a word, and its table and its moves are as writers need them.
pub fn functions_fit()
    ensures { FunctionsFit }
{
    tables_are_good();
    moves_fit();
    frames_of_checked_fit();
}

/// The frame of a plain function that declares no object, throws nothing and tries nothing has at most 48 bytes, 8 for each kept variable, and
/// what the limit on variables counts for the others.
pub fn kept_frames_are_small()
    ensures { KeptFramesAreSmall }
{
    variables_are_kept();
    frames_are_small();
    frames_of_sources_fit();
}

/// The kept variables of a function are its first ten int variables whose address no operation of its region takes.
pub fn variables_are_chosen()
    ensures { VariablesAreChosen }
{}

/// So they are the first ten variables of type int of a source's function, in order of declaration, to which no reference is bound.
pub fn kept_variables_are_unbound()
    ensures { KeptVariablesAreUnbound }
{
    variables_are_chosen();
}

/// The frame moves of a function say past its prologue where the register of each kept variable is saved: in its slot, which is apart from those of the others.
pub fn kept_registers_are_saved()
    ensures { KeptRegistersAreSaved }
{
    variables_are_kept();
    frames_fit();
}

/// A checked program takes at most 768 bytes of an image for each of its tokens, and 65,536 beside them.
pub fn room_is_small()
    ensures { RoomIsSmall }
{
    tables_are_short();
    tables_are_good();
    frames_of_checked_fit();
}

/// What is emitted for a checked program is what a linker needs for a clean and runnable image.
pub fn checked_is_linkable()
    ensures { CheckedIsLinkable }
{
    programs_are_short();
    tokens_are_few();
    bases_are_there();
    bad_exception_is_there();
    functions_stand_in_row();
    functions_fit();
    room_is_small();
}

/// An expression of at most 2,000 tokens, as a function has them at most, becomes a value that needs at most 11 registers.
pub fn values_need_few()
    ensures { ValuesNeedFew }
{}

/// In a checked program no call of a built-in function has more than two arguments.
pub fn builtins_are_brief()
    ensures { BuiltinsAreBrief }
{}

/// No operation of a checked program needs more registers than there are for values.
pub fn registers_suffice()
    ensures { RegistersSuffice }
{}
