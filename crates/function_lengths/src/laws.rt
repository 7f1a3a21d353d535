// Laws on the lengths of functions: calls of no effect, whose contracts state what holds of every program.
ghost use Rattle.function_lengths.specs.Lengths.{CheckedFunctionsAreShort, DestructorsAreShort};

/// The region of a declared destructor takes at most 47 words for each part of its class, at most 104 for each token of its statements,
/// and beside them at most 4, 277 where it lists types, and 577 where it is `noexcept`, though a call of one of the runtime's own functions
/// counts as 257.
pub fn destructors_are_short()
    ensures { DestructorsAreShort }
{}

/// No function of a checked program has 2^18 words, so each jump inside it reaches its label.
pub fn checked_functions_are_short()
    ensures { CheckedFunctionsAreShort }
{}
