//! Laws of checked programs.
ghost use Rattle.region_typed.specs.Programs.{CheckedProgramsAreTyped};
ghost use Rattle.region_typed.specs.Walked.{ExpressionsAreTyped, StatementsAreTyped};

/// Where a function of a checked program is walked, each expression that breaks no rule where an int is needed is typed, with its names bound.
pub fn expressions_are_typed()
    ensures typed { ExpressionsAreTyped }
{}

/// So are the statements of a block that break no rule, with the variables that the scope has in reach.
pub fn statements_are_typed()
    ensures typed { StatementsAreTyped }
{}

/// Every checked program is typed: in each of its functions and of those of its classes, parameters are the first variables, and each name of the body
/// stands for what it is used as; each part that a constructor builds can be built, by its initialiser or by default; destructors have no parameters;
/// and `main` is there, gives an int, has no parameters, and no jump comes out of its body.
pub fn checked_programs_are_typed()
    ensures typed { CheckedProgramsAreTyped }
{}
