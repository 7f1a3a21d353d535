//! Laws of the regions of checked programs.
ghost use Rattle.region_formed.specs.Counts.{CheckedCountsFit};
ghost use Rattle.region_formed.specs.Slots.{CheckedSlotsFit};
ghost use Rattle.region_formed.specs.Tokens.{CheckedRegionsHaveTheTokens};
ghost use Rattle.region_formed.specs.WellFormed.{CheckedRegionsAreWellFormed, SourceRegionsAreWellFormed};

/// The regions of each checked program are well-formed: numbers are in range, calls stand at the top of operations alone, slots have
/// the kinds that their uses need, and each function that is called gets the arguments that its slots are for.
pub fn checked_regions_are_well_formed()
    ensures well_formed { CheckedRegionsAreWellFormed }
{}

/// So are those of each valid source, which is a program that breaks no rule.
pub fn valid_sources_have_well_formed_regions()
    ensures well_formed { SourceRegionsAreWellFormed }
{}

/// The regions of a checked program tell how many tokens its source has, which are no more than the limit.
pub fn checked_regions_have_the_tokens()
    ensures tokens { CheckedRegionsHaveTheTokens }
{}

/// Each slot of a checked program's functions has 4 bytes or a multiple of them, and no more than a class may have.
pub fn checked_slots_fit()
    ensures fit { CheckedSlotsFit }
{}

/// The functions, the types and the globals of a checked program's regions are no more than the tokens of its source allow, so each of their numbers
/// fits 32 bits with room to spare.
pub fn checked_counts_fit()
    ensures fit { CheckedCountsFit }
{}
