// Laws of the landing pads and of the tables of checked programs: calls of no effect, whose contracts state what holds of every program.
ghost use Rattle.raise_premises.specs.Premises.{CheckedFiltersAreInts, CheckedJumpsAreInts, CheckedPadsArePlain, CheckedTablesAreFew};

use class_layout::laws::checked_classes_fit;
use flight_homes::laws::{filters_fit, slots_are_help};
use landing_pads::laws::{tables_are_short, tables_stand};
use region_formed::laws::checked_regions_are_well_formed;

/// The tables of each function of a checked program name fewer than 8,192 types, and their lists have at most 8,192 bytes.
pub fn checked_tables_are_few()
    ensures { CheckedTablesAreFew }
{
    checked_classes_fit();
    tables_are_short();
    tables_stand();
}

/// The slots of each landing pad of a checked program lie in its function's frame, and are no variables.
pub fn checked_pads_are_plain()
    ensures { CheckedPadsArePlain }
{
    slots_are_help();
    checked_regions_are_well_formed();
}

/// The filters of each chain of a checked program are ints.
pub fn checked_filters_are_ints()
    ensures { CheckedFiltersAreInts }
{
    filters_fit();
    checked_tables_are_few();
}

/// So is the number of each jump on a filter.
pub fn checked_jumps_are_ints()
    ensures { CheckedJumpsAreInts }
{
    checked_tables_are_few();
}
