// Laws of linear code: calls of no effect, whose contracts state what holds of every program.
ghost use Rattle.linear_forms.specs.Counted.{OnlyCallsDeepen};
ghost use Rattle.linear_forms.specs.Defined.{DefinedWhereLive};
ghost use Rattle.linear_forms.specs.Laws.{CleanupsAreSeen, CleanupsStandTwice, CodeIsShort, FiltersAreRight, FunctionsStand, HandlersAreChosen, LabelsAreDistinct, PadsStand, SearchAgrees, SitesAreRight};

/// Joining neighbouring call sites changes no look-up, and the sites of code say of each place what covers it.
pub fn sites_say_what_covers()
    ensures { SitesAreRight }
{}

/// Of the clauses that guard an operation the first that matches decides, and the selector is its filter.
pub fn handlers_are_chosen()
    ensures { HandlersAreChosen }
{}

/// A chain needs one filter of a cleanup for several.
pub fn one_cleanup_filter_serves()
    ensures { CleanupsAreSeen }
{}

/// Each cleanup of a scope or a handler stands twice, and in its landing pad without a call site.
pub fn cleanups_stand_twice()
    ensures { CleanupsStandTwice }
{}

/// The filters of a function mean by its own tables what they are for.
pub fn filters_mean()
    ensures { FiltersAreRight }
{}

/// A label stands once in a function's code.
pub fn labels_distinct()
    ensures { LabelsAreDistinct }
{}

/// Where the tables of a function name a landing pad, one begins.
pub fn pads_stand()
    ensures { PadsStand }
{}

/// A function has at most so many operations, in proportion to its regions and the ways out of its scopes.
pub fn code_is_short()
    ensures { CodeIsShort }
{}

/// In the unit of a program each function stands, with its code, tables and slots.
pub fn functions_stand()
    ensures { FunctionsStand }
{}

/// The search by tables finds no target exactly where the guards doom the exception.
pub fn search_agrees_with_guards()
    ensures { SearchAgrees }
{}

/// A step that is about an exception is defined only where that is live, and being built or built, as the step needs it: an int of its object is
/// read or written, it is thrown, thrown again, entered or left, or its object is freed.
pub fn defined_where_live()
    ensures { DefinedWhereLive }
{}

/// A step after which more calls of compiled functions are open is counted as a call, and a jump opens none.
pub fn only_calls_deepen()
    ensures { OnlyCallsDeepen }
{}
