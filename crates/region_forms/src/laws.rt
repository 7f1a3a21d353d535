// Laws of regions: calls of no effect, whose contracts state what holds of every program.
ghost use Rattle.region_forms.specs.Laws.{CaughtListFollows};

/// The caught list is a function of the handled and of the travelling exceptions, through throws, entries, rethrows and leavings.
pub fn caught_list_follows()
    ensures { CaughtListFollows }
{}
