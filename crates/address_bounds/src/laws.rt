// Laws of addresses: calls of no effect, whose contracts state what holds of every program.
ghost use Rattle.address_bounds.specs.Laws.{CodeReachesInside, RegionsReachInside};

/// In the regions of a typed program each int lies inside what its address begins at.
pub fn regions_reach_inside()
    ensures { RegionsReachInside }
{}

/// So it does in the linear code of its functions.
pub fn code_reaches_inside()
    ensures { CodeReachesInside }
{}
