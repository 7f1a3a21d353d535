// Laws of lowering: calls of no effect, whose contracts state what holds of every program.
ghost use Rattle.region_simulation.specs.Expressions.{ExpressionsEvaluate};
ghost use Rattle.region_simulation.specs.First.{FirstStands};
ghost use Rattle.region_simulation.specs.Value.{ValuesAreMeant};
ghost use Rattle.region_simulation.specs.Writing.{AssignmentsStore, WritesStand};

/// The state of regions before main stands for the world of the source before main.
pub fn first_stands()
    ensures { FirstStands }
{}

/// An expression that makes no call, in which each name stands for an int in reach, is lowered to a value with nothing before it. Where a
/// state of regions stands for the source's world, the value is there what the expression means.
pub fn values_are_meant()
    ensures { ValuesAreMeant }
{}

/// With calls that do the same, and the two built-in functions that may terminate or raise, every typed expression is lowered to what it
/// means: what comes before its value comes out as the expression does, and then the value is the expression's. Operands and arguments are
/// evaluated left to right, and the right side of an operator that decides only where it decides.
pub fn expressions_evaluate()
    ensures { ExpressionsEvaluate }
{}

/// Where the parts of objects do not overlap, a state after a write to memory stands for the world after the write to the object: that int is
/// set, and every other int of every object stays.
pub fn writes_stand()
    ensures { WritesStand }
{}

/// An assignment to what names stand for is a store in their place, behind what comes before the value that is assigned. Where that is what a call
/// gives, the operation that makes the call stores it.
pub fn assignments_store()
    ensures { AssignmentsStore }
{}
