// Laws of the exception tables of routines: calls of no effect, whose contracts state what holds of every routine.
ghost use Rattle.table_verdicts.specs.Laws.{TablesDecide};

/// Where a table that is read stands for a routine's, the personality routine decides at each operation as its call site says.
pub fn tables_decide()
    ensures { TablesDecide }
{}
