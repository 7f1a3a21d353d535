// Laws of what operations ask for: calls of no effect, whose contracts state what holds of every program.
ghost use Rattle.operation_premises.specs.Asked.{AllIsAsked};
ghost use Rattle.operation_premises.specs.Known.{CodeIsStatic};

/// Each operation asks for slots, offsets and numbers that are there.
pub fn code_is_static()
    ensures { CodeIsStatic }
{}

/// All that is asked of an operation is so, where the exceptions are live behind whose addresses it reads and writes ints.
pub fn all_is_asked()
    ensures { AllIsAsked }
{}
