// Laws on the order in which code runs: calls of no effect, whose contracts state what holds of every program.
ghost use Rattle.cost_paths.specs.Ahead.{AllCodeGoesAhead};
ghost use Rattle.cost_paths.specs.Order.{OperationsAreInOrder};
ghost use Rattle.cost_paths.specs.Paths.{OperationsRunOnce};
ghost use Rattle.cost_paths.specs.Runs.{FewWordsRun};
ghost use Rattle.cost_paths.specs.Words.{WordsAreInOrder};

/// The operations of a function have ranks that rise along every step of control inside a call, but for the jump from a loop's end to its
/// test. Each rises by what the operation weighs, and no rank is more than all operations weigh together.
pub fn operations_are_in_order()
    ensures { OperationsAreInOrder }
{}

/// While no loop turns back, the operations that a call runs weigh no more than its function, whatever each weighs but labels.
pub fn operations_run_once()
    ensures { OperationsRunOnce }
{}

/// Every branch and jump inside the code of an operation goes ahead, inside the operation or to the word behind it, but for the jump to the
/// operation's label; and so does that in the beginning of a function.
pub fn code_goes_ahead()
    ensures { AllCodeGoesAhead }
{}

/// The words of each function of a program have ranks that rise along every step of control inside a call, but for the jump from a loop's end
/// to its test, and of which there are no more than words. So between two turns of its loops a call runs no word twice.
pub fn words_are_in_order()
    ensures { WordsAreInOrder }
{}

/// While no loop turns, a call runs no word of its function twice, so it runs no more words than the function has.
pub fn few_words_run()
    ensures { FewWordsRun }
{}
