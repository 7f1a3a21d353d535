// What the definitions say of every run.
ghost use Rattle.eh_run.specs.Laws.{BudgetsGoOn};

/// A run under a greater budget begins with the items of the run under a smaller one, and is the same
/// where that one ended.
pub fn a_greater_budget_goes_on()
    ensures { BudgetsGoOn }
{}
