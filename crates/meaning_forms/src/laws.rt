// Laws of the meaning: calls of no effect, whose contracts state what holds of every program.
ghost use Rattle.meaning_forms.specs.Laws.{FuelIsEnough, NoexceptIsATry, TurnsDoNotRise};

/// No call gives turns back.
pub fn turns_do_not_rise()
    ensures { TurnsDoNotRise }
{}

/// One unit of fuel above the turns is as good as any more, so the fuel is no part of the meaning.
pub fn fuel_is_enough()
    ensures { FuelIsEnough }
{}

/// What is `noexcept` is done as in a try block with the one handler `catch (...) { std::terminate(); }`.
pub fn noexcept_is_a_try()
    ensures { NoexceptIsATry }
{}
