// Laws of the linear code of checked programs: calls of no effect, whose contracts state what holds of every program.
ghost use Rattle.builtin_calls.specs.Fits.{BuiltinCallsFit};

/// Each operation that calls a built-in function gives it what it takes, and wants its value only where it gives one.
pub fn builtin_calls_fit()
    ensures { BuiltinCallsFit }
{}
