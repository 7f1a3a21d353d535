// Laws of the linear code of checked programs: calls of no effect, whose contracts state what holds of every program.
ghost use Rattle.linear_premises.specs.Premises.{CheckedProgramsFit};

/// The linear code of every checked program is as asked, with the places at which calls carry what a pad caught.
pub fn checked_programs_fit()
    ensures { CheckedProgramsFit }
{}
