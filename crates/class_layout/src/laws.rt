// Laws of layouts: calls of no effect, whose contracts state what holds of every program.
ghost use Rattle.class_layout.specs.Fit.{CheckedClassesFit};

/// The classes of a checked program can be laid out in their order.
pub fn checked_classes_fit()
    ensures { CheckedClassesFit }
{}
