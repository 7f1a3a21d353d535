// Laws of the runtime's own functions: calls of no effect, whose contracts state what holds of their code.
ghost use Rattle.rt_stubs.specs.Laws.{EndsStand, StubsEnd, StubsFit};

/// They take at most 2,048 words and 32,768 bytes of an image, and their tables and frames can be
/// written.
pub fn stubs_fit()
    ensures { StubsFit }
{}

/// Nothing is outward of start, and nothing comes out of terminate's handler.
pub fn ends_stand()
    ensures { EndsStand }
{}

/// One call executes at most 256 of their words.
pub fn stubs_end()
    ensures { StubsEnd }
{}
