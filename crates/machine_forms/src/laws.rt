// Laws of machine code: calls of no effect, whose contracts state what holds of every program.
ghost use Rattle.machine_forms.specs.KeptLaws.{AllVariablesAreKept, FramesAreSmall};
ghost use Rattle.machine_forms.specs.Laws.{StubsAreShort, WordsStand};
ghost use Rattle.machine_forms.specs.Paying.{PayingTakesWords};

/// Each piece of code becomes one word, and the words of a function stand in its unit from its first one on.
pub fn words_stand()
    ensures { WordsStand }
{}

/// The runtime's own functions have few words.
pub fn stubs_are_short()
    ensures { StubsAreShort }
{}

/// Each operation that may pay for a turn, of linear code or of the runtime's own, has at least one word.
pub fn paying_takes_words()
    ensures { PayingTakesWords }
{}

/// Ten variables of a function at most are kept, each an int whose address no operation takes, each in a register of its own.
pub fn variables_are_kept()
    ensures { AllVariablesAreKept }
{}

/// A frame is little larger than its slots.
pub fn frames_are_small()
    ensures { FramesAreSmall }
{}
