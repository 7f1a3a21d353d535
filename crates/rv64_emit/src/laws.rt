// Laws of what is emitted: calls of no effect, whose contracts state what holds of every program.
ghost use Rattle.rv64_emit.specs.Laws.{AllMovesFit, EachTurnTakesWords, FunctionsAreApart, SlotsAreInside, TablesAreGood};

use landing_pads::laws::tables_stand;

/// The functions of a unit stand one behind the other, and have all its words but the first two.
pub fn functions_are_apart()
    ensures { FunctionsAreApart }
{}

/// The sites of a function are in order and inside it with their pads, and what a table names is there.
pub fn tables_are_good()
    ensures { TablesAreGood }
{
    tables_stand();
}

/// A writer of frames can write a function's moves wherever it stands, where its frame is not too large.
pub fn moves_fit()
    ensures { AllMovesFit }
{}

/// The slots of a frame lie inside it, above the return address, and apart.
pub fn slots_are_inside()
    ensures { SlotsAreInside }
{}

/// Each call of a function, a constructor or a destructor and each test of a loop has at least one instruction.
pub fn each_turn_takes_words()
    ensures { EachTurnTakesWords }
{}
