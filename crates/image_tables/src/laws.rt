// Laws of the tables of linked images: calls of no effect, whose contracts state what holds of every unit.
ghost use Rattle.image_tables.specs.FrameLaws.{FramesSay, StartIsOutermost};
ghost use Rattle.image_tables.specs.TableLaws.{StartPasses, TablesSay};
ghost use Rattle.image_tables.specs.TypeLaws.{TypesAreRead};

/// Behind its beginning the frame of a function has its size, and the return address and the registers of kept variables are saved in their
/// places.
pub fn frames_say()
    ensures { FramesSay }
{}

/// Nothing is outward of the first function of a run.
pub fn start_is_outermost()
    ensures { StartIsOutermost }
{}

/// Of a frame inside a function the personality routine says what the call site of its operation says.
pub fn tables_say()
    ensures { TablesSay }
{}

/// An exception goes on outward from the call of main.
pub fn start_passes()
    ensures { StartPasses }
{}

/// Behind the record of a type the runtime finds the records of all its bases.
pub fn types_are_read()
    ensures { TypesAreRead }
{}
