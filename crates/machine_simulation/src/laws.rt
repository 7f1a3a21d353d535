// Laws of operations on the machine: calls of no effect, whose contracts state what holds of every program.
ghost use Rattle.machine_simulation.specs.Beginning.{MainBegins};
ghost use Rattle.machine_simulation.specs.Bytes.{BytesRun};
ghost use Rattle.machine_simulation.specs.Ending.{MainsEnd};
ghost use Rattle.machine_simulation.specs.Entering.{CallsRun};
ghost use Rattle.machine_simulation.specs.Exits.{ExitsEnd};
ghost use Rattle.machine_simulation.specs.Fields.{PiecesFit};
ghost use Rattle.machine_simulation.specs.Frames.{FramesAreLaidOut};
ghost use Rattle.machine_simulation.specs.Laws.{OperationsRun, StoresStayApart};
ghost use Rattle.machine_simulation.specs.Lines.{LinesRun};
ghost use Rattle.machine_simulation.specs.Returns.{ReturnsRun};
ghost use Rattle.machine_simulation.specs.Room.{StackHasRoom};
ghost use Rattle.machine_simulation.specs.Units.{UnitsStand};

use machine_pieces::laws::{addresses_are_computed, calls_are_turns, places_are_written};
use machine_stubs::laws::stubs_stand;

/// A store leaves all but what it is made to: open calls, return addresses, and ints at other addresses.
pub fn stores_stay_apart()
    ensures { StoresStayApart }
{}

/// Stores, binds, values, labels and jumps do on the ABI machine what they do on the machine for linear code. What is asked of a program
/// is what well-formed regions, bounded frames and short functions give, and that an int behind an address lies inside what the address
/// begins at, as types have it. That no variable's address is used when its call is over is kept by all that matches, and not asked.
pub fn operations_run()
    ensures { OperationsRun }
{
    places_are_written();
    addresses_are_computed();
}

/// A call of a compiled function begins on the ABI machine as it does on the machine for linear code, where the stack has room: what is
/// passed is in the first slots of its frame, and the caller waits with the address behind the call.
pub fn calls_run()
    ensures { CallsRun }
{
    addresses_are_computed();
}

/// A call of a compiled function returns on the ABI machine as it does on the machine for linear code, with its value.
pub fn returns_run()
    ensures { ReturnsRun }
{
    places_are_written();
}

/// A line that the machine for linear code writes is written by the ABI machine.
pub fn lines_run()
    ensures { LinesRun }
{
    calls_are_turns();
}

/// A byte that the machine for linear code reads, or the end of the input that it finds, is read and found by the ABI machine.
pub fn bytes_run()
    ensures { BytesRun }
{
    places_are_written();
    calls_are_turns();
}

/// Where main returns, the run of the ABI machine exits with what main gives.
pub fn mains_end()
    ensures { MainsEnd }
{
    calls_are_turns();
}

/// Where exit is called, whatever calls are open, the run of the ABI machine exits with what exit is given.
pub fn exits_end()
    ensures { ExitsEnd }
{
    calls_are_turns();
}

/// Every piece that an operation of a short function becomes has its fields in their ranges.
pub fn pieces_fit()
    ensures { PiecesFit }
{}

/// Where all words of a unit stand, its functions stand as the simulation asks.
pub fn units_stand()
    ensures { UnitsStand }
{
    stubs_stand();
}

/// A new hart at a unit's first word comes to where main's first operation begins.
pub fn main_begins()
    ensures { MainBegins }
{}

/// Frames of no more than 2,032 bytes, as every checked program has them, are as the simulation asks.
pub fn frames_are_laid_out()
    ensures { FramesAreLaidOut }
{}

/// At most 8,190 open calls leave room in the stack for another, whatever their functions, but for what waiting functions of the runtime take.
pub fn stack_has_room()
    ensures { StackHasRoom }
{}
