// Laws of code on the machine: calls of no effect, whose contracts state what holds of every program.
ghost use Rattle.machine_pieces.specs.Laws.{AddressesAreComputed, CallsAreTurns, ControlGoes, KeptAreWritten, PlacesAreWritten, RegistersAreSaved, StoresAreRead, ValuesAreComputed, WordsAreFetched};

/// Where code stands the machine does what its pieces say.
pub fn words_are_fetched()
    ensures { WordsAreFetched }
{}

/// What is stored is read back, and all else stays.
pub fn stores_are_read()
    ensures { StoresAreRead }
{}

/// The words of a value without calls compute its int.
pub fn values_are_computed()
    ensures { ValuesAreComputed }
{}

/// Prologues, epilogues, jumps and calls go where they say.
pub fn control_goes()
    ensures { ControlGoes }
{}

/// The words that write an int to a place write it there alone.
pub fn places_are_written()
    ensures { PlacesAreWritten }
{}

/// An int that is written to a kept variable is in its register.
pub fn kept_are_written()
    ensures { KeptAreWritten }
{}

/// Registers of kept variables are saved where a call begins, and get back what they held where it ends.
pub fn registers_are_saved()
    ensures { RegistersAreSaved }
{}

/// Steps and runtime calls are turns of the ABI machine.
pub fn calls_are_turns()
    ensures { CallsAreTurns }
{}

/// The words of a place's address compute it.
pub fn addresses_are_computed()
    ensures { AddressesAreComputed }
{}
