// Where the operations of a function begin.
/// The first word of each operation of a function, and how many words the function has.
#[derive(Drop)]
pub struct Starts {
    pub words: Vec<u32>,
    pub end: u32,
}

impl Starts {
    ghost use Rattle.std.specs.Prelude.{◌≡◌};
    ghost use Rattle.machine_forms.specs.Routine.{Routine, op_byte, op_word};
    ghost use Rattle.rv64_emit.specs.Starts.{HasStarts};

    /// The first word of the operation at a place, and behind the last one the end.
    pub fn word(&self, place: u32) -> u32
        ensures { (r : Routine) → HasStarts self.now r → result ≡ op_word r place }
    {
        self.words.get(place as usize).copied().unwrap_or(self.end)
    }

    /// Its first byte.
    pub fn byte(&self, place: u32) -> u64
        ensures { (r : Routine) → HasStarts self.now r → result ≡ op_byte r place }
    {
        4 * u64::from(self.word(place))
    }
}
