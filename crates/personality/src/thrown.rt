// What is thrown.
ghost use Rattle.std.specs.Prelude.{◌≡◌, ◌==◌};
ghost use Rattle.std.specs.List.{list_any};
ghost use Rattle.table_forms.specs.Verdict.{matches};
ghost use Rattle.personality.specs.Seen.{thrown_of, types_of};

use crate::types::TypeChain;

impl TypeChain {
    // Whether a type's record is among them.
    fn has(&self, address: u64) -> bool
        ensures { result ≡ list_any (λ t. t == address) (types_of self.now) }
    {
        self.records[..self.length as usize]
            .iter()
            .any(|t| *t == address)
    }
}

/// What comes by a frame.
#[derive(Clone, Copy, Debug)]
pub enum Thrown {
    /// An exception of this language.
    Native(TypeChain),
    /// An exception of another language.
    Foreign,
    /// A forced unwind.
    Forced,
}

impl Thrown {
    /// Whether a type entry matches it; 0 is `catch (...)`.
    pub fn matches(&self, entry: u64) -> bool
        ensures { result ≡ matches (thrown_of self.now) entry }
    {
        match self {
            Thrown::Native(types) => entry == 0 || types.has(entry),
            Thrown::Foreign => entry == 0,
            Thrown::Forced => false,
        }
    }
}
