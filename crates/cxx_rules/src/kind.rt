// The types of values, objects and variables.
ghost use Rattle.std.specs.Prelude.{◌≡◌};
ghost use Rattle.cxx_ast.specs.Environment.{same_kind};
ghost use Rattle.cxx_rules.specs.KindOf.{kind_of};

/// The type of a value, an object or a variable.
#[derive(Clone, Copy, Drop)]
pub enum Kind {
    Int,
    /// What a comparison gives.
    Truth,
    Void,
    /// A class by its number.
    Class(usize),
    /// What breaks a rule has no type.
    Nothing,
}

impl Kind {
    /// Two types are the same.
    pub fn is(self, other: Kind) -> bool
        ensures { result ≡ same_kind (kind_of self) (kind_of other) }
    {
        match (self, other) {
            (Kind::Int, Kind::Int) => true,
            (Kind::Truth, Kind::Truth) => true,
            (Kind::Void, Kind::Void) => true,
            (Kind::Class(j), Kind::Class(k)) => j == k,
            (Kind::Nothing, Kind::Nothing) => true,
            _ => false,
        }
    }
}
