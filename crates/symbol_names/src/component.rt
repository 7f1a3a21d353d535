// Components of names, to which a name may refer again.
ghost use Rattle.std.specs.Prelude.{◌≡◌, position};
ghost use Rattle.symbol_names.specs.Component.{is_same};

/// A type by its number, where int has number 0 and class k number k + 1, or what is made of it.
#[derive(Clone, Copy, Debug)]
pub enum Component {
    Object(u64),
    Constant(u64),
    Reference(u64),
    ReferenceToConstant(u64),
}

impl Component {
    fn is(&self, other: &Component) -> bool
        ensures { result ≡ is_same self.now other.now }
    {
        match (*self, *other) {
            (Component::Object(a), Component::Object(b)) => a == b,
            (Component::Constant(a), Component::Constant(b)) => a == b,
            (Component::Reference(a), Component::Reference(b)) => a == b,
            (Component::ReferenceToConstant(a), Component::ReferenceToConstant(b)) => a == b,
            _ => false,
        }
    }
}

/// The first place of a component in a list.
pub fn place_of(component: &Component, seen: &[Component]) -> Option<usize>
    ensures { result ≡ position (is_same component.now) seen.now }
{
    seen.iter().position(|other| component.is(other))
}
