// What paths, expressions and calls are.
ghost use Rattle.std.specs.Prelude.{◌≡◌};
ghost use Rattle.cxx_rules.specs.KindOf.{kind_of};

use crate::found::Found;
use crate::kind::Kind;
use cxx_ast::name::Name;
use std::marker::Model;

/// What a path reaches: a type, whether it is reached through a reference to const, and what is broken on the way.
#[derive(Drop)]
pub struct Reached {
    kind: Kind,
    is_const: bool,
    found: Found,
}

impl Model for Reached {
    ghost use Rattle.cxx_rules.specs.Seen.{SeenReached};

    ghost Value = { SeenReached };

    ghost use Rattle.cxx_rules.specs.KindOf.{kind_of};

    ghost view = { λ r. record { kind = kind_of r.kind; is_const = r.is_const; found = r.found } };
}

impl Reached {
    pub fn new(kind: Kind, is_const: bool, found: Found) -> Self
        ensures { result ≡ record { kind = kind_of kind; is_const = is_const; found = found } }
    {
        Reached {
            kind,
            is_const,
            found,
        }
    }

    pub fn kind(&self) -> Kind
        ensures { kind_of result ≡ self.now.kind }
    {
        self.kind
    }

    pub fn is_const(&self) -> bool
        ensures { result ≡ self.now.is_const }
    {
        self.is_const
    }

    pub fn found(&self) -> Found
        ensures { result ≡ self.now.found }
    {
        self.found
    }
}

/// An lvalue as an expression.
#[derive(Drop)]
pub struct Target<'t> {
    names: &'t [Name],
    is_const: bool,
}

impl<'t> Model for Target<'t> {
    ghost use Rattle.cxx_ast.specs.Reference as reference;

    ghost Value = { reference.Target };

    ghost view = { λ t. record { names = t.names.now; is_const = t.is_const } };
}

impl<'t> Target<'t> {
    pub fn new(names: &'t [Name], is_const: bool) -> Self
        ensures { result ≡ record { names = names.now; is_const = is_const } }
    {
        Target { names, is_const }
    }

    pub fn names(&self) -> &'t [Name]
        ensures { result.now ≡ self.now.names }
    {
        self.names
    }

    pub fn is_const(&self) -> bool
        ensures { result ≡ self.now.is_const }
    {
        self.is_const
    }
}

/// An expression: its type, what is broken in it, the place of its first token, and the lvalue that it is.
#[derive(Drop)]
pub struct Judged<'t> {
    kind: Kind,
    found: Found,
    place: u32,
    target: Option<Target<'t>>,
}

impl<'t> Model for Judged<'t> {
    ghost use Rattle.cxx_rules.specs.Seen.{SeenJudgement};

    ghost Value = { SeenJudgement };

    ghost use Rattle.cxx_rules.specs.KindOf.{kind_of};

    ghost view = { λ j. record { kind = kind_of j.kind; found = j.found; place = j.place; target = j.target } };
}

impl<'t> Judged<'t> {
    ghost use Rattle.std.specs.Prelude.{option_map};

    pub fn new(kind: Kind, found: Found, place: u32, target: Option<Target<'t>>) -> Self
        ensures { result ≡ record { kind = kind_of kind; found = found; place = place; target = target.entry } }
    {
        Judged {
            kind,
            found,
            place,
            target,
        }
    }

    pub fn kind(&self) -> Kind
        ensures { kind_of result ≡ self.now.kind }
    {
        self.kind
    }

    pub fn found(&self) -> Found
        ensures { result ≡ self.now.found }
    {
        self.found
    }

    pub fn place(&self) -> u32
        ensures { result ≡ self.now.place }
    {
        self.place
    }

    pub fn target(&self) -> Option<&Target<'t>>
        ensures { option_map (λ t. t.now) result ≡ self.now.target }
    {
        self.target.as_ref()
    }
}

/// A call: its type, and what is broken in it.
#[derive(Drop)]
pub struct Valued {
    kind: Kind,
    found: Found,
}

impl Model for Valued {
    ghost use Rattle.cxx_rules.specs.Seen.{SeenValue};

    ghost Value = { SeenValue };

    ghost use Rattle.cxx_rules.specs.KindOf.{kind_of};

    ghost view = { λ v. record { kind = kind_of v.kind; found = v.found } };
}

impl Valued {
    pub fn new(kind: Kind, found: Found) -> Self
        ensures { result ≡ record { kind = kind_of kind; found = found } }
    {
        Valued { kind, found }
    }

    pub fn kind(&self) -> Kind
        ensures { kind_of result ≡ self.now.kind }
    {
        self.kind
    }

    pub fn found(&self) -> Found
        ensures { result ≡ self.now.found }
    {
        self.found
    }
}
