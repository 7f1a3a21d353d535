// What is known of functions and data members.
ghost use Rattle.std.specs.Prelude.{◌≡◌};
ghost use Rattle.cxx_rules.specs.KindOf.{kind_of, kinds_of};

use crate::kind::Kind;
use cxx_ast::declaration::FuncKind;
use cxx_ast::name::Name;
use std::marker::Model;

/// How a parameter takes its argument.
#[derive(Drop)]
pub struct Passing {
    kind: Kind,
    is_reference: bool,
    is_const: bool,
}

impl Model for Passing {
    ghost use Rattle.cxx_ast.specs.Environment as environment;

    ghost Value = { environment.Passing };

    ghost use Rattle.cxx_rules.specs.KindOf.{kind_of};

    ghost view = { λ p. record { kind = kind_of p.kind; is_reference = p.is_reference; is_const = p.is_const } };
}

impl Passing {
    pub fn new(kind: Kind, is_reference: bool, is_const: bool) -> Self
        ensures { result ≡ record { kind = kind_of kind; is_reference = is_reference; is_const = is_const } }
    {
        Passing {
            kind,
            is_reference,
            is_const,
        }
    }

    pub fn kind(&self) -> Kind
        ensures { kind_of result ≡ self.now.kind }
    {
        self.kind
    }

    pub fn is_reference(&self) -> bool
        ensures { result ≡ self.now.is_reference }
    {
        self.is_reference
    }

    pub fn is_const(&self) -> bool
        ensures { result ≡ self.now.is_const }
    {
        self.is_const
    }
}

/// A declaration of a function, as its callers see it.
#[derive(Drop)]
pub struct Signature<'t> {
    name: &'t Name,
    form: FuncKind,
    result: Kind,
    parameters: Vec<Passing>,
    allowed: Option<Vec<Kind>>,
    is_defined: bool,
}

impl<'t> Model for Signature<'t> {
    ghost use Rattle.cxx_ast.specs.Environment as environment;

    ghost Value = { environment.Signature };

    ghost use Rattle.cxx_rules.specs.KindOf.{kind_of, kinds_of};

    ghost view = { λ s. record {
      name = s.name.now;
      form = s.form;
      result = kind_of s.result;
      parameters = s.parameters.items;
      allowed = kinds_of s.allowed;
      is_defined = s.is_defined;
    } };
}

impl<'t> Signature<'t> {
    pub fn new(
        name: &'t Name,
        form: FuncKind,
        outcome: Kind,
        parameters: Vec<Passing>,
        allowed: Option<Vec<Kind>>,
        is_defined: bool,
    ) -> Self
        ensures { result ≡ record { name = name.now; form = form; result = kind_of outcome; parameters = parameters.items; allowed = kinds_of allowed; is_defined = is_defined } }
    {
        Signature {
            name,
            form,
            result: outcome,
            parameters,
            allowed,
            is_defined,
        }
    }

    pub fn name(&self) -> &'t Name
        ensures { result.now ≡ self.now.name }
    {
        self.name
    }

    pub fn form(&self) -> FuncKind
        ensures { result ≡ self.now.form }
    {
        self.form
    }

    pub fn result(&self) -> Kind
        ensures { kind_of result ≡ self.now.result }
    {
        self.result
    }

    pub fn parameters(&self) -> &[Passing]
        ensures { result.now ≡ self.now.parameters }
    {
        self.parameters.as_slice()
    }

    /// The types that its exception specification allows, where it has one.
    pub fn allowed(&self) -> &Option<Vec<Kind>>
        ensures { kinds_of result.now ≡ self.now.allowed }
    {
        &self.allowed
    }

    pub fn is_defined(&self) -> bool
        ensures { result ≡ self.now.is_defined }
    {
        self.is_defined
    }
}

/// A data member.
#[derive(Drop)]
pub struct Field<'t> {
    name: &'t Name,
    kind: Kind,
}

impl<'t> Model for Field<'t> {
    ghost use Rattle.cxx_ast.specs.Environment as environment;

    ghost Value = { environment.Field };

    ghost use Rattle.cxx_rules.specs.KindOf.{kind_of};

    ghost view = { λ f. record { name = f.name.now; kind = kind_of f.kind } };
}

impl<'t> Field<'t> {
    pub fn new(name: &'t Name, kind: Kind) -> Self
        ensures { result ≡ record { name = name.now; kind = kind_of kind } }
    {
        Field { name, kind }
    }

    pub fn name(&self) -> &'t Name
        ensures { result.now ≡ self.now.name }
    {
        self.name
    }

    pub fn kind(&self) -> Kind
        ensures { kind_of result ≡ self.now.kind }
    {
        self.kind
    }
}
