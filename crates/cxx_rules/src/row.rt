// The variables of one scope.
ghost use Rattle.std.specs.Prelude.{◌≡◌, ◌++◌, ◌∷◌, [], false, option_map, find, bytes_eq, take, length, OnOk};
ghost use Rattle.cxx_ast.specs.Locals.{has_variable};

use crate::NoMemory;
use crate::kind::Kind;
use indexmap::IndexMap;
use std::alloc::Global;
use std::marker::Model;

/// A parameter or a local variable, with its number in the function.
#[derive(Drop)]
pub struct Variable<'t> {
    text: &'t [u8],
    kind: Kind,
    is_const: bool,
    number: usize,
}

impl<'t> Model for Variable<'t> {
    ghost use Rattle.cxx_ast.specs.Environment as environment;

    ghost Value = { environment.Variable };

    ghost use Rattle.cxx_rules.specs.KindOf.{kind_of};

    ghost view = { λ v. record { text = v.text.now; kind = kind_of v.kind; is_const = v.is_const; number = v.number } };
}

impl<'t> Variable<'t> {
    ghost use Rattle.cxx_rules.specs.KindOf.{kind_of};

    pub fn new(text: &'t [u8], kind: Kind, is_const: bool, number: usize) -> Self
        ensures { result ≡ record { text = text.now; kind = kind_of kind; is_const = is_const; number = number } }
    {
        Variable {
            text,
            kind,
            is_const,
            number,
        }
    }

    pub fn text(&self) -> &'t [u8]
        ensures { result.now ≡ self.now.text }
    {
        self.text
    }

    pub fn kind(&self) -> Kind
        ensures { kind_of result ≡ self.now.kind }
    {
        self.kind
    }

    pub fn is_const(&self) -> bool
        ensures { result ≡ self.now.is_const }
    {
        self.is_const
    }

    pub fn number(&self) -> usize
        ensures { result ≡ self.now.number }
    {
        self.number
    }
}

/// Variables in order, each found at once by its name, which no other has.
#[derive(Drop)]
pub struct Row<'t> {
    variables: IndexMap<Vec<u8>, Variable<'t>>,
}

impl<'t> Model for Row<'t> {
    ghost use Rattle.std.specs.Prelude.{List};
    ghost use Rattle.cxx_ast.specs.Environment as environment;

    ghost Value = { List environment.Variable };

    ghost use Rattle.cxx_rules.specs.ScopeOf.{variables_of, AreNamed};

    ghost view = { λ r. variables_of r.variables.entries };

    ghost invariant = { λ r. AreNamed r.variables.entries };
}

impl<'t> Row<'t> {
    /// No variables.
    pub fn new(alloc: Global) -> Self
        ensures { result ≡ [] }
    {
        Row {
            variables: IndexMap::new(alloc),
        }
    }

    /// How many variables there are.
    pub fn len(&self) -> usize
        ensures { result ≡ length self.now }
    {
        self.variables.len()
    }

    /// The variable of a name.
    pub fn get(&self, text: &[u8]) -> Option<&Variable<'t>>
        ensures { option_map (λ v. v.now) result ≡ find (λ v. bytes_eq v.text text.now) self.now }
    {
        self.variables.get(text)
    }

    /// A variable has a name.
    pub fn contains(&self, text: &[u8]) -> bool
        ensures { result ≡ has_variable text.now self.now }
    {
        self.get(text).is_some()
    }

    /// Puts a variable behind the others, none of which has its name.
    pub fn push(&mut self, variable: Variable<'t>) -> Result<(), NoMemory>
        requires { has_variable variable.text self.old ≡ false }
        ensures { OnOk result (self.new ≡ self.old ++ variable.entry ∷ []) }
    {
        let name = Vec::from_slice(*self.variables.allocator(), variable.text())?;
        self.variables.insert(name, variable)?;
        Ok(())
    }

    /// Keeps the first variables.
    pub fn truncate(&mut self, count: usize)
        ensures { self.new ≡ take count self.old }
    {
        self.variables.truncate(count);
    }
}
