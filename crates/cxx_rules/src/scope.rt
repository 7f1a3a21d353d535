// The variables in reach where a name stands.
ghost use Rattle.std.specs.Prelude.{◌≡◌, option_map, OnOk, IfOk, ◌+◌, [], ◌∷◌};
ghost use Rattle.cxx_ast.specs.Locals.{declare, inner, outermost};
ghost use Rattle.cxx_ast.specs.Lookup.{variable_named};
ghost use Rattle.cxx_rules.specs.KindOf.{kind_of};
ghost use Rattle.cxx_rules.specs.Walk.{first_length, rewound};
ghost use Rattle.cxx_rules.specs.ScopeOf.{with_loop, closed, has_first};

use crate::NoMemory;
use crate::kind::Kind;
use crate::row::{Row, Variable};
use cxx_ast::name::Name;
use std::alloc::Global;
use std::marker::Model;

/// Where a name stands: the variables in reach, innermost scope first, and how many the function has declared; the class of the
/// function, of which only the members before a place are in reach, where one is given; whether the function gives a value;
/// whether a loop is round it.
#[derive(Drop)]
pub struct Scope<'t> {
    rows: Vec<Row<'t>>,
    next: usize,
    own: Option<usize>,
    limit: Option<u32>,
    gives_value: bool,
    in_loop: bool,
}

impl<'t> Model for Scope<'t> {
    ghost use Rattle.cxx_ast.specs.Environment as environment;

    ghost Value = { environment.Scope };

    ghost view = { λ s. record {
      locals = s.rows.items;
      next = s.next;
      own = s.own;
      limit = s.limit;
      gives_value = s.gives_value;
      in_loop = s.in_loop;
    } };
}

// The first scope has a name.
fn has_first(rows: &[Row<'_>], text: &[u8]) -> bool
    ensures { result ≡ has_first text.now rows.now }
{
    match rows {
        [] => false,
        [row, ..] => row.contains(text),
    }
}

// The variable of a name in the first scope that has one.
fn variable_among<'a, 't>(rows: &'a [Row<'t>], text: &[u8]) -> Option<&'a Variable<'t>>
    ensures { option_map (λ v. v.now) result ≡ variable_named text.now rows.now }
{
    for row in rows {
        if let Some(v) = row.get(text) {
            return Some(v);
        }
    }
    None
}

impl<'t> Scope<'t> {
    /// The scope of heads and of globals, of which a class's members before a place are in reach, where they are given.
    pub fn outermost(alloc: Global, own: Option<usize>, limit: Option<u32>) -> Self
        ensures { result ≡ record outermost { own = own; limit = limit } }
    {
        Scope {
            rows: Vec::new(alloc),
            next: 0,
            own,
            limit,
            gives_value: false,
            in_loop: false,
        }
    }

    /// The scope of a function's parameters, in a class or in none.
    pub fn function(alloc: Global, own: Option<usize>, gives_value: bool) -> Result<Self, NoMemory>
        ensures { IfOk result (λ s. s ≡ record outermost { locals = [] ∷ []; own = own; gives_value = gives_value }) }
    {
        let mut rows = Vec::new(alloc);
        rows.push(Row::new(alloc))?;
        Ok(Scope {
            rows,
            next: 0,
            own,
            limit: None,
            gives_value,
            in_loop: false,
        })
    }

    /// The variable of a name in the innermost scope that has one.
    pub fn variable(&self, text: &[u8]) -> Option<&Variable<'t>>
        ensures { option_map (λ v. v.now) result ≡ variable_named text.now self.now.locals }
    {
        variable_among(self.rows.as_slice(), text)
    }

    /// How many variables the function has declared.
    pub fn next(&self) -> usize
        ensures { result ≡ self.now.next }
    {
        self.next
    }

    pub fn own(&self) -> Option<usize>
        ensures { result ≡ self.now.own }
    {
        self.own
    }

    pub fn limit(&self) -> Option<u32>
        ensures { result ≡ self.now.limit }
    {
        self.limit
    }

    pub fn gives_value(&self) -> bool
        ensures { result ≡ self.now.gives_value }
    {
        self.gives_value
    }

    pub fn in_loop(&self) -> bool
        ensures { result ≡ self.now.in_loop }
    {
        self.in_loop
    }

    /// Opens a scope inside the innermost.
    pub fn open(&mut self, alloc: Global) -> Result<(), NoMemory>
        ensures { OnOk result (self.new ≡ inner self.old) }
    {
        self.rows.insert(0, Row::new(alloc))?;
        Ok(())
    }

    /// Closes the innermost scope.
    pub fn close(&mut self)
        ensures { self.new ≡ closed self.old }
    {
        if !self.rows.is_empty() {
            self.rows.remove(0);
        }
    }

    /// How many variables the innermost scope has.
    pub fn mark(&self) -> usize
        ensures { result ≡ first_length self.now.locals }
    {
        match self.rows.as_slice() {
            [] => 0,
            [row, ..] => row.len(),
        }
    }

    /// Forgets all but so many variables of the innermost scope.
    pub fn rewind(&mut self, count: usize)
        ensures { self.new ≡ rewound count self.old }
    {
        if !self.rows.is_empty() {
            self.rows[0].truncate(count);
        }
    }

    /// Sets whether a loop is round it.
    pub fn set_in_loop(&mut self, in_loop: bool)
        ensures { self.new ≡ with_loop in_loop self.old }
    {
        self.in_loop = in_loop;
    }

    /// The innermost scope has a name.
    pub fn has(&self, text: &[u8]) -> bool
        ensures { result ≡ has_first text.now self.now.locals }
    {
        has_first(self.rows.as_slice(), text)
    }

    /// Declares a variable in the innermost scope, where the first of a name stands.
    pub fn declare(&mut self, name: &'t Name, kind: Kind, is_const: bool) -> Result<(), NoMemory>
        ensures { OnOk result (self.new ≡ declare name.now (kind_of kind) is_const self.old) }
    {
        let text = name.text.as_bytes();
        let next = one_more(self.next)?;
        if !self.rows.is_empty() && !self.has(text) {
            self.rows[0].push(Variable::new(text, kind, is_const, self.next))?;
        }
        self.next = next;
        Ok(())
    }

    /// Counts a parameter without a name.
    pub fn skip(&mut self) -> Result<(), NoMemory>
        ensures { OnOk result (self.new ≡ record self.old { next = self.old.next + 1 }) }
    {
        self.next = one_more(self.next)?;
        Ok(())
    }
}

// The next number; more variables than there are numbers have no room.
fn one_more(number: usize) -> Result<usize, NoMemory>
    ensures { IfOk result (λ n. n ≡ number + 1) }
{
    number.checked_add(1).ok_or(NoMemory)
}
