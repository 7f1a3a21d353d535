// What is known of the names that a program declared so far.
ghost use Rattle.std.specs.Prelude.{◌≡◌, ◌∷◌, [], true, option_map, find, bytes_eq, slice_get, length, IfOk, OnOk};
ghost use Rattle.cxx_ast.specs.ClassRules.{is_taken};
ghost use Rattle.cxx_ast.specs.Declare.{with_name, with_class, with_signature};
ghost use Rattle.cxx_ast.specs.FunctionRules.{has_text};
ghost use Rattle.cxx_ast.specs.Lookup.{entry_of};
ghost use Rattle.cxx_ast.specs.Resolve.{function_number};
ghost use Rattle.cxx_rules.specs.Known.{bad_exception, part_names, HasNoMember};
ghost use Rattle.cxx_rules.specs.NamesOf.{field_texts, function_texts};
ghost use Rattle.cxx_rules.specs.Positions.{AreAmong};

use crate::NoMemory;
use crate::class::ClassEntry;
use crate::entry::{Field, Signature};
use crate::names::{Names, Thing};
use crate::signatures::Signatures;
use crate::texts::Texts;
use std::alloc::Global;
use std::marker::Model;

/// The classes by number, the names of the one scope in order, how many globals there are, each declaration of a function, and
/// the names of all functions that the program defines. `members` has the names of all parts of classes, maybe of others too.
#[derive(Drop)]
pub struct Environment<'t> {
    classes: Vec<ClassEntry<'t>>,
    names: Names,
    globals: usize,
    signatures: Signatures<'t>,
    members: Texts,
    definitions: Texts,
}

impl<'t> Model for Environment<'t> {
    ghost use Rattle.cxx_ast.specs.Environment as environment;
    ghost use Rattle.cxx_rules.specs.Known.{HaveMembers};

    ghost Value = { environment.Environment };

    ghost view = { λ e. record {
      classes = e.classes.items;
      names = e.names;
      globals = e.globals;
      signatures = e.signatures;
      definitions = e.definitions;
    } };

    ghost invariant = { λ e. HaveMembers e.members e.classes.items };
}

impl<'t> Environment<'t> {
    ghost use Rattle.cxx_rules.specs.Known.{known_at_first, front_of, with_declaration, with_global};
    ghost use Rattle.cxx_rules.specs.KindOf.{kind_of};
    ghost use Rattle.cxx_rules.specs.NamesOf.{thing_of};

    /// What is known before the first declaration, where the names of the functions that the program defines are given.
    pub fn new(alloc: Global, definitions: Texts) -> Result<Self, NoMemory>
        ensures { IfOk result (λ e. e ≡ known_at_first definitions) }
    {
        let classes = first_classes(alloc)?;
        Ok(Environment {
            classes,
            names: Names::new(alloc),
            globals: 0,
            signatures: Signatures::new(alloc),
            members: Texts::new(alloc),
            definitions,
        })
    }

    /// A name of the one scope is taken.
    pub fn is_taken(&self, text: &[u8]) -> bool
        ensures { result ≡ is_taken self.now text.now }
    {
        self.thing(text).is_some()
    }

    /// Takes a name more; the first of a name stands.
    pub fn add_name(&mut self, alloc: Global, text: &[u8], thing: Thing) -> Result<(), NoMemory>
        ensures { OnOk result (self.new ≡ with_name self.old text.now (thing_of thing)) }
    {
        if self.is_taken(text) {
            return Ok(());
        }
        self.names.add(alloc, text, thing)
    }

    /// Takes a class more.
    pub fn add_class(&mut self, alloc: Global, entry: ClassEntry<'t>) -> Result<(), NoMemory>
        ensures { OnOk result (self.new ≡ with_class self.old entry.entry) }
    {
        add_members(alloc, &mut self.members, &entry)?;
        self.classes.push(entry)?;
        Ok(())
    }

    /// Forgets the last class.
    pub fn remove_class(&mut self)
        ensures { self.new ≡ record self.old { classes = front_of self.old.classes } }
    {
        let before = self.classes.len().saturating_sub(1);
        self.classes.truncate(before);
    }

    // Takes a declaration of a function more.
    fn add_declaration(&mut self, alloc: Global, signature: Signature<'t>) -> Result<(), NoMemory>
        ensures { OnOk result (self.new ≡ with_declaration self.old signature.entry) }
    {
        self.signatures.add(alloc, signature)
    }

    /// Takes a function of the one scope more, unless the name stands for something else.
    pub fn add_signature(&mut self, alloc: Global, signature: Signature<'t>) -> Result<(), NoMemory>
        ensures { OnOk result (self.new ≡ with_signature self.old signature.entry) }
    {
        let text = signature.name().text.as_bytes();
        match self.thing(text) {
            None => {
                self.add_name(alloc, text, Thing::Function)?;
                self.add_declaration(alloc, signature)
            }
            Some(Thing::Function) => self.add_declaration(alloc, signature),
            Some(_) => Ok(()),
        }
    }

    /// Takes a global more.
    pub fn add_global(&mut self, alloc: Global, text: &[u8]) -> Result<(), NoMemory>
        ensures { OnOk result (self.new ≡ with_global self.old text.now) }
    {
        let globals = self.globals();
        let next = globals.checked_add(1).ok_or(NoMemory)?;
        self.add_name(alloc, text, Thing::Global(globals))?;
        self.globals = next;
        Ok(())
    }

    /// A class by its number.
    pub fn class(&self, number: usize) -> Option<&ClassEntry<'t>>
        ensures { option_map (λ c. c.now) result ≡ slice_get self.now.classes number }
    {
        self.classes.get(number)
    }

    /// How many classes there are.
    pub fn class_count(&self) -> usize
        ensures { result ≡ length self.now.classes }
    {
        self.classes.len()
    }

    /// The declarations of functions.
    pub fn signatures(&self) -> &Signatures<'t>
        ensures { result.now ≡ self.now.signatures }
    {
        &self.signatures
    }

    /// No class has a part of a name.
    pub fn has_no_member(&self, text: &[u8]) -> bool
        ensures { result ≡ true → HasNoMember text.now self.now.classes }
    {
        !self.members.contains(text)
    }

    /// How many globals there are.
    pub fn globals(&self) -> usize
        ensures { result ≡ self.now.globals }
    {
        self.globals
    }

    /// What a name of the one scope stands for.
    pub fn thing(&self, text: &[u8]) -> Option<Thing>
        ensures { option_map thing_of result ≡ option_map (λ e. e.thing) (entry_of self.now text.now) }
    {
        self.names.get(text)
    }

    /// The first declaration of a function.
    pub fn function(&self, text: &[u8]) -> Option<&Signature<'t>>
        ensures { option_map (λ s. s.now) result ≡ find (λ s. bytes_eq s.name.text text.now) self.now.signatures }
    {
        self.signatures.first(text)
    }

    /// The number of a function among those that the program defines; one that is never defined has the number behind them.
    pub fn function_number(&self, text: &[u8]) -> usize
        ensures { result ≡ function_number self.now text.now }
    {
        self.definitions
            .position(text)
            .unwrap_or(self.definitions.len())
    }

    /// A function is among those that the program defines.
    pub fn defines(&self, text: &[u8]) -> bool
        ensures { result ≡ has_text text.now self.now.definitions }
    {
        self.definitions.contains(text)
    }
}

// The classes that each program has.
fn first_classes<'t>(alloc: Global) -> Result<Vec<ClassEntry<'t>>, NoMemory>
    ensures { IfOk result (λ cs. cs.items ≡ bad_exception ∷ []) }
{
    let mut classes = Vec::new(alloc);
    classes.push(ClassEntry::bad_exception(alloc)?)?;
    Ok(classes)
}

// The names of data members among those of parts of classes.
fn add_fields(alloc: Global, members: &mut Texts, fields: &[Field<'_>]) -> Result<(), NoMemory>
    ensures kept { AreAmong members.old members.new }
    ensures added { OnOk result (AreAmong (field_texts fields.now) members.new) }
{
    for field in fields {
        members.add_once(alloc, field.name().text.as_bytes())?;
    }
    Ok(())
}

// The names of functions among those of parts of classes.
fn add_functions(
    alloc: Global,
    members: &mut Texts,
    functions: &[Signature<'_>],
) -> Result<(), NoMemory>
    ensures kept { AreAmong members.old members.new }
    ensures added { OnOk result (AreAmong (function_texts functions.now) members.new) }
{
    for function in functions {
        members.add_once(alloc, function.name().text.as_bytes())?;
    }
    Ok(())
}

// The names of a class's parts among those of parts of classes.
fn add_members(alloc: Global, members: &mut Texts, class: &ClassEntry<'_>) -> Result<(), NoMemory>
    ensures kept { AreAmong members.old members.new }
    ensures added { OnOk result (AreAmong (part_names class.now) members.new) }
{
    add_fields(alloc, members, class.fields())?;
    add_functions(alloc, members, class.functions())
}
