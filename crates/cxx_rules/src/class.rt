// What is known of classes.
ghost use Rattle.std.specs.Prelude.{◌≡◌, None, position, bytes_eq, IfOk};
ghost use Rattle.cxx_rules.specs.NamesOf.{field_texts, function_texts};

use crate::NoMemory;
use crate::entry::{Field, Signature};
use crate::size::Size;
use crate::texts::Texts;
use std::alloc::Global;
use std::marker::Model;

// The names of the parts of a class.
#[derive(Drop)]
pub struct PartNames {
    fields: Texts,
    functions: Texts,
}

/// A class. Each of its parts is found at once by its name.
#[derive(Drop)]
pub struct ClassEntry<'t> {
    name: &'t [u8],
    base: Option<usize>,
    fields: Vec<Field<'t>>,
    functions: Vec<Signature<'t>>,
    size: Size,
    chain: usize,
    has_default: bool,
    names: Box<PartNames>,
}

impl<'t> Model for ClassEntry<'t> {
    ghost use Rattle.cxx_ast.specs.Environment as environment;

    ghost Value = { environment.ClassEntry };

    ghost use Rattle.std.specs.Prelude.{◌≡◌};
    ghost use Rattle.cxx_rules.specs.NamesOf.{field_texts, function_texts};

    ghost view = { λ c. record {
      name = c.name.now;
      base = c.base;
      fields = c.fields.items;
      functions = c.functions.items;
      size = c.size;
      chain = c.chain;
      has_default = c.has_default;
    } };

    ghost invariant = { λ c. (c.names.value.fields ≡ field_texts c.fields.items) × (c.names.value.functions ≡ function_texts c.functions.items) };
}

impl<'t> ClassEntry<'t> {
    ghost use Rattle.cxx_rules.specs.Known.{bad_exception};
    ghost use Rattle.cxx_rules.specs.NamesOf.{field_texts, function_texts};

    /// The class `std::bad_exception`, which has no parts.
    pub fn bad_exception(alloc: Global) -> Result<Self, NoMemory>
        ensures { IfOk result (λ c. c ≡ bad_exception) }
    {
        let name = b"std::bad_exception".as_slice();
        let size = Size::new(alloc, 4)?;
        ClassEntry::new(
            alloc,
            name,
            None,
            Vec::new(alloc),
            Vec::new(alloc),
            size,
            1,
            true,
        )
    }

    /// A class of its parts.
    pub fn new(
        alloc: Global,
        name: &'t [u8],
        base: Option<usize>,
        fields: Vec<Field<'t>>,
        functions: Vec<Signature<'t>>,
        size: Size,
        chain: usize,
        has_default: bool,
    ) -> Result<Self, NoMemory>
        ensures { IfOk result (λ c. c ≡ record { name = name.now; base = base; fields = fields.entry.items; functions = functions.entry.items; size = size; chain = chain; has_default = has_default }) }
    {
        let names = part_names(alloc, fields.as_slice(), functions.as_slice())?;
        Ok(ClassEntry {
            name,
            base,
            fields,
            functions,
            size,
            chain,
            has_default,
            names,
        })
    }

    pub fn name(&self) -> &'t [u8]
        ensures { result.now ≡ self.now.name }
    {
        self.name
    }

    pub fn base(&self) -> Option<usize>
        ensures { result ≡ self.now.base }
    {
        self.base
    }

    pub fn fields(&self) -> &[Field<'t>]
        ensures { result.now ≡ self.now.fields }
    {
        self.fields.as_slice()
    }

    pub fn functions(&self) -> &[Signature<'t>]
        ensures { result.now ≡ self.now.functions }
    {
        self.functions.as_slice()
    }

    pub fn size(&self) -> &Size
        ensures { result.now ≡ self.now.size }
    {
        &self.size
    }

    pub fn chain(&self) -> usize
        ensures { result ≡ self.now.chain }
    {
        self.chain
    }

    pub fn has_default(&self) -> bool
        ensures { result ≡ self.now.has_default }
    {
        self.has_default
    }

    /// The first data member of a name.
    pub fn first_field(&self, text: &[u8]) -> Option<usize>
        ensures { result ≡ position (λ d. bytes_eq d text.now) (field_texts self.now.fields) }
    {
        self.names.fields.position(text)
    }

    /// The first function of a name.
    pub fn first_function(&self, text: &[u8]) -> Option<usize>
        ensures { result ≡ position (λ d. bytes_eq d text.now) (function_texts self.now.functions) }
    {
        self.names.functions.position(text)
    }
}

// The names of data members.
fn field_names(alloc: Global, fields: &[Field<'_>]) -> Result<Texts, NoMemory>
    ensures { IfOk result (λ names. names ≡ field_texts fields.now) }
{
    let mut names = Texts::new(alloc);
    for f in fields {
        names.add(alloc, f.name().text.as_bytes())?;
    }
    Ok(names)
}

// The names of functions.
fn function_names(alloc: Global, functions: &[Signature<'_>]) -> Result<Texts, NoMemory>
    ensures { IfOk result (λ names. names ≡ function_texts functions.now) }
{
    let mut names = Texts::new(alloc);
    for f in functions {
        names.add(alloc, f.name().text.as_bytes())?;
    }
    Ok(names)
}

// The names of the parts of a class.
fn part_names(
    alloc: Global,
    fields: &[Field<'_>],
    functions: &[Signature<'_>],
) -> Result<Box<PartNames>, NoMemory>
    ensures { IfOk result (λ n. (n.value.fields ≡ field_texts fields.now) × (n.value.functions ≡ function_texts functions.now)) }
{
    let fields = field_names(alloc, fields)?;
    let functions = function_names(alloc, functions)?;
    let names = Box::new(alloc, PartNames { fields, functions })?;
    Ok(names)
}
