// Names as they are written, type by type.
ghost use Rattle.std.specs.Prelude.{◌≡◌, ◌+◌, [], true, false, position, OnOk, IfOk};
ghost use Rattle.meaning_forms.specs.Class.{class_named};
ghost use Rattle.symbol_names.specs.Component.{is_same, substitution};
ghost use Rattle.symbol_names.specs.Mangled.{put, remember, put_source_name, put_class_name, put_object, put_constant, put_reference, put_type, put_parameters};

use crate::NoMemory;
use crate::component::{Component, place_of};
use crate::digits::{put_decimal, put_substitution};
use cxx_ast::name::Name;
use cxx_ast::types::{Param, Ty};
use scope_world::class_named;
use std::alloc::Global;
use std::marker::Model;

// The number of int among types.
const INT: u64 = 0;

/// A name so far, and the components to which it may refer.
#[derive(Drop)]
pub struct Mangling {
    text: Vec<u8>,
    seen: Vec<Component>,
}

impl Model for Mangling {
    ghost use Rattle.symbol_names.specs.Mangled.{Mangled};

    ghost Value = { Mangled };

    ghost view = { λ m. record { text = m.text.items; seen = m.seen.items } };
}

impl Mangling {
    /// A name that begins so.
    pub fn new(alloc: Global, front: &[u8]) -> Result<Self, NoMemory>
        ensures { IfOk result (λ m. m ≡ record { text = front.now; seen = [] }) }
    {
        Ok(Mangling {
            text: Vec::from_slice(alloc, front)?,
            seen: Vec::new(alloc),
        })
    }

    /// The name.
    pub fn into_text(self) -> Vec<u8>
        ensures { result.items ≡ self.text }
    {
        let Mangling { text, .. } = self;
        text
    }

    /// Goes on with a text.
    pub fn put(&mut self, text: &[u8]) -> Result<(), NoMemory>
        ensures { OnOk result (self.new ≡ put text.now self.old) }
    {
        self.text.extend_from_slice(text)
    }

    /// Goes on with a name of the source, behind its length.
    pub fn put_source_name(&mut self, name: &[u8]) -> Result<(), NoMemory>
        ensures { OnOk result (self.new ≡ put_source_name name.now self.old) }
    {
        put_decimal(&mut self.text, name.len())?;
        self.text.extend_from_slice(name)
    }

    // Goes on with the name of a class by its number among types; the first is `std::bad_exception`.
    fn put_class_name(&mut self, number: u64, name: &[u8]) -> Result<(), NoMemory>
        ensures { OnOk result (self.new ≡ put_class_name number name.now self.old) }
    {
        if number == 1 {
            self.put(b"St13bad_exception".as_slice())
        } else {
            self.put_source_name(name)
        }
    }

    // Refers to a component by its number among those that were written.
    fn refer(&mut self, number: usize) -> Result<(), NoMemory>
        ensures { OnOk result (self.new ≡ put (substitution number) self.old) }
    {
        put_substitution(&mut self.text, number)
    }

    // A component that is written now may be referred to.
    fn remember(&mut self, component: Component) -> Result<(), NoMemory>
        ensures { OnOk result (self.new ≡ remember component self.old) }
    {
        self.seen.push(component)?;
        Ok(())
    }

    fn place_of(&self, component: Component) -> Option<usize>
        ensures { result ≡ position (is_same component) self.now.seen }
    {
        place_of(&component, self.seen.as_slice())
    }

    /// Goes on with int, or with a class, by its number among types.
    pub fn put_object(&mut self, number: u64, name: &[u8]) -> Result<(), NoMemory>
        ensures { OnOk result (self.new ≡ put_object number name.now self.old) }
    {
        if number == INT {
            return self.put(b"i".as_slice());
        }
        let component = Component::Object(number);
        match self.place_of(component) {
            Some(place) => self.refer(place),
            None => {
                self.put_class_name(number, name)?;
                self.remember(component)
            }
        }
    }

    fn put_constant(&mut self, number: u64, name: &[u8]) -> Result<(), NoMemory>
        ensures { OnOk result (self.new ≡ put_constant number name.now self.old) }
    {
        let component = Component::Constant(number);
        match self.place_of(component) {
            Some(place) => self.refer(place),
            None => {
                self.put(b"K".as_slice())?;
                self.put_object(number, name)?;
                self.remember(component)
            }
        }
    }

    fn put_plain_reference(&mut self, number: u64, name: &[u8]) -> Result<(), NoMemory>
        ensures { OnOk result (self.new ≡ put_reference false number name.now self.old) }
    {
        let component = Component::Reference(number);
        match self.place_of(component) {
            Some(place) => self.refer(place),
            None => {
                self.put(b"R".as_slice())?;
                self.put_object(number, name)?;
                self.remember(component)
            }
        }
    }

    fn put_reference_to_constant(&mut self, number: u64, name: &[u8]) -> Result<(), NoMemory>
        ensures { OnOk result (self.new ≡ put_reference true number name.now self.old) }
    {
        let component = Component::ReferenceToConstant(number);
        match self.place_of(component) {
            Some(place) => self.refer(place),
            None => {
                self.put(b"R".as_slice())?;
                self.put_constant(number, name)?;
                self.remember(component)
            }
        }
    }

    fn put_reference(&mut self, constant: bool, number: u64, name: &[u8]) -> Result<(), NoMemory>
        ensures { OnOk result (self.new ≡ put_reference constant number name.now self.old) }
    {
        if constant {
            self.put_reference_to_constant(number, name)
        } else {
            self.put_plain_reference(number, name)
        }
    }

    fn put_type(&mut self, ty: &Ty) -> Result<(), NoMemory>
        ensures { OnOk result (self.new ≡ put_type ty.now self.old) }
    {
        match ty {
            Ty::Int => self.put_object(INT, b"".as_slice()),
            Ty::Void => self.put(b"v".as_slice()),
            Ty::Object(name) => self.put_object(number_of(name), name.text.as_bytes()),
            Ty::IntRef(constant) => self.put_reference(*constant, INT, b"".as_slice()),
            Ty::ObjectRef(constant, name) => {
                self.put_reference(*constant, number_of(name), name.text.as_bytes())
            }
        }
    }

    /// Goes on with the types of parameters.
    pub fn put_parameters(&mut self, params: &[Param]) -> Result<(), NoMemory>
        ensures { OnOk result (self.new ≡ put_parameters params.now self.old) }
    {
        if params.is_empty() {
            return self.put(b"v".as_slice());
        }
        let mut rest = params;
        'params: while let Some((param, others)) = rest.split_first() {
            self.put_type(&param.ty)?;
            rest = others;
        }
        Ok(())
    }

    /// Goes on with a reference to a const object of a class.
    pub fn put_copied(&mut self, class: u32, name: &[u8]) -> Result<(), NoMemory>
        ensures { OnOk result (self.new ≡ put_reference true (class + 1) name.now self.old) }
    {
        self.put_reference_to_constant(u64::from(class) + 1, name)
    }

    /// Goes on with a class by its number, to which the name may refer from then on.
    pub fn put_class(&mut self, class: u32, name: &[u8]) -> Result<(), NoMemory>
        ensures { OnOk result (self.new ≡ put_object (class + 1) name.now self.old) }
    {
        self.put_object(u64::from(class) + 1, name)
    }
}

// The number of a class among types.
fn number_of(name: &Name) -> u64
    ensures { result ≡ class_named name.now + 1 }
{
    u64::from(class_named(name)) + 1
}
