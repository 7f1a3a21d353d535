// The least places at which names stand.
ghost use Rattle.std.specs.Prelude.{◌≡◌, ◌++◌, ◌∷◌, [], List, OnOk};
ghost use Rattle.cxx_ast.specs.declared.name.Name.{Name};
ghost use Rattle.cxx_ast.specs.ClassRules.{stands_before};
ghost use Rattle.cxx_check.specs.Places.{lesser_place};

use crate::NoMemory;
use cxx_ast::name::Name;
use indexmap::IndexMap;
use std::alloc::Global;

/// Texts, each with the least place at which it stands.
#[derive(Drop)]
pub struct Places {
    first: IndexMap<Vec<u8>, u32>,
}

// A place, or that of another name where it is less.
fn lesser_place(place: u32, other: Option<u32>) -> u32
    ensures { result ≡ lesser_place place other }
{
    match other {
        None => place,
        Some(p) => p.min(place),
    }
}

impl Places {
    ghost use Rattle.cxx_check.specs.PlacesOf.{Hold};

    /// No names.
    pub fn new(alloc: Global) -> Self
        ensures { Hold result [] }
    {
        Places {
            first: IndexMap::new(alloc),
        }
    }

    /// Takes a name more.
    pub fn add(&mut self, alloc: Global, name: &Name) -> Result<(), NoMemory>
        ensures { (names : List Name) → Hold self.old names → OnOk result (Hold self.new (names ++ name.now ∷ [])) }
    {
        let text = name.text.as_bytes();
        let least = lesser_place(name.place, self.first.get(text).copied());
        let key = Vec::from_slice(alloc, text)?;
        self.first.insert(key, least)?;
        Ok(())
    }

    /// A name of the same text stands before a name.
    pub fn has_before(&self, name: &Name) -> bool
        ensures { (names : List Name) → Hold self.now names → result ≡ stands_before names name.now }
    {
        match self.first.get(name.text.as_bytes()) {
            None => false,
            Some(place) => *place < name.place,
        }
    }
}
