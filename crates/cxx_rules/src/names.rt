// The names of globals, functions and classes.
ghost use Rattle.std.specs.Prelude.{◌≡◌, ◌++◌, ◌∷◌, [], option_map, find, bytes_eq, OnOk, None};

use crate::NoMemory;
use indexmap::IndexMap;
use std::alloc::Global;
use std::marker::Model;

/// What a name of the one scope stands for.
#[derive(Clone, Copy, Drop)]
pub enum Thing {
    /// A global by its number.
    Global(usize),
    /// A class by its number.
    Class(usize),
    Function,
}

/// The names of the scope that globals, functions and classes share. Contracts see them in order of first declaration.
#[derive(Drop)]
pub struct Names {
    map: IndexMap<Vec<u8>, Thing>,
}

impl Model for Names {
    ghost use Rattle.std.specs.Prelude.{List};
    ghost use Rattle.cxx_ast.specs.Environment.{Entry};

    ghost Value = { List Entry };

    ghost use Rattle.std.specs.Prelude.{map as each};
    ghost use Rattle.cxx_rules.specs.NamesOf.{entry_of};

    ghost view = { λ n. each entry_of n.map.entries };
}

impl Names {
    ghost use Rattle.cxx_rules.specs.NamesOf.{thing_of};

    /// No names.
    pub fn new(alloc: Global) -> Self
        ensures { result ≡ [] }
    {
        Names {
            map: IndexMap::new(alloc),
        }
    }

    /// What a name stands for.
    pub fn get(&self, text: &[u8]) -> Option<Thing>
        ensures { option_map thing_of result ≡ option_map (λ e. e.thing) (find (λ e. bytes_eq e.text text.now) self.now) }
    {
        self.map.get(text).copied()
    }

    /// Adds a name that is not there.
    pub fn add(&mut self, alloc: Global, text: &[u8], thing: Thing) -> Result<(), NoMemory>
        requires { find (λ e. bytes_eq e.text text.now) self.old ≡ None }
        ensures { OnOk result (self.new ≡ self.old ++ (record { text = text.now; thing = thing_of thing }) ∷ []) }
    {
        self.map.insert(Vec::from_slice(alloc, text)?, thing)?;
        Ok(())
    }
}
