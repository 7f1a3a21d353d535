// The declarations of functions.
ghost use Rattle.std.specs.Prelude.{◌≡◌, ◌++◌, ◌∷◌, [], List, option_map, find, bytes_eq, slice_get, not, ◌||◌, Some, OnOk, OnErr};
ghost use Rattle.cxx_ast.specs.Broken.{agree, differs_from, defined_in};
ghost use Rattle.cxx_ast.specs.Environment as environment;
ghost use Rattle.cxx_rules.specs.SignaturesOf.{Says, IsNoted, AreNoted};

use crate::NoMemory;
use crate::agree::agree;
use crate::entry::Signature;
use indexmap::IndexMap;
use std::alloc::Global;
use std::marker::Model;

/// Of the declarations of a name: where the first stands, whether one differs from it, and whether one is a definition.
#[derive(Clone, Copy, Drop)]
pub struct Noted {
    first: usize,
    differs: bool,
    is_defined: bool,
}

/// The declarations of functions in order, with what is noted of each name.
#[derive(Drop)]
pub struct Signatures<'t> {
    items: Vec<Signature<'t>>,
    noted: IndexMap<Vec<u8>, Noted>,
}

impl<'t> Model for Signatures<'t> {
    ghost use Rattle.std.specs.Prelude.{List};
    ghost use Rattle.cxx_ast.specs.Environment as environment;

    ghost Value = { List environment.Signature };

    ghost use Rattle.cxx_rules.specs.SignaturesOf.{AreNoted};

    ghost view = { λ s. s.items.items };

    ghost invariant = { λ s. AreNoted s.noted.entries s.items.items };
}

impl<'t> Signatures<'t> {
    /// No declarations.
    pub fn new(alloc: Global) -> Self
        ensures { result ≡ [] }
    {
        Signatures {
            items: Vec::new(alloc),
            noted: IndexMap::new(alloc),
        }
    }

    // What is noted of a name.
    fn noted(&self, text: &[u8]) -> Option<Noted>
        ensures { Says text.now self.now result }
    {
        self.noted.get(text).copied()
    }

    // The declaration at a place differs from another.
    fn is_apart(&self, first: usize, s: &Signature<'_>) -> bool
        ensures { (f : environment.Signature) → slice_get self.now first ≡ Some f → result ≡ not (agree f s.now) }
    {
        match self.items.get(first) {
            None => false,
            Some(f) => !agree(f, s),
        }
    }

    // One of the declarations of a name, of which this is noted, differs from another.
    fn differs_by(&self, noted: Noted, s: &Signature<'_>) -> bool
        ensures { (f : environment.Signature) → slice_get self.now noted.first ≡ Some f → result ≡ (noted.differs || not (agree f s.now)) }
    {
        noted.differs || self.is_apart(noted.first, s)
    }

    /// The first declaration of a name.
    pub fn first(&self, text: &[u8]) -> Option<&Signature<'t>>
        ensures { option_map (λ s. s.now) result ≡ find (λ s. bytes_eq s.name.text text.now) self.now }
    {
        match self.noted(text) {
            None => None,
            Some(noted) => self.items.get(noted.first),
        }
    }

    /// One of the declarations of a function differs from another.
    pub fn differs_from(&self, s: &Signature<'_>) -> bool
        ensures { result ≡ differs_from self.now s.now }
    {
        match self.noted(s.name().text.as_bytes()) {
            None => false,
            Some(noted) => self.differs_by(noted, s),
        }
    }

    /// A function is defined among the declarations.
    pub fn defines(&self, text: &[u8]) -> bool
        ensures { result ≡ defined_in self.now text.now }
    {
        match self.noted(text) {
            None => false,
            Some(noted) => noted.is_defined,
        }
    }

    // What is noted of a name with one declaration more.
    fn noted_with(&self, s: &Signature<'_>) -> Noted
        ensures { IsNoted s.now.name.text (self.now ++ s.now ∷ []) result }
    {
        match self.noted(s.name().text.as_bytes()) {
            None => Noted {
                first: self.items.len(),
                differs: false,
                is_defined: s.is_defined(),
            },
            Some(noted) => Noted {
                first: noted.first,
                differs: self.differs_by(noted, s),
                is_defined: is_either(noted.is_defined, s.is_defined()),
            },
        }
    }

    /// Puts a declaration behind the others.
    pub fn add(&mut self, alloc: Global, signature: Signature<'t>) -> Result<(), NoMemory>
        ensures { OnOk result (self.new ≡ self.old ++ signature.entry ∷ []) }
    {
        let with_it = self.noted_with(&signature);
        // The room comes first, so that nothing is noted of a declaration that is not put in.
        self.items.reserve(1)?;
        note(
            alloc,
            &mut self.noted,
            signature.name().text.as_bytes(),
            with_it,
        )?;
        self.items.push(signature)?;
        Ok(())
    }
}

// Notes something of a name.
fn note(
    alloc: Global,
    noted: &mut IndexMap<Vec<u8>, Noted>,
    text: &[u8],
    entry: Noted,
) -> Result<(), NoMemory>
    ensures ok { (ss : List environment.Signature) (s : environment.Signature) → AreNoted noted.old.entries ss → s.name.text ≡ text.now → IsNoted text.now (ss ++ s ∷ []) entry → OnOk result (AreNoted noted.new.entries (ss ++ s ∷ [])) }
    ensures err { OnErr result (noted.new.entries ≡ noted.old.entries) }
{
    noted.insert(Vec::from_slice(alloc, text)?, entry)?;
    Ok(())
}

// One of two is so.
fn is_either(one: bool, other: bool) -> bool
    ensures { result ≡ (one || other) }
{
    one || other
}
