// Names by their positions in a list.
ghost use Rattle.std.specs.Prelude.{◌≡◌, ◌++◌, ◌∷◌, [], None, position, bytes_eq, IfOk, OnOk, OnErr, length, take, List, ℕ};
ghost use Rattle.cxx_ast.specs.FunctionRules.{has_text};
ghost use Rattle.cxx_rules.specs.Positions.{texts_of, ArePositions, AreAmong};

use crate::NoMemory;
use indexmap::IndexMap;
use std::alloc::Global;
use std::marker::Model;

// So many texts are sought one by one, which is faster than by a map.
const FEW: usize = 8;

/// A list of texts in which each is found at once, at its first position. The map has the positions of those that are not among
/// the first few.
#[derive(Drop)]
pub struct Texts {
    first: IndexMap<Vec<u8>, usize>,
    items: Vec<Vec<u8>>,
}

impl Model for Texts {
    ghost use Rattle.std.specs.Prelude.{List, ℕ};

    ghost Value = { List (List ℕ) };

    ghost use Rattle.cxx_rules.specs.Positions.{texts_of, ArePositions};

    ghost view = { λ t. texts_of t.items.items };

    ghost invariant = { λ t. ArePositions t.first.entries (texts_of t.items.items) };
}

impl Texts {
    pub fn new(alloc: Global) -> Self
        ensures { result ≡ [] }
    {
        Texts {
            first: IndexMap::new(alloc),
            items: Vec::new(alloc),
        }
    }

    /// The first position of a text.
    pub fn position(&self, text: &[u8]) -> Option<usize>
        ensures { result ≡ position (λ d. bytes_eq d text.now) self.now }
    {
        match first_few(self.items.as_slice(), text) {
            Some(position) => Some(position),
            None => self.later(text),
        }
    }

    // The first position of a text that is not among the first few.
    fn later(&self, text: &[u8]) -> Option<usize>
        ensures { position (λ d. bytes_eq d text.now) (take 8 self.now) ≡ None → result ≡ position (λ d. bytes_eq d text.now) self.now }
    {
        if self.items.len() <= FEW {
            return None;
        }
        self.first.get(text).copied()
    }

    /// How many texts there are.
    pub fn len(&self) -> usize
        ensures { result ≡ length self.now }
    {
        self.items.len()
    }

    /// A text is in the list.
    pub fn contains(&self, text: &[u8]) -> bool
        ensures { result ≡ has_text text.now self.now }
    {
        self.position(text).is_some()
    }

    /// Puts a text behind the others.
    pub fn add(&mut self, alloc: Global, text: &[u8]) -> Result<(), NoMemory>
        ensures ok { OnOk result (self.new ≡ self.old ++ text.now ∷ []) }
        ensures err { OnErr result (self.new ≡ self.old) }
    {
        let item = Vec::from_slice(alloc, text)?;
        // The room comes first, so that the map has no number of a text that is not put in.
        self.items.reserve(1)?;
        number(alloc, &mut self.first, text, self.items.len())?;
        self.items.push(item)?;
        Ok(())
    }

    /// Puts a text behind the others unless it is there.
    pub fn add_once(&mut self, alloc: Global, text: &[u8]) -> Result<(), NoMemory>
        ensures kept { AreAmong self.old self.new }
        ensures added { OnOk result (AreAmong (text.now ∷ []) self.new) }
    {
        if self.contains(text) {
            return Ok(());
        }
        self.add(alloc, text)
    }

    /// The list with a text behind the others.
    pub fn with(self, alloc: Global, text: &[u8]) -> Result<Self, NoMemory>
        ensures { IfOk result (λ t. t ≡ self ++ text.now ∷ []) }
    {
        let mut texts = self;
        texts.add(alloc, text)?;
        Ok(texts)
    }
}

// The first position of a text in a list.
fn first_in(items: &[Vec<u8>], text: &[u8]) -> Option<usize>
    ensures { result ≡ position (λ v. bytes_eq v.items text.now) items.now }
{
    items.iter().position(|item| item.as_slice() == text)
}

// The first position of a text among the first few.
fn first_few(items: &[Vec<u8>], text: &[u8]) -> Option<usize>
    ensures { result ≡ position (λ d. bytes_eq d text.now) (take 8 (texts_of items.now)) }
{
    first_in(&items[..FEW.min(items.len())], text)
}

// Puts the number that a text has behind the others into a map of first positions.
fn number(
    alloc: Global,
    first: &mut IndexMap<Vec<u8>, usize>,
    text: &[u8],
    number: usize,
) -> Result<(), NoMemory>
    ensures ok { (texts : List (List ℕ)) → ArePositions first.old.entries texts → length texts ≡ number → OnOk result (ArePositions first.new.entries (texts ++ text.now ∷ [])) }
    ensures err { OnErr result (first.new.entries ≡ first.old.entries) }
{
    if number < FEW {
        return Ok(());
    }
    if first.get(text).is_some() {
        return Ok(());
    }
    first.insert(Vec::from_slice(alloc, text)?, number)?;
    Ok(())
}
