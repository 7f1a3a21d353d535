// Objects: trees of parts, with an int or none yet in each cell.
ghost use Rattle.std.specs.Prelude.{◌≡◌, ◌++◌, IfOk, Some, option_map};
ghost use Rattle.meaning_forms.specs.Part.{cell, nth_part, part_at, part_type, path_to_class, with_nth_part, with_part_at};
ghost use Rattle.meaning_forms.specs.Outcome.{read_part};
ghost use Rattle.meaning_forms.specs.World.{World, part, whole};
ghost use Rattle.scope_world.specs.Gives.{Gives};
ghost use Rattle.scope_world.specs.Objects.{part_of, part_or_unset, parts_of, reference_of, type_of};

use crate::NoMemory;
use crate::outcome::Halt;
use std::alloc::Global;

/// The type of an object: int, or a class by its number.
#[derive(Clone, Copy, Debug, PartialEq, Eq)]
pub enum ObjectType {
    Int,
    Class(u32),
}

/// A cell, or an object of a class with its base and members as parts.
#[derive(Drop)]
#[cycle(parts)]
pub enum Part {
    Cell(Option<i32>),
    Object(u32, Box<Parts>),
}

#[derive(Drop)]
#[cycle(parts)]
pub enum Parts {
    None,
    Then(Part, Box<Parts>),
}

/// An object by its number, and a path from it to one of its parts.
#[derive(Drop)]
pub struct Reference {
    pub object: usize,
    pub path: Vec<u64>,
}

impl Reference {
    /// The object itself.
    pub fn whole(alloc: Global, object: usize) -> Self
        ensures { reference_of result ≡ whole object }
    {
        Reference {
            object,
            path: Vec::new(alloc),
        }
    }

    /// The same once more.
    pub fn copied(&self, alloc: Global) -> Result<Self, NoMemory>
        ensures { IfOk result (λ r. reference_of r ≡ reference_of self.now) }
    {
        Ok(Reference {
            object: self.object,
            path: Vec::from_slice(alloc, self.path.as_slice())?,
        })
    }

    /// The part with the place in what it names.
    pub fn part(&self, alloc: Global, place: u64) -> Result<Self, NoMemory>
        ensures { IfOk result (λ r. reference_of r ≡ part place (reference_of self.now)) }
    {
        let mut part = self.copied(alloc)?;
        part.path.push(place)?;
        Ok(part)
    }
}

impl Part {
    /// The int in a cell; undefined where it was never set.
    pub fn value(&self) -> Result<i32, Halt>
        ensures { (w : World) → Gives (read_part (part_of self.now) w) result w }
    {
        match self {
            Part::Cell(Some(value)) => Ok(*value),
            _ => Err(Halt::Undefined),
        }
    }

    pub fn ty(&self) -> ObjectType
        ensures { type_of result ≡ part_type (part_of self.now) }
    {
        match self {
            Part::Cell(_) => ObjectType::Int,
            Part::Object(class, _) => ObjectType::Class(*class),
        }
    }
}

// The part with the place; none stands for a cell that is unset.
fn nth(parts: &Parts, place: u64) -> Option<&Part>
    ensures { part_or_unset (option_map (λ x. x.now) result) ≡ nth_part (parts_of parts.now) place }
{
    match parts {
        Parts::None => None,
        Parts::Then(part, more) => {
            if place == 0 {
                Some(part)
            } else {
                nth(more, place - 1)
            }
        }
    }
}

/// The part at the end of the path; none stands for a cell that is unset.
pub fn part_at<'a>(part: &'a Part, path: &[u64]) -> Option<&'a Part>
    ensures { part_or_unset (option_map (λ x. x.now) result) ≡ part_at (part_of part.now) path.now }
{
    let Some((place, path)) = path.split_first() else {
        return Some(part);
    };
    match part {
        Part::Cell(_) => None,
        Part::Object(_, parts) => match nth(parts, *place) {
            Some(next) => part_at(next, path),
            None => None,
        },
    }
}

/// Sets the int at the end of the path.
#[cycle(setting)]
pub fn set_at(part: &mut Part, path: &[u64], value: i32)
    ensures { part_of part.new ≡ with_part_at (part_of part.old) path.now (cell (Some value)) }
{
    let Some((place, path)) = path.split_first() else {
        *part = Part::Cell(Some(value));
        return;
    };
    match part {
        Part::Cell(_) => {}
        Part::Object(_, parts) => set_nth(parts, *place, path, value),
    }
}

#[cycle(setting)]
fn set_nth(parts: &mut Parts, place: u64, path: &[u64], value: i32)
    ensures { parts_of parts.new ≡ with_nth_part (parts_of parts.old) place (with_part_at (nth_part (parts_of parts.old) place) path.now (cell (Some value))) }
{
    match parts {
        Parts::None => {}
        Parts::Then(part, more) => {
            if place == 0 {
                set_at(part, path, value);
            } else {
                set_nth(more, place - 1, path, value);
            }
        }
    }
}

/// Puts the path from a part to its base of the class behind the path.
pub fn put_path_to(class: u32, part: &Part, path: &mut Vec<u64>) -> Result<(), NoMemory>
    ensures { IfOk result (λ done. path.new.items ≡ path.old.items ++ path_to_class class (part_of part.now)) }
{
    match part {
        Part::Cell(_) => Ok(()),
        Part::Object(own, parts) => {
            if *own == class {
                return Ok(());
            }
            match &**parts {
                Parts::None => Ok(()),
                Parts::Then(base, _) => {
                    path.push(0)?;
                    put_path_to(class, base, path)
                }
            }
        }
    }
}
