// Exceptions, and lists of those that are live.

ghost use Rattle.std.specs.Prelude.{◌≡◌, IfOk, option_map, map, filter, find, not, ◌==◌};
ghost use Rattle.cxx_ast.specs.View.{option_of};
ghost use Rattle.meaning_forms.specs.Handler.{exception_object, is_foreign};
ghost use Rattle.meaning_forms.specs.Specification.{kept_with};
ghost use Rattle.meaning_forms.specs.World.{exception_type};
ghost use Rattle.scope_world.specs.Objects.{reference_of, type_of};
ghost use Rattle.scope_world.specs.Seen.{exception_of, installed_of, with_live};

use crate::NoMemory;
use crate::object::{ObjectType, Reference};
use std::alloc::Global;

/// The numbers of the functions set by set_terminate and set_unexpected.
#[derive(Clone, Copy)]
pub struct Installed {
    pub terminate: Option<u32>,
    pub unexpected: Option<u32>,
}

/// An exception: still being built, or native with its type, its object and the handlers kept with it, or foreign with its module and
/// token.
#[derive(Clone, Copy)]
pub enum Exception {
    Building,
    Native(ObjectType, usize, Installed),
    Foreign(u32, u32),
}

/// A live exception and its number.
#[derive(Clone, Copy)]
pub struct Live {
    pub number: u64,
    pub exception: Exception,
}

impl Exception {
    /// The type of a native exception; a foreign one has none.
    pub fn ty(&self) -> Option<ObjectType>
        ensures { option_of type_of result ≡ exception_type (exception_of self.now) }
    {
        match self {
            Exception::Native(ty, _, _) => Some(*ty),
            _ => None,
        }
    }

    pub fn is_foreign(&self) -> bool
        ensures { result ≡ is_foreign (exception_of self.now) }
    {
        matches!(self, Exception::Foreign(_, _))
    }

    /// The handlers kept with a native exception.
    pub fn kept(&self) -> Installed
        ensures { installed_of result ≡ kept_with (exception_of self.now) }
    {
        match self {
            Exception::Native(_, _, kept) => *kept,
            _ => Installed {
                terminate: None,
                unexpected: None,
            },
        }
    }

    /// The object of a native exception.
    pub fn object(&self, alloc: Global) -> Reference
        ensures { reference_of result ≡ exception_object (exception_of self.now) }
    {
        match self {
            Exception::Native(_, object, _) => Reference::whole(alloc, *object),
            _ => Reference::whole(alloc, 0),
        }
    }
}

/// The first live exception with the number.
pub fn exception_in(live: &[Live], number: u64) -> Option<&Live>
    ensures { (option_map (λ x. x.now) result) ≡ find (λ x. x.number == number) live.now }
{
    live.iter().find(|x| x.number == number)
}

/// The live exceptions with another in place of that with the number.
pub fn with_exception(
    alloc: Global,
    live: &[Live],
    number: u64,
    exception: Exception,
) -> Result<Vec<Live>, NoMemory>
    ensures { IfOk result (λ v. v.items ≡ map (with_live number exception) live.now) }
{
    live.iter()
        .map(|x| if x.number == number {
            Live { number, exception }
        } else {
            *x
        })
        .collect(alloc)
}

/// The live exceptions without that with the number.
pub fn without_exception(alloc: Global, live: &[Live], number: u64) -> Result<Vec<Live>, NoMemory>
    ensures { IfOk result (λ v. v.items ≡ filter (λ x. not (x.number == number)) live.now) }
{
    live.iter()
        .copied()
        .filter(|x| x.number != number)
        .collect(alloc)
}
