// How the functions and types of a program are numbered.
ghost use Rattle.std.specs.Prelude.{◌≡◌, ℕ, IfOk};
ghost use Rattle.cxx_ast.specs.View.{checked_of};
ghost use Rattle.meaning_forms.specs.Running.{constructor, destructor, method};
ghost use Rattle.scope_flow.specs.Asked.{constructor_of};
ghost use Rattle.scope_world.specs.Objects.{type_of};
ghost use Rattle.region_forms.specs.Numbering as rules;
ghost use Rattle.region_ir.specs.Numbered.{found, numbers_in};

use crate::NoMemory;
use crate::numbers::{ClassNumbers, behind};
use cxx_ast::program::Checked;
use scope_flow::{Constructor, destructor_place};
use scope_world::{ObjectType, methods_of};
use std::alloc::Global;

/// The numbers of a program's functions.
#[derive(Drop)]
pub struct Numbering<'a> {
    pub program: &'a Checked,
    classes: Vec<ClassNumbers>,
    beyond: ClassNumbers,
    ghost exact: { (k : ℕ) → found classes.items beyond k ≡ numbers_in (checked_of program.now) k },
}

// The numbers of the functions of a class, of which the first is given.
fn class_numbers(program: &Checked, class: u32, first: u32) -> Result<ClassNumbers, NoMemory>
    requires { first ≡ rules.first_function (checked_of program.now) class }
    ensures { IfOk result (λ n. n ≡ numbers_in (checked_of program.now) class) }
{
    let implicit = behind(first, methods_of(program, class).len())?;
    let destructor = match destructor_place(program, class) {
        Some(place) => behind(first, place)?,
        None => behind(implicit, 2)?,
    };
    Ok(ClassNumbers {
        declared: first,
        implicit,
        destructor,
    })
}

impl<'a> Numbering<'a> {
    /// Numbers the functions of a program: its own, then those of each class, the implicit ones behind those that it declares.
    #[tactic(auto, using(crate::proofs::Table::none_numbered))]
    pub fn new(alloc: Global, program: &'a Checked) -> Result<Self, NoMemory>
        ensures { IfOk result (λ n. n.program.now ≡ program.now) }
    {
        let count = behind(0, program.classes.len())?;
        let mut classes = Vec::new(alloc);
        let mut first = behind(0, program.functions.len())?;
        for class in 0..count {
            let numbers = class_numbers(program, class, first)?;
            first = behind(numbers.implicit, 3)?;
            classes.push(numbers)?;
        }
        let beyond = class_numbers(program, count, first)?;
        Ok(Numbering {
            program,
            classes,
            beyond,
        })
    }

    // The numbers of the functions of a class.
    fn numbers(&self, class: u32) -> ClassNumbers
        ensures { result ≡ numbers_in (checked_of self.now.program.now) class }
    {
        match self.classes.get(class as usize) {
            Some(numbers) => *numbers,
            None => self.beyond,
        }
    }

    /// The number of a member function by its place among the functions of its class.
    pub fn method(&self, class: u32, place: usize) -> Result<u32, NoMemory>
        ensures { IfOk result (λ n. n ≡ rules.number_of (checked_of self.now.program.now) (method class place)) }
    {
        behind(self.numbers(class).declared, place)
    }

    /// The number of a constructor.
    pub fn constructor(&self, class: u32, which: Constructor) -> Result<u32, NoMemory>
        ensures { IfOk result (λ n. n ≡ rules.number_of (checked_of self.now.program.now) (constructor class (constructor_of which))) }
    {
        match which {
            Constructor::Declared(place) => behind(self.numbers(class).declared, place),
            Constructor::ImplicitDefault => Ok(self.numbers(class).implicit),
            Constructor::ImplicitCopy => behind(self.numbers(class).implicit, 1),
        }
    }

    /// The number of a destructor.
    pub fn destructor(&self, class: u32) -> u32
        ensures { result ≡ rules.number_of (checked_of self.now.program.now) (destructor class) }
    {
        self.numbers(class).destructor
    }

    /// The destructor of an exception object. An int has none, and none is called for a `std::bad_exception`.
    pub fn destructor_of(&self, ty: ObjectType) -> Option<u32>
        ensures { result ≡ rules.destructor_of (checked_of self.now.program.now) (type_of ty) }
    {
        match ty {
            ObjectType::Int | ObjectType::Class(0) => None,
            ObjectType::Class(class) => Some(self.destructor(class)),
        }
    }
}

/// The number of a type: int, then the classes in order.
pub fn type_number(ty: ObjectType) -> Result<u32, NoMemory>
    ensures { IfOk result (λ n. n ≡ rules.type_number (type_of ty)) }
{
    match ty {
        ObjectType::Int => Ok(0),
        ObjectType::Class(class) => class.checked_add(1).ok_or(NoMemory),
    }
}
