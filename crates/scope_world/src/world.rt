// What a running program has.

ghost use Rattle.std.specs.Prelude.{◌≡◌, ◌+◌, ◌++◌, ◌∷◌, [], ℕ, IfOk, Ok, option_map, slice_get, map, filter, find, not, ◌==◌};
ghost use Rattle.cxx_ast.specs.View.{checked_of, option_of};
ghost use Rattle.run_items.specs.declared.item.Item.TheVariants as items;
ghost use Rattle.meaning_forms.specs.Context.{Context};
ghost use Rattle.meaning_forms.specs.Expression.{next_byte};
ghost use Rattle.meaning_forms.specs.Outcome as outcome;
ghost use Rattle.meaning_forms.specs.Part.{part_type};
ghost use Rattle.meaning_forms.specs.Running.{Running};
ghost use Rattle.meaning_forms.specs.Statement.{spend_turn};
ghost use Rattle.meaning_forms.specs.Throw as throw;
ghost use Rattle.meaning_forms.specs.World as rules;
ghost use Rattle.scope_world.specs.Gives.{Gives};
ghost use Rattle.scope_world.specs.Objects.{part_of, part_or_unset, reference_of, type_of};
ghost use Rattle.scope_world.specs.Seen.{exception_of, world_of};
ghost use Rattle.scope_world.specs.Cleaned.{clean_up};

use crate::NoMemory;
use crate::class::member_place;
use crate::exception::{
    Exception, Installed, Live, exception_in, with_exception, without_exception,
};
use crate::object::{ObjectType, Part, Reference, part_at, put_path_to, set_at};
use crate::outcome::Halt;
use crate::outside::Outside;
use cxx_ast::program::Checked;
use eh_outer::Reply;
use run_items::Item;
use std::alloc::Global;

/// Objects by their numbers, globals first; the input and how much of it was read; the exceptions; what is outside; the handlers in
/// effect; the turns left; and the greatest number of open calls so far. An object keeps its number once it is over.
pub struct World<G> {
    pub objects: Vec<Part>,
    pub input: Vec<u8>,
    pub read: usize,
    pub live: Vec<Live>,
    pub last_number: u64,
    pub outside: G,
    pub installed: Installed,
    pub turns: u64,
    pub deepest: u64,
}

/// The most exceptions that are live at once.
const MOST_LIVE: usize = 1024;

impl<G: Outside> World<G> {
    /// The greatest number of open calls, and what is outside.
    pub fn into_parts(self) -> (u64, G)
        ensures { result ≡ (self.deepest, self.outside) }
    {
        let World {
            objects: _objects,
            input: _input,
            read: _,
            live: _live,
            last_number: _,
            outside,
            installed: _,
            turns: _,
            deepest,
        } = self;
        (deepest, outside)
    }

    /// An item comes after those so far.
    pub fn emit(&mut self, item: Item) -> Result<(), NoMemory>
        ensures { (d : ℕ) → IfOk result (λ a. outcome.emit item (world_of G.told d self.old) ≡ outcome.done a (world_of G.told d self.new)) }
    {
        self.outside.emit(item)
    }

    /// A new object, whose number is the answer.
    pub fn new_object(&mut self, part: Part) -> Result<usize, NoMemory>
        ensures { (d : ℕ) → IfOk result (λ a. outcome.new_object (part_of part) (world_of G.told d self.old) ≡ outcome.done a (world_of G.told d self.new)) }
    {
        let number = self.objects.len();
        self.objects.push(part)?;
        Ok(number)
    }

    // The object with a number; none stands for a cell that is unset.
    #[tactic(auto, using(crate::proofs::Listed::object_found))]
    fn object_at(&self, number: usize) -> Option<&Part>
        ensures { (d : ℕ) → part_or_unset (option_map (λ x. x.now) result) ≡ rules.object_at (world_of G.told d self.now) number }
    {
        self.objects.get(number)
    }

    // The part that a reference names; none stands for a cell that is unset.
    fn part(&self, at: &Reference) -> Option<&Part>
        ensures { (d : ℕ) → part_or_unset (option_map (λ x. x.now) result) ≡ rules.part_of (world_of G.told d self.now) (reference_of at.now) }
    {
        match self.object_at(at.object) {
            Some(object) => part_at(object, at.path.as_slice()),
            None => None,
        }
    }

    /// The type of what a reference names.
    pub fn type_of(&self, at: &Reference) -> ObjectType
        ensures { (d : ℕ) → type_of result ≡ part_type (rules.part_of (world_of G.told d self.now) (reference_of at.now)) }
    {
        match self.part(at) {
            Some(part) => part.ty(),
            None => ObjectType::Int,
        }
    }

    /// The int that a reference names; undefined where it was never set.
    pub fn read(&self, at: &Reference) -> Result<i32, Halt>
        ensures { (d : ℕ) → Gives (outcome.read (reference_of at.now) (world_of G.told d self.now)) result (world_of G.told d self.now) }
    {
        match self.part(at) {
            Some(part) => part.value(),
            None => Err(Halt::Undefined),
        }
    }

    /// Sets the int that a reference names.
    pub fn write(&mut self, at: &Reference, value: i32)
        ensures { (d : ℕ) → (world_of G.told d self.new) ≡ rules.written (world_of G.told d self.old) (reference_of at.now) value }
    {
        if let Some(object) = self.objects.get_mut(at.object) {
            set_at(object, at.path.as_slice(), value);
        }
    }

    /// What a reference names as an object of the class: itself, or its base of that class.
    pub fn as_class(&self, class: u32, mut at: Reference) -> Result<Reference, NoMemory>
        ensures { (d : ℕ) → IfOk result (λ r. reference_of r ≡ rules.as_class (world_of G.told d self.now) class (reference_of at)) }
    {
        let mut path = Vec::from_slice(*at.path.allocator(), at.path.as_slice())?;
        match self.part(&at) {
            Some(part) => {
                put_path_to(class, part, &mut path)?;
                at.path = path;
                Ok(at)
            }
            None => Ok(at),
        }
    }

    /// The member of a class in what a reference names.
    pub fn member(
        &self,
        program: &Checked,
        class: u32,
        member: u32,
        at: Reference,
    ) -> Result<Reference, NoMemory>
        ensures { (d : ℕ) → IfOk result (λ r. reference_of r ≡ rules.member (checked_of program.now) (world_of G.told d self.now) class member (reference_of at)) }
    {
        let mut at = self.as_class(class, at)?;
        at.path.push(member_place(program, class, member))?;
        Ok(at)
    }

    /// The live exception with a number.
    pub fn exception(&self, number: u64) -> Exception
        ensures { (d : ℕ) → exception_of result ≡ rules.exception_at (world_of G.told d self.now) number }
    {
        match exception_in(self.live.as_slice(), number) {
            Some(x) => x.exception,
            None => Exception::Building,
        }
    }

    /// As many exceptions are live as may be.
    pub fn is_full(&self) -> bool
        ensures { (d : ℕ) → result ≡ throw.is_full (world_of G.told d self.now) }
    {
        self.live.len() >= MOST_LIVE
    }

    /// A native exception that is still to be built.
    pub fn make(&mut self) -> Result<u64, NoMemory>
        ensures { (d : ℕ) → IfOk result (λ a. throw.new_exception rules.building items.Make (world_of G.told d self.old) ≡ outcome.done a (world_of G.told d self.new)) }
    {
        let Some(number) = self.last_number.checked_add(1) else {
            return Err(NoMemory);
        };
        let exception = Exception::Building;
        self.live.push(Live { number, exception })?;
        self.emit(Item::Make(number))?;
        self.last_number = number;
        Ok(number)
    }

    /// A foreign exception, raised by a module with a token.
    pub fn raise(&mut self, guest: u32, token: u32) -> Result<u64, NoMemory>
        ensures { (d : ℕ) → IfOk result (λ a. throw.new_exception (rules.foreign guest token) (λ n. items.Foreign n guest token) (world_of G.told d self.old) ≡ outcome.done a (world_of G.told d self.new)) }
    {
        let Some(number) = self.last_number.checked_add(1) else {
            return Err(NoMemory);
        };
        let exception = Exception::Foreign(guest, token);
        self.live.push(Live { number, exception })?;
        self.emit(Item::Foreign(number, guest, token))?;
        self.last_number = number;
        Ok(number)
    }

    /// After building, an exception is native, and the handlers in effect are kept with it.
    pub fn keep(&mut self, number: u64, object: usize) -> Result<(), NoMemory>
        ensures { (d : ℕ) → IfOk result (λ done. (world_of G.told d self.new) ≡ rules.with_exception (world_of G.told d self.old) number (rules.native (part_type (rules.object_at (world_of G.told d self.old) object)) object (world_of G.told d self.old).installed)) }
    {
        let ty = self.type_of_object(object);
        let built = Exception::Native(ty, object, self.installed);
        self.live = with_exception(*self.live.allocator(), self.live.as_slice(), number, built)?;
        Ok(())
    }

    fn type_of_object(&self, object: usize) -> ObjectType
        ensures { (d : ℕ) → type_of result ≡ part_type (rules.object_at (world_of G.told d self.now) object) }
    {
        match self.object_at(object) {
            Some(part) => part.ty(),
            None => ObjectType::Int,
        }
    }

    /// An exception is no longer live.
    pub fn remove(&mut self, number: u64) -> Result<(), NoMemory>
        ensures { (d : ℕ) → IfOk result (λ done. (world_of G.told d self.new) ≡ rules.without_exception (world_of G.told d self.old) number) }
    {
        self.live = without_exception(*self.live.allocator(), self.live.as_slice(), number)?;
        Ok(())
    }

    /// An exception object is given back.
    pub fn free(&mut self, number: u64) -> Result<(), NoMemory>
        ensures { (d : ℕ) → IfOk result (λ a. throw.free number (world_of G.told d self.old) ≡ outcome.done a (world_of G.told d self.new)) }
    {
        self.emit(Item::Free(number))?;
        self.remove(number)?;
        Ok(())
    }

    /// A module's cleanup is called with the token of an exception, which is no longer live.
    pub fn clean(&mut self, number: u64, guest: u32, token: u32) -> Result<(), NoMemory>
        ensures { (d : ℕ) → IfOk result (λ a. clean_up number guest token (world_of G.told d self.old) ≡ outcome.done a (world_of G.told d self.new)) }
    {
        self.emit(Item::Clean(guest, token))?;
        self.remove(number)?;
        Ok(())
    }

    /// One turn is spent, if one is left.
    pub fn spend_turn(&mut self) -> Result<(), Halt>
        ensures { (d : ℕ) → Gives (spend_turn (world_of G.told d self.old)) result (world_of G.told d self.new) }
    {
        match self.turns.checked_sub(1) {
            Some(left) => {
                self.turns = left;
                Ok(())
            }
            None => Err(Halt::OutOfTurns),
        }
    }

    /// The next byte of the input, or -1 at its end.
    pub fn read_byte(&mut self) -> i32
        ensures { (d : ℕ) → Gives (next_byte (world_of G.told d self.old).input (world_of G.told d self.old)) (Ok result) (world_of G.told d self.new) }
    {
        match self.input.get(self.read) {
            Some(byte) => {
                let value = i32::from(*byte);
                self.read += 1;
                value
            }
            None => -1,
        }
    }

    /// The reply of a module; 0 where there is no such module.
    pub fn reply(&mut self, guest: u32, argument: i32) -> Reply
        ensures { (d : ℕ) (r : Running) (c : Context) → throw.take_reply r guest (slice_get (world_of G.told d self.old).replies guest) c (world_of G.told d self.old) ≡ throw.answered r guest result c (world_of G.told d self.new) }
    {
        self.outside.reply(guest, argument)
    }
}
