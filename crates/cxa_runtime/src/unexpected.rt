// Exception specifications.
ghost use Rattle.std.specs.Prelude.{◌≡◌, ◌+◌, ◌<◌, ◌^◌, true, [], Some, Contains, IfSome, find};
ghost use Rattle.caught_stack.specs.Live.{header_of};
ghost use Rattle.frame_walk.specs.Outward.{tables_of};
ghost use Rattle.raise_core.specs.Reads.{AreTables};
ghost use Rattle.lsda_read.specs.Names.{lists_named};
ghost use Rattle.personality.specs.Seen.{thrown_of};
ghost use Rattle.cxa_runtime.specs.Objects as objects;
ghost use Rattle.cxa_runtime.specs.Kept.{IsFresh, Makes, MakesOver, Stays, image_of, world_of};
ghost use Rattle.cxa_runtime.specs.Unexpected as forms;

use crate::effect::{Effect, REFUSED};
use crate::object::Object;
use crate::readings::lists_bad;
use crate::registers::{A0, A1, A2};
use crate::runtime::Runtime;
use lsda_read::Lsda;
use personality::{Thrown, allows};

// The list that a negative selector names, counted from 0.
fn list_of(selector: u64) -> Option<u64>
    ensures list { result ≡ forms.list_of selector }
    ensures small { IfSome result (λ list. list < 2 ^ 63) }
{
    if selector >= 0x8000_0000_0000_0000 {
        Some(u64::MAX - selector)
    } else {
        None
    }
}

impl Runtime {
    // Enters a native exception, and gives the handler that is kept with it and the table of its target.
    fn begin_native(&mut self, object: &Object) -> Effect
        requires fresh { IsFresh self.old }
        requires live { header_of self.old.exceptions.live object.now.slot ≡ Some object.now.header }
        requires native { objects.is_native object.now.header.kind ≡ true }
        ensures made { Makes (λ w. forms.begins_unexpected w object.now) self.old self.new result }
        ensures stays { Stays self.old self.new }
    {
        if !self.globals.may_begin(object.slot) {
            return REFUSED;
        }
        self.enter(object);
        self.give_both(object.header.handlers.1, object.header.lsda);
        Effect::Goes
    }

    /// A specification enters a native exception.
    pub(crate) fn unexpected_begin(&mut self) -> Effect
        requires { IsFresh self.old }
        ensures made { Makes forms.unexpected_begin self.old self.new result }
        ensures stays { Stays self.old self.new }
    {
        let address = self.argument(A0);
        match self.native_at(address) {
            None => REFUSED,
            Some(object) => self.begin_native(&object),
        }
    }

    // The native object at an address.
    fn native_at(&self, address: u64) -> Option<Object>
        ensures { result ≡ objects.object_where objects.is_native self.now.exceptions.live address }
    {
        self.globals.native_at(address)
    }

    // The first reading of the exception table at an address that has the filter of a list, counted from 0.
    fn reading_with(&self, address: u64, list: u64) -> Option<Lsda<'_>>
        ensures reading { (t : AreTables self.now.hart self.now.frames) → result ≡ find (forms.has_list list) (forms.readings (tables_of self.now.hart) t.read.fdes address) }
        ensures named { IfSome result (λ table. Contains (lists_named table) (list + 1)) }
    {
        self.unwinder.reading_with(address, list)
    }

    // What the list that the selector names says of the native exception; none where something is not what it has to be.
    fn answer(&self) -> Option<u64>
        ensures { (t : AreTables self.now.hart self.now.frames) → result ≡ forms.answer_of (image_of t.read.fdes self.now) (world_of self.now [] []) }
    {
        match list_of(self.argument(A1)) {
            None => None,
            Some(list) => self.answer_with(list),
        }
    }

    // The same of a list, counted from 0, in the first reading of the table that has it.
    fn answer_with(&self, list: u64) -> Option<u64>
        requires { list < 2 ^ 63 }
        ensures { (t : AreTables self.now.hart self.now.frames) → result ≡ forms.answer_with (image_of t.read.fdes self.now) (world_of self.now [] []) list }
    {
        match self.reading_with(self.argument(A0), list) {
            None => None,
            Some(table) => self.answer_in(&table, list),
        }
    }

    // The same of a list of a table.
    fn answer_in(&self, table: &Lsda<'_>, list: u64) -> Option<u64>
        requires named { Contains (lists_named table.now) (list + 1) }
        requires small { list < 2 ^ 63 }
        ensures { result ≡ forms.answer_in (world_of self.now [] []) self.now.places.bad_exception list table.now }
    {
        match self.native_at(self.argument(A2)) {
            None => None,
            Some(object) => self.answer_for(&object, table, list),
        }
    }

    // The same for an object; none where its type records can't be read.
    fn answer_for(&self, object: &Object, table: &Lsda<'_>, list: u64) -> Option<u64>
        requires named { Contains (lists_named table.now) (list + 1) }
        requires small { list < 2 ^ 63 }
        ensures { result ≡ forms.answer_for (world_of self.now [] []) self.now.places.bad_exception list table.now object.now }
    {
        match self.thrown_by(object.header.kind) {
            None => None,
            Some(thrown) => Some(self.check(&thrown, table, list)),
        }
    }

    // What a list says of what is thrown: whether it allows it, or has bad_exception.
    fn check(&self, thrown: &Thrown, table: &Lsda<'_>, list: u64) -> u64
        requires named { Contains (lists_named table.now) (list + 1) }
        requires small { list < 2 ^ 63 }
        ensures { result ≡ forms.checked table.now (thrown_of thrown.now) (list + 1) self.now.places.bad_exception }
    {
        if allows(table, thrown, list + 1) {
            0
        } else if lists_bad(table, list + 1, self.places.bad_exception) {
            1
        } else {
            2
        }
    }

    /// Asks the list that a selector names whether it allows a native exception.
    pub(crate) fn unexpected_check(&mut self) -> Effect
        ensures made { MakesOver forms.unexpected_check self.old self.new result }
        ensures stays { Stays self.old self.new }
    {
        match self.answer() {
            None => REFUSED,
            Some(answer) => {
                self.give(A0, answer);
                Effect::Goes
            }
        }
    }

    /// Terminate with the handler that is kept with a native exception.
    pub(crate) fn terminate_for(&mut self) -> Effect
        ensures made { Makes (forms.terminate_for self.old.places) self.old self.new result }
        ensures stays { Stays self.old self.new }
    {
        let address = self.argument(A0);
        match self.native_at(address) {
            None => REFUSED,
            Some(object) => self.terminate(object.header.handlers.0),
        }
    }
}
