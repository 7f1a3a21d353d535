// Exceptions that are thrown, thrown again, and that go on.
ghost use Rattle.std.specs.Prelude.{◌≡◌, ℕ, List, Some, true};
ghost use Rattle.eh_outer.specs.declared.module.Reply.{Reply};
ghost use Rattle.personality.specs.Seen.{thrown_of as seen, types_of};
ghost use Rattle.caught_stack.specs.Live.{header_of};
ghost use Rattle.caught_stack.specs.Rethrow.{rethrown};
ghost use Rattle.cxa_runtime.specs.Objects as objects;
ghost use Rattle.cxa_runtime.specs.Raising.{raises, resumes};
ghost use Rattle.rv64_isa.specs.State.{reg_of};
ghost use Rattle.table_forms.specs.Verdict.{native};
ghost use Rattle.cxa_runtime.specs.Kept.{IsFresh, MakesOver, Stays, world_of};
ghost use Rattle.cxa_runtime.specs.World.{argument, a1, a2, with_exceptions};
ghost use Rattle.cxa_runtime.specs.Throw as forms;

use crate::effect::{Effect, REFUSED};
use crate::flight::Flight;
use crate::object::{Object, object_of};
use crate::registers::{A0, A1, A2};
use crate::runtime::Runtime;
use crate::types::types_at;
use caught_stack::{Header, HeaderKind};
use frame_walk::FaultKind;
use personality::{Thrown, TypeChain};
use raise_core::Raised;

impl Runtime {
    // The object as it is thrown: native, and with the handlers in effect.
    fn thrown_object(&self, object: &Object) -> Object
        ensures { (input : List ℕ) (replies : List (List Reply)) →
            let w = world_of self.now input replies in
            result ≡ forms.native_object w object.now (argument w a1) (argument w a2) }
    {
        Object {
            slot: object.slot,
            header: Header {
                kind: HeaderKind::Native(self.argument(A1), self.argument(A2)),
                handlers: (self.terminate_handler, self.unexpected_handler),
                ..object.header
            },
        }
    }

    // Throws an object that is building, with its type and the bases of that.
    fn throw_object(&mut self, object: &Object, types: TypeChain) -> Effect
        requires fresh { IsFresh self.old }
        requires live { header_of self.old.exceptions.live object.now.slot ≡ Some object.now.header }
        requires building { objects.is_building object.now.header.kind ≡ true }
        ensures made { MakesOver (λ image w. forms.throws image w (forms.native_object w object.now (argument w a1) (argument w a2)) (types_of types)) self.old self.new result }
        ensures stays { Stays self.old self.new }
    {
        let thrown = self.thrown_object(object);
        self.take_off(object, thrown.header);
        self.raise_native(&thrown, &Thrown::Native(types))
    }

    /// Throws an object that is building.
    pub(crate) fn throw(&mut self) -> Effect
        requires { IsFresh self.old }
        ensures made { MakesOver forms.throw self.old self.new result }
        ensures stays { Stays self.old self.new }
    {
        let address = self.argument(A0);
        let Some(object) = self.globals.building_at(address) else {
            return REFUSED;
        };
        let record = self.argument(A1);
        match types_at(self.unwinder.machine(), record) {
            None => REFUSED,
            Some(types) => self.throw_object(&object, types),
        }
    }

    // Throws a native object again, which is the newest, with its type and the bases of that.
    fn rethrow_native(&mut self, object: &Object, types: TypeChain) -> Effect
        requires fresh { IsFresh self.old }
        requires live { header_of self.old.exceptions.live object.now.slot ≡ Some object.now.header }
        requires newest { (rethrown self.old.exceptions).0 ≡ Some object.now.slot }
        requires native { objects.is_native object.now.header.kind ≡ true }
        ensures made { MakesOver (λ image w. raises image w.exceptions object.now (native (types_of types)) (with_exceptions (rethrown w.exceptions).1 w)) self.old self.new result }
        ensures stays { Stays self.old self.new }
    {
        self.fly(Flight::Rethrown);
        self.raise_native(object, &Thrown::Native(types))
    }

    // Throws the newest object again.
    fn rethrow_object(&mut self, object: &Object) -> Effect
        requires fresh { IsFresh self.old }
        requires live { header_of self.old.exceptions.live object.now.slot ≡ Some object.now.header }
        requires newest { (rethrown self.old.exceptions).0 ≡ Some object.now.slot }
        ensures made { MakesOver (λ image w. forms.rethrows_object image w (rethrown w.exceptions).1 object.now) self.old self.new result }
        ensures stays { Stays self.old self.new }
    {
        match object.header.kind {
            HeaderKind::Building => REFUSED,
            HeaderKind::Foreign(_, _) => self.raise_foreign(object, Flight::Rethrown),
            HeaderKind::Native(record_at, _) => match types_at(self.unwinder.machine(), record_at) {
                None => REFUSED,
                Some(types) => self.rethrow_native(object, types),
            },
        }
    }

    /// Throws the newest exception again, or terminates where there is none or it is on its way already.
    pub(crate) fn rethrow(&mut self) -> Effect
        requires { IsFresh self.old }
        ensures made { MakesOver forms.rethrow self.old self.new result }
        ensures stays { Stays self.old self.new }
    {
        let Some(slot) = self.globals.rethrowable() else {
            return self.terminate_now();
        };
        match self.globals.object_in(slot) {
            None => REFUSED,
            Some(object) => self.rethrow_object(&object),
        }
    }

    // Goes on with the raise of an object.
    fn resume_object(&mut self, object: &Object, thrown: &Thrown) -> Effect
        ensures made { MakesOver (λ image w. resumes image object.now (seen thrown.now) w) self.old self.new result }
        ensures stays { Stays self.old self.new }
    {
        match self.go_on(thrown, object.header.target) {
            Raised::Install(_, selector, _, _) => {
                self.give_pad(object_of(object.slot), selector);
                Effect::Goes
            }
            Raised::NoHandler => Effect::Fails(FaultKind::Walk),
            Raised::Terminate => self.terminate_now(),
            Raised::Fault(kind) => Effect::Fails(kind),
        }
    }

    // Goes on with the raise of the object at an address.
    fn resume_at(&mut self, address: u64) -> Effect
        requires { address ≡ reg_of self.old.hart.regs 10 }
        ensures made { MakesOver forms.resume_object self.old self.new result }
        ensures stays { Stays self.old self.new }
    {
        let Some(object) = self.globals.thrown_at(address) else {
            return REFUSED;
        };
        match self.thrown_by(object.header.kind) {
            None => REFUSED,
            Some(thrown) => self.resume_object(&object, &thrown),
        }
    }

    /// Goes on with phase two of a raise, or for 0 with the forced unwind that is on.
    pub(crate) fn resume(&mut self) -> Effect
        ensures made { MakesOver forms.resume_unwind self.old self.new result }
        ensures stays { Stays self.old self.new }
    {
        let address = self.argument(A0);
        if address != 0 {
            return self.resume_at(address);
        }
        match self.exit_number() {
            None => REFUSED,
            Some(n) => self.unwind(n),
        }
    }
}
