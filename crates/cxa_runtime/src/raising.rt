// What becomes of an exception that is raised.
ghost use Rattle.std.specs.Prelude.{◌≡◌, ◌<◌, ◌-◌, [], true, Some, option_map};
ghost use Rattle.table_forms.specs.Verdict.{foreign};
ghost use Rattle.caught_stack.specs.Live.{header_of};
ghost use Rattle.caught_stack.specs.Exceptions.{Exceptions};
ghost use Rattle.cxa_runtime.specs.Objects as objects;
ghost use Rattle.cxa_runtime.specs.World.{with_exceptions};
ghost use Rattle.cxa_runtime.specs.MayBegin.{may_begin};
ghost use Rattle.cxa_runtime.specs.Flying.{flown, CanFly};
ghost use Rattle.cxa_runtime.specs.Number.{as_register};
ghost use Rattle.cxa_runtime.specs.Kept.{Makes, MakesOver, Stays, are_within, with_both};
ghost use Rattle.personality.specs.Seen.{thrown_of as seen};
ghost use Rattle.cxa_runtime.specs.Raising as forms;

use crate::effect::Effect;
use crate::flight::Flight;
use crate::object::{Object, object_of};
use crate::registers::as_register;
use crate::runtime::Runtime;
use crate::types::types_at;
use caught_stack::HeaderKind;
use personality::Thrown;
use raise_core::Raised;

impl Runtime {
    /// What is thrown with an object of this kind; none where it is building, or its type records can't be read.
    pub(crate) fn thrown_by(&self, kind: HeaderKind) -> Option<Thrown>
        ensures { option_map seen result ≡ forms.thrown_of self.now.hart kind }
    {
        match kind {
            HeaderKind::Building => None,
            HeaderKind::Foreign(_, _) => Some(Thrown::Foreign),
            HeaderKind::Native(record, _) => match types_at(self.unwinder.machine(), record) {
                None => None,
                Some(types) => Some(Thrown::Native(types)),
            },
        }
    }

    /// A landing pad gets the address of an object, or 0, and the selector.
    pub(crate) fn give_pad(&mut self, address: u64, selector: i64)
        ensures { self.new ≡ with_both address (as_register selector) self.old }
    {
        self.give_both(address, as_register(selector));
    }

    // A native exception that nothing handles.
    fn unhandled(&mut self, object: &Object) -> Effect
        requires silent { self.old.shown ≡ [] }
        requires handlers { are_within (self.old.turns - 1) self.old.exceptions.caught ≡ true }
        requires began { 0 < self.old.turns }
        requires live { header_of self.old.exceptions.live object.now.slot ≡ Some object.now.header }
        requires native { objects.is_native object.now.header.kind ≡ true }
        requires may { may_begin self.old.exceptions object.now.slot ≡ true }
        ensures made { Makes (forms.native_unhandled self.old.places object.now) self.old self.new result }
        ensures stays { Stays self.old self.new }
    {
        if self.is_terminating() {
            return self.terminate(object.header.handlers.0);
        }
        self.enter(object);
        self.terminate(object.header.handlers.0)
    }

    /// Raises a native exception, which is uncaught already.
    pub(crate) fn raise_native(&mut self, object: &Object, thrown: &Thrown) -> Effect
        requires silent { self.old.shown ≡ [] }
        requires handlers { are_within (self.old.turns - 1) self.old.exceptions.caught ≡ true }
        requires began { 0 < self.old.turns }
        requires live { header_of self.old.exceptions.live object.now.slot ≡ Some object.now.header }
        requires native { objects.is_native object.now.header.kind ≡ true }
        requires may { may_begin self.old.exceptions object.now.slot ≡ true }
        ensures made { (before : Exceptions) → MakesOver (λ image w. forms.raises image before object.now (seen thrown.now) w) self.old self.new result }
        ensures stays { Stays self.old self.new }
    {
        match self.raise(thrown) {
            Raised::Install(_, selector, cfa, lsda) => {
                self.aim(object, cfa, lsda);
                self.give_pad(object_of(object.slot), selector);
                Effect::Goes
            }
            Raised::NoHandler | Raised::Terminate => self.unhandled(object),
            Raised::Fault(kind) => Effect::Fails(kind),
        }
    }

    /// Raises a foreign exception; where nothing handles it, it is not uncaught.
    pub(crate) fn raise_foreign(&mut self, object: &Object, flight: Flight) -> Effect
        requires live { header_of self.old.exceptions.live object.now.slot ≡ Some object.now.header }
        requires guest { objects.is_foreign object.now.header.kind ≡ true }
        requires can { CanFly flight self.old.exceptions }
        ensures made { MakesOver (λ image w. forms.raises image w.exceptions object.now foreign (with_exceptions (flown flight w.exceptions) w)) self.old self.new result }
        ensures stays { Stays self.old self.new }
    {
        match self.raise(&Thrown::Foreign) {
            Raised::Install(_, selector, cfa, lsda) => {
                self.fly(flight);
                self.aim(object, cfa, lsda);
                self.give_pad(object_of(object.slot), selector);
                Effect::Goes
            }
            Raised::NoHandler => self.terminate_now(),
            Raised::Terminate => self.terminate_now(),
            Raised::Fault(kind) => {
                self.fly(flight);
                Effect::Fails(kind)
            }
        }
    }
}
