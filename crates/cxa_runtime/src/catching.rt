// Handlers that are entered and left.
ghost use Rattle.std.specs.Prelude.{◌≡◌, ◌<◌, ◌-◌, ℕ, List, length, map, true, Some};
ghost use Rattle.eh_outer.specs.declared.module.Reply.{Reply};
ghost use Rattle.caught_stack.specs.Live.{header_of};
ghost use Rattle.cxa_runtime.specs.Owed.{is_built_as};
ghost use Rattle.cxa_runtime.specs.MayBegin.{may_begin};
ghost use Rattle.caught_stack.specs.End.{ended};
ghost use Rattle.cxa_runtime.specs.Leaving.{left_by, newest_object};
ghost use Rattle.cxa_runtime.specs.Kept.{IsFresh, Makes, Stays, are_within, after_entering, with_both, world_of};
ghost use Rattle.cxa_runtime.specs.Catch.{begin, begins_catch, end_catch, leaves, told};
ghost use Rattle.cxa_runtime.specs.Turns.{after_cleanups, cleanups_of};
ghost use Rattle.foreign_host.specs.Host.{changed_at};
ghost use Rattle.eh_outer.specs.Module.{cleaned};

use crate::effect::{Effect, REFUSED};
use crate::object::{Object, is_foreign, object_of};
use crate::registers::{A0, A1};
use crate::runtime::Runtime;
use caught_stack::{Ended, HeaderKind};
use eh_outer::Module;
use foreign_host::{Host, NoModule};
use run_items::Item;

impl Runtime {
    /// Enters an exception, which `may_begin`.
    pub(crate) fn enter(&mut self, object: &Object)
        requires room { length self.old.shown < 2 }
        requires handlers { are_within (self.old.turns - 1) self.old.exceptions.caught ≡ true }
        requires began { 0 < self.old.turns }
        requires live { header_of self.old.exceptions.live object.now.slot ≡ Some object.now.header }
        requires thrown { is_built_as object.now.header.kind ≡ true }
        requires may { may_begin self.old.exceptions object.now.slot ≡ true }
        ensures { self.new ≡ after_entering object.now self.old }
    {
        self.globals.begin(object);
        self.shown.push(Item::Enter(object.header.number));
    }

    // Enters an exception by a handler, where that may be.
    fn begin_object(&mut self, object: &Object) -> Effect
        requires fresh { IsFresh self.old }
        requires live { header_of self.old.exceptions.live object.now.slot ≡ Some object.now.header }
        requires thrown { is_built_as object.now.header.kind ≡ true }
        ensures made { Makes (λ w. begins_catch self.old.places w object.now) self.old self.new result }
        ensures stays { Stays self.old self.new }
    {
        if !self.globals.may_begin(object.slot) {
            return REFUSED;
        }
        if is_foreign(object.header.kind) && self.globals.holds_other(object.slot) {
            return self.terminate_now();
        }
        self.enter(object);
        self.give(A0, object_of(object.slot));
        Effect::Goes
    }

    /// A handler enters an exception.
    pub(crate) fn begin_catch(&mut self) -> Effect
        requires { IsFresh self.old }
        ensures made { Makes (begin self.old.places) self.old self.new result }
        ensures stays { Stays self.old self.new }
    {
        let address = self.argument(A0);
        match self.globals.thrown_at(address) {
            None => REFUSED,
            Some(object) => self.begin_object(&object),
        }
    }

    /// Sets the two results.
    pub(crate) fn give_both(&mut self, first: u64, second: u64)
        ensures { self.new ≡ with_both first second self.old }
    {
        self.give(A0, first);
        self.give(A1, second);
    }

    // Tells what becomes of an exception that no handler has any more, and has a foreign one cleaned up.
    fn tell<M: Module>(&mut self, object: &Object, host: &mut Host<M>)
        requires { length self.old.shown < 2 }
        ensures told { (input : List ℕ) (replies : List (List Reply)) → world_of self.new input replies ≡ told object.now object.now.header.kind (world_of self.old input replies) }
        ensures stays { Stays self.old self.new }
        ensures modules { map M.view host.new.modules.items ≡ after_cleanups (cleanups_of object.now.header.kind) (map M.view host.old.modules.items) }
    {
        match object.header.kind {
            HeaderKind::Building => self.give_both(0, 0),
            HeaderKind::Native(_, destructor) => {
                self.show(Item::Destroy(object.header.number));
                self.give_both(object_of(object.slot), destructor);
            }
            HeaderKind::Foreign(guest, token) => {
                self.show(Item::Clean(guest, token));
                clean(host, guest, token);
                self.give_both(0, 0);
            }
        }
    }

    // Leaves the newest handler, and lets go of its exception where that was its last.
    fn leave(&mut self, object: &Object) -> Option<Ended>
        requires { newest_object self.old.exceptions ≡ Some object.now }
        ensures left { (result, self.new.exceptions) ≡ left_by object.now (ended self.old.exceptions) }
        ensures rest { self.new ≡ record self.old { exceptions = self.new.exceptions } }
    {
        self.globals.leave(object)
    }

    // Leaves the newest handler, which an exception has.
    fn end_object<M: Module>(&mut self, object: &Object, host: &mut Host<M>) -> Effect
        requires fresh { IsFresh self.old }
        requires newest { newest_object self.old.exceptions ≡ Some object.now }
        ensures made { Makes (λ w. leaves object.now w (left_by object.now (ended w.exceptions))) self.old self.new result }
        ensures stays { Stays self.old self.new }
        ensures modules { map M.view host.new.modules.items ≡ after_cleanups self.new.shown (map M.view host.old.modules.items) }
    {
        let Some(left) = self.leave(object) else {
            return REFUSED;
        };
        self.show(Item::Leave(object.header.number));
        match left {
            Ended::Last(_) => self.tell(object, host),
            Ended::Active(_) | Ended::Travelling(_) => self.give_both(0, 0),
        }
        Effect::Goes
    }

    /// Leaves the newest handler.
    pub(crate) fn end_catch<M: Module>(&mut self, host: &mut Host<M>) -> Effect
        requires { IsFresh self.old }
        ensures made { Makes end_catch self.old self.new result }
        ensures stays { Stays self.old self.new }
        ensures modules { map M.view host.new.modules.items ≡ after_cleanups self.new.shown (map M.view host.old.modules.items) }
    {
        match self.globals.newest() {
            None => REFUSED,
            Some(object) => self.end_object(&object, host),
        }
    }
}

// Has a module clean up a foreign exception.
fn clean<M: Module>(host: &mut Host<M>, guest: u32, token: u32)
    ensures { map M.view host.new.modules.items ≡ changed_at guest (λ seen. cleaned seen token) (map M.view host.old.modules.items) }
{
    match host.clean(guest, token) {
        Ok(()) => {}
        Err(NoModule) => {}
    }
}
