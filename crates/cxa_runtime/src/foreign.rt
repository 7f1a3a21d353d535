// Modules of other languages, and the exceptions that they raise.
ghost use Rattle.std.specs.Prelude.{◌≡◌, ℕ, List, map};
ghost use Rattle.raise_core.specs.Reads.{AreTables};
ghost use Rattle.eh_outer.specs.Module.{replied};
ghost use Rattle.foreign_host.specs.Host.{changed_at};
ghost use Rattle.cxa_runtime.specs.Objects.{slot_for};
ghost use Rattle.cxa_runtime.specs.Kept.{IsFresh, Makes, Stays, image_of, replies_of, world_of};
ghost use Rattle.cxa_runtime.specs.Foreign as forms;

use crate::allocating::new_header;
use crate::effect::Effect;
use crate::flight::Flight;
use crate::object::Object;
use crate::registers::{A0, A1, as_int, as_register};
use crate::runtime::Runtime;
use caught_stack::HeaderKind;
use eh_outer::{Module, Reply};
use foreign_host::{Host, NoModule};
use run_items::Item;

impl Runtime {
    // Raises a foreign exception, or terminates where all objects are live.
    fn raise_from(&mut self, guest: u32, token: u32) -> Effect
        requires { IsFresh self.old }
        ensures made { (wish : ℕ) × ((t : AreTables self.old.hart self.old.frames) →
            Makes (λ w. forms.raised_in (image_of t.read.fdes self.old) w guest token (slot_for w.exceptions.live wish)) self.old self.new result) }
        ensures stays { Stays self.old self.new }
    {
        let number = self.next_number();
        let header = new_header(number, HeaderKind::Foreign(guest, token));
        match self.receive(header) {
            None => self.terminate_now(),
            Some(slot) => {
                self.show(Item::Foreign(number, guest, token));
                self.raise_foreign(&Object { slot, header }, Flight::Raised)
            }
        }
    }

    // What a module's reply does.
    fn follow(&mut self, guest: u32, reply: Reply) -> Effect
        requires { IsFresh self.old }
        ensures made { (wish : ℕ) × ((t : AreTables self.old.hart self.old.frames) →
            Makes (λ w. forms.replied (image_of t.read.fdes self.old) wish w guest reply) self.old self.new result) }
        ensures stays { Stays self.old self.new }
    {
        match reply {
            Reply::Value(n) => {
                self.give(A0, as_register(i64::from(n)));
                Effect::Goes
            }
            Reply::Raise(token) => self.raise_from(guest, token),
        }
    }

    /// Calls a module; where there is none the result is 0.
    pub(crate) fn call_module<M: Module>(&mut self, host: &mut Host<M>) -> Effect
        requires { IsFresh self.old }
        ensures made { (wish : ℕ) × ((t : AreTables self.old.hart self.old.frames) (input : List ℕ) →
            (result, world_of self.new input (replies_of (map M.view host.new.modules.items)))
            ≡ forms.module_call (image_of t.read.fdes self.old) wish (world_of self.old input (replies_of (map M.view host.old.modules.items)))) }
        ensures stays { Stays self.old self.new }
        ensures modules { (k : ℕ) × (map M.view host.new.modules.items ≡ changed_at k replied (map M.view host.old.modules.items)) }
    {
        let guest = (self.argument(A0) % 0x1_0000_0000) as u32;
        match host.call(guest, as_int(self.argument(A1))) {
            Err(NoModule) => {
                self.give(A0, 0);
                Effect::Goes
            }
            Ok(reply) => self.follow(guest, reply),
        }
    }
}
