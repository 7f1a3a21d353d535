// What is outside a running program: what it writes to, and the modules of other languages that it calls.

ghost use Rattle.std.specs.Prelude.{◌≡◌, IfOk};
ghost use Rattle.scope_world.specs.Outside.{Told, emitted, reply_from, replied};

use crate::NoMemory;
use eh_outer::Reply;
use run_items::Item;

/// The outside of a running program, whose modules have numbers.
pub trait Outside {
    /// What was written, and the replies still to come of each module.
    ghost told: { Self → Told };

    /// The next reply of a module; the value 0 where none is left, or where there is no such module.
    fn reply(&mut self, guest: u32, argument: i32) -> Reply
        ensures reply { result ≡ reply_from guest (told self.old).replies }
        ensures told { told self.new ≡ replied guest (told self.old) };

    /// An item comes after those so far; where it tells of a module's cleanup, that is made now.
    fn emit(&mut self, item: Item) -> Result<(), NoMemory>
        ensures { IfOk result (λ done. told self.new ≡ emitted item (told self.old)) };
}
