// The runtime calls that have nothing to do with an exception object.
ghost use Rattle.std.specs.Prelude.{◌≡◌, List};
ghost use Rattle.eh_outer.specs.declared.module.Reply.{Reply};
ghost use Rattle.cxa_runtime.specs.Kept.{IsFresh, Makes, Stays, world_of};
ghost use Rattle.cxa_runtime.specs.Plain as forms;

use crate::effect::Effect;
use crate::registers::{A0, as_int, as_register};
use crate::runtime::Runtime;
use run_items::Item;

impl Runtime {
    /// Ends the run with an int.
    pub(crate) fn exit(&mut self) -> Effect
        ensures made { Makes forms.exit self.old self.new result }
        ensures stays { Stays self.old self.new }
    {
        Effect::Exits(as_int(self.argument(A0)))
    }

    /// Shows an int.
    pub(crate) fn write_int(&mut self) -> Effect
        requires { IsFresh self.old }
        ensures made { Makes forms.write_int self.old self.new result }
        ensures stays { Stays self.old self.new }
    {
        self.show(Item::Line(as_int(self.argument(A0))));
        Effect::Goes
    }

    /// Gives the next byte of the input, or -1 at its end.
    pub(crate) fn read_byte(&mut self, input: &[u8]) -> Effect
        ensures made { (replies : List (List Reply)) → (result, world_of self.new input.now replies) ≡ forms.read_byte (world_of self.old input.now replies) }
        ensures stays { Stays self.old self.new }
    {
        match input.get(self.read) {
            None => self.give(A0, as_register(-1)),
            Some(byte) => {
                self.read += 1;
                self.give(A0, u64::from(*byte));
            }
        }
        Effect::Goes
    }

    /// Gives whether an exception is uncaught.
    pub(crate) fn uncaught_exception(&mut self) -> Effect
        ensures made { Makes forms.uncaught_exception self.old self.new result }
        ensures stays { Stays self.old self.new }
    {
        let is_uncaught = self.globals.uncaught() > 0;
        self.give(A0, if is_uncaught { 1 } else { 0 });
        Effect::Goes
    }

    /// Sets the handler in effect for terminate.
    pub(crate) fn set_terminate(&mut self) -> Effect
        ensures made { Makes forms.set_terminate self.old self.new result }
        ensures stays { Stays self.old self.new }
    {
        self.terminate_handler = self.argument(A0);
        Effect::Goes
    }

    /// Sets the handler in effect for unexpected.
    pub(crate) fn set_unexpected(&mut self) -> Effect
        ensures made { Makes forms.set_unexpected self.old self.new result }
        ensures stays { Stays self.old self.new }
    {
        self.unexpected_handler = self.argument(A0);
        Effect::Goes
    }
}
