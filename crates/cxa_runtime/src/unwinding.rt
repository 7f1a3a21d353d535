// The unwinder's answers, and what is kept of them.
ghost use Rattle.std.specs.Prelude.{◌≡◌, true, false, Some};
ghost use Rattle.personality.specs.Seen.{thrown_of};
ghost use Rattle.raise_core.specs.Raise as forms;
ghost use Rattle.raise_core.specs.Reads.{AreTables};
ghost use Rattle.caught_stack.specs.Live.{header_of};
ghost use Rattle.caught_stack.specs.Caught.{is_caught};
ghost use Rattle.caught_stack.specs.Allocate.{with_header};
ghost use Rattle.cxa_runtime.specs.Owed.{is_built_as};
ghost use Rattle.cxa_runtime.specs.Objects as objects;
ghost use Rattle.cxa_runtime.specs.Flying.{aimed, one_uncaught, flown, CanFly};
ghost use Rattle.cxa_runtime.specs.Kept.{Unwinds};

use crate::flight::Flight;
use crate::object::Object;
use crate::runtime::Runtime;
use caught_stack::Header;
use personality::Thrown;
use raise_core::Raised;

impl Runtime {
    /// Searches for a target of what is thrown, and enters the first frame on the way to it.
    pub(crate) fn raise(&mut self, thrown: &Thrown) -> Raised
        ensures raised { (t : AreTables self.old.hart self.old.frames) → (result, self.new.hart) ≡ forms.raise t.read.fdes (thrown_of thrown.now) self.old.hart }
        ensures unwinds { Unwinds result self.old self.new }
        ensures memory { self.new.hart.memory ≡ self.old.hart.memory }
    {
        self.unwinder.raise(thrown)
    }

    /// Enters the next frame on the way to a target.
    pub(crate) fn go_on(&mut self, thrown: &Thrown, target: u64) -> Raised
        ensures raised { (t : AreTables self.old.hart self.old.frames) → (result, self.new.hart) ≡ forms.resume t.read.fdes (thrown_of thrown.now) target self.old.hart }
        ensures unwinds { Unwinds result self.old self.new }
        ensures memory { self.new.hart.memory ≡ self.old.hart.memory }
    {
        self.unwinder.resume(thrown, target)
    }

    /// Enters the next frame of a forced unwind.
    pub(crate) fn force(&mut self) -> Raised
        ensures raised { (t : AreTables self.old.hart self.old.frames) → (result, self.new.hart) ≡ forms.forced_unwind t.read.fdes self.old.hart }
        ensures unwinds { Unwinds result self.old self.new }
        ensures memory { self.new.hart.memory ≡ self.old.hart.memory }
    {
        self.unwinder.force()
    }

    /// An object that is building is thrown, with another header.
    pub(crate) fn take_off(&mut self, object: &Object, header: Header)
        requires live { header_of self.old.exceptions.live object.now.slot ≡ Some object.now.header }
        requires building { objects.is_building object.now.header.kind ≡ true }
        requires thrown { is_built_as header.kind ≡ true }
        ensures thrown { self.new ≡ record self.old { exceptions = one_uncaught (with_header object.now.slot header self.old.exceptions) } }
        ensures not_caught { is_caught self.new.exceptions.caught object.now.slot ≡ false }
        ensures live { header_of self.new.exceptions.live object.now.slot ≡ Some header }
    {
        self.globals.throw(object, header);
    }

    /// An exception of a module is on its way.
    pub(crate) fn fly(&mut self, flight: Flight)
        requires { CanFly flight self.old.exceptions }
        ensures { self.new ≡ record self.old { exceptions = flown flight self.old.exceptions } }
    {
        match flight {
            Flight::Raised => self.globals.raised(),
            Flight::Rethrown => {
                let _slot = self.globals.rethrow();
            }
        }
    }

    /// Keeps the target of a raise with its exception.
    pub(crate) fn aim(&mut self, object: &Object, cfa: u64, lsda: u64)
        requires live { header_of self.old.exceptions.live object.now.slot ≡ Some object.now.header }
        requires thrown { is_built_as object.now.header.kind ≡ true }
        ensures { self.new ≡ record self.old { exceptions = with_header object.now.slot (aimed cfa lsda object.now.header) self.old.exceptions } }
    {
        self.globals.aim(object, cfa, lsda);
    }
}
