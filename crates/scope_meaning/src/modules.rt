// The modules of a program: they give replies and clean up while it runs.

ghost use Rattle.std.specs.Prelude.{◌≡◌, [], List, map};
ghost use Rattle.eh_outer.specs.Module.{ModuleView, cleaned};
ghost use Rattle.foreign_host.specs.Host.{changed_at};
ghost use Rattle.scope_meaning.specs.Modules.{after_item, cleaned_by, kept_of, rests_of};

use crate::NoMemory;
use eh_outer::{Module, Reply};
use foreign_host::Host;
use run_items::Item;
use scope_world::Outside;
use std::marker::{Brand, PhantomData};

/// The modules that a program begins with.
pub trait Begins {
    /// What each of them told of itself.
    ghost views: { List ModuleView };
}

impl Begins for Brand {
    ghost views = { [] };
}

/// The modules, and the items written so far; each cleanup that an item tells of is made.
pub struct Modules<M: Module, K: Begins> {
    pub host: Host<M>,
    pub items: Vec<Item>,
    pub of: PhantomData<K>,
    pub ghost kept: { map kept_of (map M.view host.modules.items) ≡ map kept_of (cleaned_by items.items K.views) },
}

impl<M: Module, K: Begins> Outside for Modules<M, K> {
    ghost told = { λ s. record { written = s.items.items; replies = rests_of (map M.view s.host.modules.items) } };

    #[tactic(auto, using(crate::proofs::Kept::replied_so, crate::proofs::Kept::not_replied, crate::proofs::Kept::rests_so, crate::proofs::Kept::kept_so))]
    fn reply(&mut self, guest: u32, argument: i32) -> Reply {
        match self.host.call(guest, argument) {
            Ok(reply) => reply,
            Err(_) => Reply::Value(0),
        }
    }

    // The item first, so that want of memory leaves all as it was.
    #[tactic(auto, using(crate::proofs::Kept::kept_emitted, crate::proofs::Kept::rests_stay))]
    fn emit(&mut self, item: Item) -> Result<(), NoMemory> {
        self.items.push(item)?;
        clean_for(&mut self.host, item);
        Ok(())
    }
}

// A module cleans up; without such a module nothing does.
fn clean<M: Module>(host: &mut Host<M>, guest: u32, token: u32)
    ensures { map M.view host.new.modules.items ≡ changed_at guest (λ seen. cleaned seen token) (map M.view host.old.modules.items) }
{
    match host.clean(guest, token) {
        Ok(()) => {}
        Err(_) => {}
    }
}

// The cleanup that an item tells of, if it is one.
#[tactic(auto, using(crate::proofs::Kept::no_cleanup, crate::proofs::Kept::one_cleanup))]
fn clean_for<M: Module>(host: &mut Host<M>, item: Item)
    ensures { map M.view host.new.modules.items ≡ after_item item (map M.view host.old.modules.items) }
{
    match item {
        Item::Clean(guest, token) => clean(host, guest, token),
        _ => {}
    }
}
