// The modules by their number.
ghost use Rattle.std.specs.Prelude.{◌≡◌, ◌≤◌, ◌↔◌, length, map, IsErr};
ghost use Rattle.std.specs.Result.{result_ok};
ghost use Rattle.eh_outer.specs.Module.{cleaned, replied};
ghost use Rattle.foreign_host.specs.Host.{changed_at, reply_at};

use eh_outer::{Module, Reply};
use thiserror::Error;

/// There is no module of that number.
#[derive(Clone, Copy, Debug, PartialEq, Eq, Error)]
#[error("no such module")]
pub struct NoModule;

/// Modules, numbered from 0 in the order in which they were handed in.
///
/// It is to be closed: a host that goes out of scope otherwise is refused.
pub struct Host<M = Box<dyn Module>> {
    // Public for clauses alone, which name what each module tells of itself by it.
    pub modules: Vec<M>,
}

impl<M: Module> Host<M> {
    /// A host of these modules.
    pub fn new(modules: Vec<M>) -> Self
        ensures { result.modules ≡ modules }
    {
        Host { modules }
    }

    /// Calls module `k`; `NoModule` where there is none.
    pub fn call(&mut self, k: u32, arg: i32) -> Result<Reply, NoModule>
        ensures missing { IsErr result ↔ (length self.old.modules.items ≤ k) }
        ensures reply { result_ok result ≡ reply_at k (map M.view self.old.modules.items) }
        ensures after { map M.view self.new.modules.items ≡ changed_at k replied (map M.view self.old.modules.items) }
    {
        let Some(guest) = self.modules.get_mut(k as usize) else {
            return Err(NoModule);
        };
        Ok(guest.call(arg))
    }

    /// Has module `k` clean up its foreign exception with the token; `NoModule` where there is none.
    pub fn clean(&mut self, k: u32, token: u32) -> Result<(), NoModule>
        ensures missing { IsErr result ↔ (length self.old.modules.items ≤ k) }
        ensures after { map M.view self.new.modules.items ≡ changed_at k (λ seen. cleaned seen token) (map M.view self.old.modules.items) }
    {
        let Some(owner) = self.modules.get_mut(k as usize) else {
            return Err(NoModule);
        };
        owner.cleanup(token);
        Ok(())
    }

    /// Drops the modules.
    pub fn close(self) {
        let Host { modules } = self;
        drop(modules);
    }
}
