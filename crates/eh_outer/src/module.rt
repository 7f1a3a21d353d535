// A module of another language, which answers calls and may raise.
ghost use Rattle.std.specs.Prelude.{◌≡◌};
ghost use Rattle.eh_outer.specs.Domain.{RepliesAreInts, ReplyIsInt};
ghost use Rattle.eh_outer.specs.Module.{ModuleView, cleaned, replied, reply_of};
ghost use Rattle.eh_outer.specs.Replies.{raises};

/// What a module answers to a call.
#[derive(Clone, Copy, Debug, PartialEq, Eq)]
pub enum Reply {
    /// The call returns the int.
    Value(i32),
    /// The call raises a foreign exception with the token.
    Raise(u32),
}

impl Reply {
    /// Whether it raises an exception.
    pub fn raises(&self) -> bool
        ensures value { result ≡ raises self.now }
        ensures int { ReplyIsInt self.now }
    {
        match *self {
            Reply::Value(_int) => false,
            Reply::Raise(_token) => true,
        }
    }
}

/// A module that is called from outside its language, and owns the foreign exceptions that it raises.
///
/// Its calls take no memory.
pub trait Module: Drop {
    /// The replies still to come, the tokens cleaned in order, and how many of these it can keep.
    ghost view: { Self → ModuleView };

    /// Each reply still to come is one that a call can give: an int, or a token, of 32 bits.
    ghost ints: { (m : Self) → RepliesAreInts (view m).rest };

    /// The next reply, or the value 0 where none is left.
    fn call(&mut self, arg: i32) -> Reply
        ensures reply { result ≡ reply_of (view self.old).rest }
        ensures rest { view self.new ≡ replied (view self.old) };

    /// The cleanup of the foreign exception with the token, which is kept where there is room.
    fn cleanup(&mut self, token: u32)
        ensures { view self.new ≡ cleaned (view self.old) token };
}

// A call goes to the module in the box.
impl Module for Box<dyn Module> {
    ghost view = { λ b. (Module-box b).view b.value };

    ghost ints = { λ b. (Module-box b).ints b.value };

    fn call(&mut self, arg: i32) -> Reply {
        (**self).call(arg)
    }

    fn cleanup(&mut self, token: u32) {
        (**self).cleanup(token);
    }
}
