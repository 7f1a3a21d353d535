// The tokens that a module in memory has cleaned.
ghost use Rattle.std.specs.Prelude.{◌≡◌, ◌++◌, ◌∷◌, [], IfOk, length, nat_lt, if◌then◌else◌};

use crate::NoMemory;
use std::alloc::Global;
use std::marker::Model;

/// Tokens in order, up to a number that is reserved.
#[derive(Drop)]
pub struct Tokens {
    tokens: Vec<u32>,
    room: usize,
}

impl Model for Tokens {
    ghost use Rattle.std.specs.Prelude.{◌≤◌, vec_capacity};
    ghost use Rattle.eh_outer.specs.Replies.{TokensView};

    ghost Value = { TokensView };

    ghost view = { λ a. record { kept = a.tokens.items; room = a.room } };

    ghost invariant = { λ a. a.room ≤ vec_capacity a.tokens };
}

impl Tokens {
    /// None yet, with room for so many.
    pub fn new(alloc: Global, room: usize) -> Result<Self, NoMemory>
        ensures { IfOk result (λ t. t ≡ record { kept = []; room = room }) }
    {
        Ok(Tokens {
            tokens: Vec::with_capacity(alloc, room)?,
            room,
        })
    }

    /// Keeps the token, where there is room.
    pub fn keep(&mut self, token: u32)
        ensures { self.new ≡ record self.old { kept = if nat_lt (length self.old.kept) self.old.room then self.old.kept ++ token ∷ [] else self.old.kept } }
    {
        if self.tokens.len() < self.room {
            match self.tokens.push(token) {
                Ok(()) => {}
                Err(_) => unreachable!(),
            }
        }
    }

    /// The tokens kept.
    pub fn as_slice(&self) -> &[u32]
        ensures { result.now ≡ self.now.kept }
    {
        self.tokens.as_slice()
    }
}
