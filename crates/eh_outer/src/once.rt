// A module in memory that gives each of its replies once.
ghost use Rattle.std.specs.Prelude.{◌≡◌, [], IfOk};
ghost use Rattle.eh_outer.specs.Domain.{RepliesAreInts, RepliesAreInts-prop};
ghost use Rattle.eh_outer.specs.Module.{cleaned, replied, reply_of};
ghost use Rattle.eh_outer.specs.Replies.{raise_count, raises};

use crate::tokens::Tokens;
use crate::{Module, NoMemory, Reply};
use std::alloc::Global;
use std::marker::Model;

/// Replies in memory, each given once, and the tokens cleaned.
#[derive(Drop)]
pub struct Once {
    replies: Vec<Reply>,
    given: usize,
    tokens: Tokens,
    ghost ints: { RepliesAreInts replies.items } by { RepliesAreInts-prop replies.items },
}

impl Model for Once {
    ghost use Rattle.std.specs.Prelude.{drop};
    ghost use Rattle.eh_outer.specs.Domain.{ReplyIsInt, all_dropped};
    ghost use Rattle.std.specs.Coded.{codes};
    ghost use Rattle.eh_outer.specs.Module.{ScriptView, script_code};

    ghost Value = { ScriptView };

    ghost coded = { script_code (Prim.hlevel codes) };

    ghost view = { λ a. record {
      seen = record {
        rest = drop a.given a.replies.items;
        cleaned = a.tokens.kept;
        room = a.tokens.room;
      };
      ints = all_dropped ReplyIsInt a.given a.replies.items a.ints;
    } };
}

// How many of the replies raise.
fn room_for(replies: &[Reply]) -> usize
    ensures value { result ≡ raise_count replies.now }
    ensures ints { RepliesAreInts replies.now }
{
    let mut room = 0;
    for reply in replies {
        if reply.raises() {
            room += 1;
        }
    }
    room
}

impl Once {
    /// A module that gives these replies in order, and has room for as many tokens as they raise.
    pub fn new(alloc: Global, replies: Vec<Reply>) -> Result<Once, NoMemory>
        ensures { IfOk result (λ m. m.seen ≡ record { rest = replies.items; cleaned = []; room = raise_count replies.items }) }
    {
        let room = room_for(replies.as_slice());
        Ok(Once {
            replies,
            given: 0,
            tokens: Tokens::new(alloc, room)?,
        })
    }
}

impl Module for Once {
    ghost view = { λ m. m.seen };

    ghost ints = { λ m. m.ints };

    fn call(&mut self, _arg: i32) -> Reply {
        match self.replies.get(self.given) {
            Some(reply) => {
                let reply = *reply;
                self.given += 1;
                reply
            }
            None => Reply::Value(0),
        }
    }

    fn cleanup(&mut self, token: u32) {
        self.tokens.keep(token);
    }
}
