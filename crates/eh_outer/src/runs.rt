// A module in memory that gives each of its replies many times.
ghost use Rattle.std.specs.Prelude.{◌≡◌, [], IfOk};
ghost use Rattle.eh_outer.specs.Domain.{ReplyIsInt, ReplyIsInt-prop, RunsAreInts, RunsAreInts-prop};
ghost use Rattle.eh_outer.specs.Module.{cleaned, replied, reply_of};
ghost use Rattle.eh_outer.specs.Replies.{replies_of, room_of};

use crate::tokens::Tokens;
use crate::{Module, NoMemory, Reply};
use std::alloc::Global;
use std::marker::Model;

/// The most tokens that a `Runs` keeps.
const MOST_TOKENS: usize = 1_000_000;

/// Runs of replies in memory, and the tokens cleaned.
#[derive(Drop)]
pub struct Runs {
    runs: Vec<(Reply, u32)>,
    // How many runs were begun, the reply of the last of them, and how often it is still to come.
    begun: usize,
    reply: Reply,
    left: u32,
    tokens: Tokens,
    ghost reply_int: { ReplyIsInt reply } by { ReplyIsInt-prop reply },
    ghost run_ints: { RunsAreInts runs.items } by { RunsAreInts-prop runs.items },
}

impl Model for Runs {
    ghost use Rattle.std.specs.Prelude.{◌++◌, drop, replicate};
    ghost use Rattle.eh_outer.specs.Domain.{runs_left};
    ghost use Rattle.std.specs.Coded.{codes};
    ghost use Rattle.eh_outer.specs.Module.{ScriptView, script_code};
    ghost use Rattle.eh_outer.specs.Replies.{replies_of};

    ghost Value = { ScriptView };

    ghost coded = { script_code (Prim.hlevel codes) };

    ghost view = { λ a. record {
      seen = record {
        rest = replicate a.left a.reply ++ replies_of (drop a.begun a.runs.items);
        cleaned = a.tokens.kept;
        room = a.tokens.room;
      };
      ints = runs_left a.left a.reply a.begun a.runs.items a.reply_int a.run_ints;
    } };
}

// How many tokens the runs can raise, at most `MOST_TOKENS`.
fn room_for(runs: &[(Reply, u32)]) -> usize
    ensures value { result ≡ room_of runs.now }
    ensures ints { RunsAreInts runs.now }
{
    let mut room = 0;
    for (reply, count) in runs {
        if reply.raises() {
            room = MOST_TOKENS.min(room + *count as usize);
        }
    }
    room
}

impl Runs {
    /// A module that gives each reply so many times, in order, and has room for as many tokens as they raise, at most
    /// 1,000,000.
    pub fn new(alloc: Global, runs: Vec<(Reply, u32)>) -> Result<Runs, NoMemory>
        ensures { IfOk result (λ m. m.seen ≡ record { rest = replies_of runs.items; cleaned = []; room = room_of runs.items }) }
    {
        let room = room_for(runs.as_slice());
        Ok(Runs {
            runs,
            begun: 0,
            reply: Reply::Value(0),
            left: 0,
            tokens: Tokens::new(alloc, room)?,
        })
    }
}

impl Module for Runs {
    ghost view = { λ m. m.seen };

    ghost ints = { λ m. m.ints };

    fn call(&mut self, _arg: i32) -> Reply {
        while self.left == 0 {
            match self.runs.get(self.begun) {
                Some(run) => {
                    self.reply = run.0;
                    self.left = run.1;
                    self.begun += 1;
                }
                None => return Reply::Value(0),
            }
        }
        self.left -= 1;
        self.reply
    }

    fn cleanup(&mut self, token: u32) {
        self.tokens.keep(token);
    }
}
