//! Plays transcripts of `ehc` over a store and sinks in memory, and prints them as they come: `transcripts FILE..`.
//!
//! A transcript has lines of what stands in the store, commands, and behind each command what it prints. The printed lines are what must
//! come, and are not looked at here: all others are printed as they stand, and behind each command what came. So `stdout` is the
//! transcripts, one after the other, where everything comes as it was worked out by hand. README.md has the lines.
#![tactic(auto)]

mod answer;
mod asked;
mod files;
mod play;
mod text;
mod worked;

use play::Player;
use std::{env, fs, io};

fn main(rt: HostRuntime) -> io::Result<()> {
    for name in env::args(&rt)?.skip(1) {
        let transcript = fs::read_to_string(&rt, name.as_str())?;
        let mut player = Player::new(rt.alloc());
        for line in transcript.lines() {
            let shown = player.play(rt.alloc(), line)?;
            print!(rt; "{shown}")?;
        }
    }
    Ok(())
}
