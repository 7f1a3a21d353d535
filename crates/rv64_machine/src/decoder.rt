// Instructions that were decoded, by the places of their words.
ghost use Rattle.std.specs.Prelude.{◌≡◌, ◌<◌, Some};
ghost use Rattle.rv64_isa.specs.Decoding.{decoded};

use rv64_isa::{Instr, decode};
use std::marker::Model;

// How many are remembered. Code that is longer takes turns at their places.
const COUNT: usize = 1024;

// A number that no word has.
const NO_WORD: u64 = u64::MAX;

/// A word and its instruction.
#[derive(Clone, Copy)]
pub struct Entry {
    word: u64,
    instr: Instr,
}

/// A decoder that remembers what it decoded last at each of some places. What it answers is the word's instruction alone.
#[derive(Drop)]
pub struct Decoder {
    entries: [Entry; COUNT],
}

impl Model for Decoder {
    ghost use Rattle.std.specs.Prelude.{List};
    ghost use Rattle.rv64_machine.specs.declared.decoder.Entry.{Entry};
    ghost use Rattle.rv64_machine.specs.Decoder.{AreDecoded};

    ghost Value = { List Entry };

    ghost view = { λ d. d.entries };

    ghost invariant = { λ d. AreDecoded d.entries };
}

impl Decoder {
    /// A decoder that remembers nothing.
    pub fn new() -> Decoder {
        let none = Entry {
            word: NO_WORD,
            instr: Instr::Ecall,
        };
        Decoder {
            entries: [none; COUNT],
        }
    }

    // The instruction, which is remembered.
    fn remembered(&mut self, at: usize, word: u32, instr: Instr) -> Instr
        requires inside { at < 1024 }
        requires its { decoded word ≡ Some instr }
        ensures { result ≡ instr }
    {
        let answer = instr;
        let entry = Entry {
            word: u64::from(word),
            instr,
        };
        self.entries[at] = entry;
        answer
    }

    // Decodes a word, and remembers it.
    #[inline(never)]
    fn decode_anew(&mut self, at: usize, word: u32) -> Option<Instr>
        requires { at < 1024 }
        ensures { result ≡ decoded word }
    {
        match decode(word) {
            Err(_) => None,
            Ok(instr) => Some(self.remembered(at, word, instr)),
        }
    }

    /// The instruction of a word that stands at this address, if it is one.
    #[inline(always)]
    pub fn instr_at(&mut self, address: u64, word: u32) -> Option<Instr>
        ensures { result ≡ decoded word }
    {
        let at = (address / 4 % COUNT as u64) as usize;
        let entry = self.entries[at];
        if entry.word == u64::from(word) {
            Some(entry.instr)
        } else {
            self.decode_anew(at, word)
        }
    }
}
