// Reads the words of the command line.
ghost use Rattle.std.specs.Prelude.{◌≡◌, ◌≤◌, IfOk, length, map, option_map, string_bytes};
ghost use Rattle.command_line.specs.Command.{command_of, command_taking, command_seen, operand_count, settings_of, verb_of};
ghost use Rattle.command_line.specs.Gives.{Gives};

use crate::command::{Command, Verb};
use crate::error::WordsError;
use crate::found::Found;
use crate::matches::matches_of;
use crate::setting::Setting;
use eh_outer::Reply;
use std::alloc::Global;

/// What a command takes behind its verb.
#[derive(Clone, Copy, Debug)]
pub struct Takes {
    pub settings: &'static [Setting],
    pub operands: usize,
}

impl Verb {
    // The options that its command has.
    fn settings(self) -> &'static [Setting]
        ensures { result.now ≡ settings_of self }
    {
        match self {
            Verb::Compile => &[Setting::Standard],
            Verb::Run => &[
                Setting::Input,
                Setting::Max,
                Setting::Trace,
                Setting::Count,
                Setting::Standard,
                Setting::Foreign,
            ],
            Verb::Exec => &[
                Setting::Input,
                Setting::Max,
                Setting::Trace,
                Setting::Count,
                Setting::Foreign,
            ],
            Verb::Harts => &[Setting::Input, Setting::Trace],
            Verb::Mean => &[
                Setting::Input,
                Setting::Max,
                Setting::Trace,
                Setting::Standard,
                Setting::Foreign,
            ],
            Verb::At => &[Setting::Thrown],
            Verb::Gen => &[Setting::Max],
            Verb::Check | Verb::Dump | Verb::Frames | Verb::Doubts | Verb::Pack => &[],
        }
    }

    // How many operands its command has, or at least how many, where there are places.
    fn operands(self) -> usize
        ensures { result ≡ operand_count self }
    {
        match self {
            Verb::Compile | Verb::Harts | Verb::Pack | Verb::At => 2,
            _ => 1,
        }
    }

    // What its command takes.
    fn takes(self) -> Takes
        ensures settings { result.settings.now ≡ settings_of self }
        ensures operands { result.operands ≡ operand_count self }
    {
        Takes {
            settings: self.settings(),
            operands: self.operands(),
        }
    }
}

// The verb that a word is.
fn verb_of(word: &str) -> Option<Verb>
    ensures { result ≡ verb_of word.now }
{
    match word {
        "compile" => Some(Verb::Compile),
        "run" => Some(Verb::Run),
        "exec" => Some(Verb::Exec),
        "harts" => Some(Verb::Harts),
        "mean" => Some(Verb::Mean),
        "check" => Some(Verb::Check),
        "dump" => Some(Verb::Dump),
        "frames" => Some(Verb::Frames),
        "at" => Some(Verb::At),
        "doubts" => Some(Verb::Doubts),
        "pack" => Some(Verb::Pack),
        "gen" => Some(Verb::Gen),
        _ => None,
    }
}

/// The command of a verb that takes so much, by the words behind it. Usage where they are none.
pub fn read_behind(
    alloc: Global,
    verb: Verb,
    takes: Takes,
    words: &[String],
) -> Result<Command, WordsError>
    ensures { Gives command_seen result (command_taking verb takes.settings.now takes.operands (map string_bytes words.now)) }
{
    let matches = matches_of(alloc, takes.settings, words)?;
    Found::of(alloc, &matches)?.command(alloc, verb, takes.operands)
}

/// The command that the words behind the program's name are. Usage where they are none.
pub fn read_words(alloc: Global, words: &Vec<String>) -> Result<Command, WordsError>
    ensures { Gives command_seen result (command_of (map string_bytes words.now.items)) }
{
    let Some((word, others)) = words.as_slice().split_first() else {
        return Err(WordsError::Usage);
    };
    match verb_of(word.as_str()) {
        Some(verb) => read_behind(alloc, verb, verb.takes(), others),
        None => Err(WordsError::Usage),
    }
}

/// The scripts of the modules that the words ask for, in order, at most 64. Usage where the words are no command.
pub fn scripts(alloc: Global, words: &Vec<String>) -> Result<Vec<Vec<(Reply, u32)>>, WordsError>
    ensures scripts { Gives (λ scripts. map (λ runs. runs.items) scripts.items) result (option_map (λ c. c.scripts) (command_of (map string_bytes words.now.items))) }
    ensures few { IfOk result (λ scripts. length scripts.items ≤ 64) }
{
    Ok(read_words(alloc, words)?.scripts)
}
