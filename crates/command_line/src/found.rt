// What the words have for the operands and for each option, and the command that this is.
ghost use Rattle.std.specs.Prelude.{◌≡◌, IfOk, map, string_bytes};
ghost use Rattle.clap.specs.Matches.{found_of};
ghost use Rattle.clap.specs.Walk.{rows_of};
ghost use Rattle.command_line.specs.Command.{command_from, command_seen};
ghost use Rattle.command_line.specs.Found.{found_seen, found_under};
ghost use Rattle.command_line.specs.Gives.{Gives};

use crate::address::{places_for, raised_of};
use crate::command::{Command, Verb};
use crate::error::WordsError;
use crate::matches::{OPERAND, texts_of};
use crate::operands::{inputs_for, operands_for};
use crate::options::{max_of, scripts_of, std_of, switch_of};
use crate::setting::Setting;
use clap::ArgMatches;
use std::alloc::{AllocError, Global};

/// The operands, and the values of each option, in order.
#[derive(Drop)]
pub struct Found {
    pub operands: Vec<String>,
    pub inputs: Vec<String>,
    pub max: Vec<String>,
    pub std: Vec<String>,
    pub trace: Vec<String>,
    pub count: Vec<String>,
    pub scripts: Vec<String>,
    pub raised: Vec<String>,
}

impl Found {
    /// What clap found.
    pub fn of(alloc: Global, matches: &ArgMatches<'_>) -> Result<Found, AllocError>
        ensures { IfOk result (λ found. found_seen found ≡ found_under (rows_of (found_of matches.now))) }
    {
        Ok(Found {
            operands: texts_of(alloc, matches, OPERAND)?,
            inputs: texts_of(alloc, matches, Setting::Input.name())?,
            max: texts_of(alloc, matches, Setting::Max.name())?,
            std: texts_of(alloc, matches, Setting::Standard.name())?,
            trace: texts_of(alloc, matches, Setting::Trace.name())?,
            count: texts_of(alloc, matches, Setting::Count.name())?,
            scripts: texts_of(alloc, matches, Setting::Foreign.name())?,
            raised: texts_of(alloc, matches, Setting::Thrown.name())?,
        })
    }

    /// The command of a verb that takes so many operands. Usage where it is none.
    #[tactic(auto, unfolding(crate::specs::Command::command_from))]
    pub fn command(self, alloc: Global, verb: Verb, operands: usize) -> Result<Command, WordsError>
        ensures { Gives command_seen result (command_from verb operands (found_seen self)) }
    {
        Ok(Command {
            verb,
            places: places_for(alloc, verb, self.operands.as_slice())?,
            raised: raised_of(self.raised.as_slice())?,
            operands: operands_for(verb, operands, self.operands)?,
            inputs: inputs_for(verb, self.inputs)?,
            max: max_of(self.max.as_slice())?,
            std: std_of(self.std.as_slice())?,
            trace: switch_of(self.trace.as_slice())?,
            count: switch_of(self.count.as_slice())?,
            scripts: scripts_of(alloc, self.scripts.as_slice())?,
        })
    }
}
