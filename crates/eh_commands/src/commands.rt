// What the words of a command ask for, done and reported.
ghost use Rattle.std.specs.Prelude.{◌≡◌, ◌≤◌, ◌^◌, List, map, option_map, slice_get, string_bytes};
ghost use Rattle.command_line.specs.Command.{AreHarts, command_of, command_seen};
ghost use Rattle.eh_outer.specs.Module.{ModuleView};
ghost use Rattle.eh_commands.specs.File.{NamesRefusal, refused_name};
ghost use Rattle.eh_commands.specs.Generate.{IsSized};
ghost use Rattle.eh_commands.specs.Question.{asked_by};
ghost use Rattle.eh_commands.specs.Words.{asked, texts};
ghost use Rattle.eh_commands.specs.Answer.{Cause, CommandCause, KeepsFiles, KeptBy, Reports};
ghost use Rattle.eh_commands.specs.Status.{text_of_status};

use crate::at::place_file;
use crate::compile::compile_file;
use crate::exec::exec_file;
use crate::file::{Ended, Question};
use crate::frames::frames_file;
use crate::generate::generate_and_count;
use crate::harts::harts_file;
use crate::image::{check_file, doubts_file, dump_file};
use crate::mean::mean_file;
use crate::pack::pack_file;
use crate::report::report;
use crate::run_source::run_file;
use crate::status::Status;
use command_line::{Command, Verb, read_words};
use eh_outer::{Module, Sink, Store};
use std::alloc::Global;

// The first of some names.
fn first_of(names: &[String]) -> Option<&str>
    ensures { option_map (λ name. name.now) result ≡ slice_get (map string_bytes names.now) 0 }
{
    match names {
        [] => None,
        [name, ..] => Some(name.as_str()),
    }
}

// The second of some names.
fn second_of(names: &[String]) -> Option<&str>
    ensures { option_map (λ name. name.now) result ≡ slice_get (map string_bytes names.now) 1 }
{
    match names {
        [_, name, ..] => Some(name.as_str()),
        _ => None,
    }
}

// What a command asks of its files.
fn question_of(command: &Command) -> Question<'_>
    ensures { (modules : List ModuleView) → asked_by result modules ≡ asked modules (command_seen command.now) }
{
    Question {
        source: first_of(command.operands.as_slice()).unwrap_or(""),
        image: second_of(command.operands.as_slice()).unwrap_or(""),
        places: command.places.as_slice(),
        raised: command.raised,
        input: first_of(command.inputs.as_slice()),
        inputs: command.inputs.as_slice(),
        turns: command.max,
        std: command.std,
        trace: command.trace,
        count: command.count,
    }
}

// Does what a command does with the files or the size that it is given.
fn execute<'a, St: Store, Out: Sink, M: Module>(
    alloc: Global,
    verb: Verb,
    question: Question<'a>,
    store: &mut St,
    out: &mut Out,
    modules: Vec<M>,
) -> Ended<'a>
    requires turns { question.turns ≤ 2 ^ 40 }
    requires size { IsSized verb question.source.now }
    requires harts { AreHarts verb (map string_bytes question.inputs.now) }
    ensures cause { CommandCause verb (asked_by question.entry (map M.view modules.items)) (St.view store.old) (St.view store.new) (Out.view out.old) (Out.view out.new) result.status }
    ensures files { KeptBy verb result.status (St.view store.old) (St.view store.new) }
    ensures name { NamesRefusal result.status result.file.now (St.view store.new) }
{
    let file = question.source;
    match verb {
        Verb::Compile => compile_file(alloc, question, store),
        Verb::Run => run_file(alloc, question, store, out, modules),
        Verb::Exec => exec_file(alloc, question, store, out, modules),
        Verb::Harts => harts_file(alloc, question, store, out),
        Verb::Mean => {
            let mut modules = modules;
            mean_file(alloc, question, store, out, &mut modules)
        }
        Verb::Check => Ended {
            status: check_file(alloc, file, store, out),
            file,
        },
        Verb::Dump => Ended {
            status: dump_file(alloc, file, store, out),
            file,
        },
        Verb::Doubts => Ended {
            status: doubts_file(alloc, file, store, out),
            file,
        },
        Verb::Frames => Ended {
            status: frames_file(alloc, file, store, out),
            file,
        },
        Verb::At => Ended {
            status: place_file(alloc, question, store, out),
            file,
        },
        Verb::Pack => pack_file(alloc, question, store, out),
        Verb::Gen => Ended {
            status: generate_and_count(alloc, question, out),
            file,
        },
    }
}

/// Does what the words of a command say, reports on `err` what went otherwise, and answers the status. The modules are dropped.
pub fn answer<St: Store, Out: Sink, Er: Sink, M: Module>(
    alloc: Global,
    words: &Vec<String>,
    store: &mut St,
    out: &mut Out,
    err: &mut Er,
    modules: Vec<M>,
) -> Status
    // When each status comes, and what it leaves of the store's refusals and of `out`.
    ensures cause { Cause (map M.view modules.items) (command_of (texts words.now.items)) (St.view store.old) (St.view store.new) (Out.view out.old) (Out.view out.new) result }
    ensures files { KeepsFiles (command_of (texts words.now.items)) (St.view store.old) (St.view store.new) result }
    ensures report { Reports (text_of_status (refused_name (St.view store.new)) result) (Er.view err.old) (Er.view err.new) }
{
    match read_words(alloc, words) {
        Err(error) => {
            let status = Status::from(error);
            report(err, "", status);
            status
        }
        Ok(command) => {
            let question = question_of(&command);
            let ended = execute(alloc, command.verb, question, store, out, modules);
            report(err, ended.file, ended.status);
            ended.status
        }
    }
}
