// The command `run`: a source is compiled, and its image is run.
ghost use Rattle.std.specs.Prelude.{◌≡◌, ◌≤◌, ◌^◌, length, map};
ghost use Rattle.cxx_ast.specs.Checked.{IsChecked};
ghost use Rattle.cxx_ast.specs.View.{checked_of};
ghost use Rattle.eh_commands.specs.File.{NamesRefusal, source_limit};
ghost use Rattle.eh_commands.specs.Question.{asked_by};
ghost use Rattle.eh_commands.specs.RunSource.{CompiledRuns, RunCause, SourceRuns};

use crate::exec::run_loaded;
use crate::file::{Ended, Question, SOURCE_LIMIT, read_both};
use crate::ready::ready;
use crate::status::Status;
use cxx_ast::program::Checked;
use cxx_front::checked;
use eh_outer::{Module, Sink, Store};
use std::alloc::Global;

// Compiles a checked program, and runs its image with its input.
fn run_program<Out: Sink, M: Module>(
    alloc: Global,
    program: &Checked,
    input: &[u8],
    question: &Question<'_>,
    modules: Vec<M>,
    out: &mut Out,
) -> Status
    requires turns { question.now.turns ≤ 2 ^ 40 }
    requires program { IsChecked (checked_of program.now) }
    ensures { CompiledRuns (asked_by question.now (map M.view modules.items)) (checked_of program.now) input.now (Out.view out.old) (Out.view out.new) result }
{
    match ready(alloc, program) {
        Err(_) => Status::NoMemory,
        Ok(loaded) => run_loaded(loaded, input, question, modules, out),
    }
}

// Compiles a source, and runs it with its input.
fn run_source<Out: Sink, M: Module>(
    alloc: Global,
    source: &[u8],
    input: &[u8],
    question: &Question<'_>,
    modules: Vec<M>,
    out: &mut Out,
) -> Status
    requires turns { question.now.turns ≤ 2 ^ 40 }
    requires short { length source.now ≤ source_limit }
    ensures { SourceRuns (asked_by question.now (map M.view modules.items)) source.now input.now (Out.view out.old) (Out.view out.new) result }
{
    match checked(alloc, source, question.std) {
        Err(error) => error.into(),
        Ok(program) => run_program(alloc, &program, input, question, modules, out),
    }
}

/// Reads a source and its input, compiles it, and runs its image: each line that it writes, under `trace` each event, its end, and
/// under `count` how many steps it counted.
pub fn run_file<'a, St: Store, Out: Sink, M: Module>(
    alloc: Global,
    question: Question<'a>,
    store: &mut St,
    out: &mut Out,
    modules: Vec<M>,
) -> Ended<'a>
    requires turns { question.turns ≤ 2 ^ 40 }
    ensures cause { RunCause (asked_by question.entry (map M.view modules.items)) (St.view store.old) (St.view store.new) (Out.view out.old) (Out.view out.new) result.status }
    ensures files { (St.view store.new).files ≡ (St.view store.old).files }
    ensures name { NamesRefusal result.status result.file.now (St.view store.new) }
{
    match read_both(alloc, question, SOURCE_LIMIT, store) {
        Err(ended) => ended,
        Ok((source, input)) => Ended {
            status: run_source(
                alloc,
                source.as_slice(),
                input.as_slice(),
                &question,
                modules,
                out,
            ),
            file: "",
        },
    }
}
