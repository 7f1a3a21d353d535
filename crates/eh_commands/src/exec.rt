// The command `exec`: an image is run.
ghost use Rattle.std.specs.Prelude.{◌≡◌, ◌≤◌, ◌^◌, map};
ghost use Rattle.eh_commands.specs.Exec.{ExecCause, ImageRuns, ProgramRuns};
ghost use Rattle.eh_commands.specs.File.{NamesRefusal};
ghost use Rattle.eh_commands.specs.Question.{asked_by};
ghost use Rattle.eh_commands.specs.RunEnd.{Ends};

use crate::file::{Ended, Question, read_both};
use crate::image::IMAGE_LIMIT;
use crate::run_end::{put_last, status_of_run};
use crate::status::Status;
use eh_outer::{Module, Sink, SinkError, Store};
use eh_run::{End, Loaded, Ran, load, run};
use foreign_host::Host;
use std::alloc::Global;

// Prints how a run ended.
fn print_end<Out: Sink>(out: &mut Out, count: bool, ran: Ran) -> Status
    ensures { Ends ran.end count ran.count (Out.view out.old) (Out.view out.new) result }
{
    match ran.end {
        End::WriteFault => Status::WriteFault,
        end => match put_last(out, count, ran) {
            Ok(()) => status_of_run(end),
            Err(SinkError::Failed) => Status::WriteFault,
        },
    }
}

/// Runs an image that is ready.
pub fn run_loaded<Out: Sink, M: Module>(
    loaded: Loaded,
    input: &[u8],
    question: &Question<'_>,
    modules: Vec<M>,
    out: &mut Out,
) -> Status
    requires { question.now.turns ≤ 2 ^ 40 }
    ensures { ProgramRuns (asked_by question.now (map M.view modules.items)) loaded input.now (Out.view out.old) (Out.view out.new) result }
{
    let mut host = Host::new(modules);
    let ran = run(
        loaded,
        input,
        &mut host,
        question.turns,
        question.trace,
        out,
    );
    host.close();
    print_end(out, question.count, ran)
}

// Runs an image.
fn run_image<Out: Sink, M: Module>(
    alloc: Global,
    image: &[u8],
    input: &[u8],
    question: &Question<'_>,
    modules: Vec<M>,
    out: &mut Out,
) -> Status
    requires { question.now.turns ≤ 2 ^ 40 }
    ensures { ImageRuns (asked_by question.now (map M.view modules.items)) image.now input.now (Out.view out.old) (Out.view out.new) result }
{
    match load(alloc, image) {
        Err(error) => error.into(),
        Ok(loaded) => run_loaded(loaded, input, question, modules, out),
    }
}

/// Reads an image and its input, and runs it: each line that it writes, under `trace` each event, its end, and under `count` how
/// many steps it counted.
pub fn exec_file<'a, St: Store, Out: Sink, M: Module>(
    alloc: Global,
    question: Question<'a>,
    store: &mut St,
    out: &mut Out,
    modules: Vec<M>,
) -> Ended<'a>
    requires turns { question.turns ≤ 2 ^ 40 }
    ensures cause { ExecCause (asked_by question.entry (map M.view modules.items)) (St.view store.old) (St.view store.new) (Out.view out.old) (Out.view out.new) result.status }
    ensures files { (St.view store.new).files ≡ (St.view store.old).files }
    ensures name { NamesRefusal result.status result.file.now (St.view store.new) }
{
    match read_both(alloc, question, IMAGE_LIMIT, store) {
        Err(ended) => ended,
        Ok((image, input)) => Ended {
            status: run_image(
                alloc,
                image.as_slice(),
                input.as_slice(),
                &question,
                modules,
                out,
            ),
            file: "",
        },
    }
}
