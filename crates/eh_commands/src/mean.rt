// The command `mean`: what a source means.
ghost use Rattle.std.specs.Prelude.{◌≡◌, ◌≤◌, length, map};
ghost use Rattle.cxx_ast.specs.View.{checked_of};
ghost use Rattle.eh_outer.specs.Sink.{Puts};
ghost use Rattle.run_items.specs.Line.{lines_of};
ghost use Rattle.run_items.specs.Output.{PutsAll};
ghost use Rattle.meaning_forms.specs.Meaning.{Meaning as MeaningMeant};
ghost use Rattle.scope_meaning.specs.Mean.{Tells, meant};
ghost use Rattle.eh_commands.specs.File.{NamesRefusal, source_limit};
ghost use Rattle.eh_commands.specs.Mean.{MeanCause, MeaningEnds, SourceMeans, end_line, mean_lines, status_of_end};
ghost use Rattle.eh_commands.specs.Question.{asked_by};

use crate::file::{Ended, Question, SOURCE_LIMIT, read_both};
use crate::line::put_int;
use crate::status::Status;
use cxx_ast::program::Checked;
use cxx_front::checked;
use eh_outer::{Module, Sink, SinkError, Store};
use run_items::{Item, put_item};
use scope_meaning::{MeanEnd, Meaning, mean};
use std::alloc::Global;

// Puts the lines of items.
fn put_items<Out: Sink>(out: &mut Out, trace: bool, items: &[Item]) -> Result<(), SinkError>
    ensures { PutsAll (lines_of trace items.now) (Out.view out.old) (Out.view out.new) result }
{
    let mut rest = items;
    while let Some((first, others)) = rest.split_first() {
        put_item(out, trace, *first)?;
        rest = others;
    }
    Ok(())
}

// Puts the line of an end.
fn put_end<Out: Sink>(out: &mut Out, end: MeanEnd) -> Result<(), SinkError>
    ensures { Puts (end_line end) (Out.view out.old) (Out.view out.new) result }
{
    match end {
        MeanEnd::Exit(n) => put_int(out, "= exit ", n),
        MeanEnd::Aborted => out.put(b"= aborted\n"),
        MeanEnd::Undefined => out.put(b"= undefined\n"),
        MeanEnd::OutOfTurns => out.put(b"= budget\n"),
        MeanEnd::Deep => out.put(b"= stack\n"),
    }
}

// Puts the lines of a meaning.
#[tactic(auto, using(crate::proofs::Meanings::ended, crate::proofs::Meanings::cut_short))]
fn put_meaning<Out: Sink>(out: &mut Out, trace: bool, meaning: &Meaning) -> Result<(), SinkError>
    ensures { PutsAll (mean_lines trace meaning.now.items.items meaning.now.end) (Out.view out.old) (Out.view out.new) result }
{
    put_items(out, trace, meaning.items.as_slice())?;
    put_end(out, meaning.end)
}

fn status_of_end(end: MeanEnd) -> Status
    ensures { result ≡ status_of_end end }
{
    match end {
        MeanEnd::Exit(_) => Status::Done,
        MeanEnd::Aborted => Status::Aborted,
        MeanEnd::Undefined => Status::Undefined,
        MeanEnd::OutOfTurns => Status::Budget,
        MeanEnd::Deep => Status::Stack,
    }
}

// Prints a meaning.
fn print<Out: Sink>(out: &mut Out, trace: bool, meaning: &Meaning) -> Status
    ensures { (m : MeaningMeant) → Tells meaning.now m → MeaningEnds trace m (Out.view out.old) (Out.view out.new) result }
{
    match put_meaning(out, trace, meaning) {
        Ok(()) => status_of_end(meaning.end),
        Err(SinkError::Failed) => Status::WriteFault,
    }
}

// Prints what a checked program means.
fn mean_of_program<Out: Sink, M: Module>(
    alloc: Global,
    program: &Checked,
    input: &[u8],
    question: &Question<'_>,
    modules: &mut Vec<M>,
    out: &mut Out,
) -> Status
    ensures { MeaningEnds question.now.trace (meant (checked_of program.now) input.now (map M.view modules.old.items) question.now.turns) (Out.view out.old) (Out.view out.new) result }
{
    match mean(alloc, program, input, modules, question.turns) {
        Err(_) => Status::NoMemory,
        Ok(meaning) => print(out, question.trace, &meaning),
    }
}

// Prints what a source means.
fn mean_of_source<Out: Sink, M: Module>(
    alloc: Global,
    source: &[u8],
    input: &[u8],
    question: &Question<'_>,
    modules: &mut Vec<M>,
    out: &mut Out,
) -> Status
    requires { length source.now ≤ source_limit }
    ensures { SourceMeans (asked_by question.now (map M.view modules.old.items)) source.now input.now (Out.view out.old) (Out.view out.new) result }
{
    match checked(alloc, source, question.std) {
        Err(error) => error.into(),
        Ok(program) => mean_of_program(alloc, &program, input, question, modules, out),
    }
}

/// Reads a source and its input, and prints what the source means.
pub fn mean_file<'a, St: Store, Out: Sink, M: Module>(
    alloc: Global,
    question: Question<'a>,
    store: &mut St,
    out: &mut Out,
    modules: &mut Vec<M>,
) -> Ended<'a>
    ensures cause { MeanCause (asked_by question.entry (map M.view modules.old.items)) (St.view store.old) (St.view store.new) (Out.view out.old) (Out.view out.new) result.status }
    ensures files { (St.view store.new).files ≡ (St.view store.old).files }
    ensures name { NamesRefusal result.status result.file.now (St.view store.new) }
{
    match read_both(alloc, question, SOURCE_LIMIT, store) {
        Err(ended) => ended,
        Ok((source, input)) => Ended {
            status: mean_of_source(
                alloc,
                source.as_slice(),
                input.as_slice(),
                &question,
                modules,
                out,
            ),
            file: "",
        },
    }
}
