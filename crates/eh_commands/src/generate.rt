// The command `gen`: a source of a size is generated, compiled and run, and what its run does is counted.
ghost use Rattle.std.specs.Prelude.{◌≡◌, ◌≤◌, ◌^◌, true, []};
ghost use Rattle.cxx_ast.specs.Checked.{IsChecked};
ghost use Rattle.cxx_ast.specs.View.{checked_of};
ghost use Rattle.gen_source.specs.Laws.{most};
ghost use Rattle.run_items.specs.Output.{PutsAll};
ghost use Rattle.command_line.specs.Command.{is_size};
ghost use Rattle.eh_commands.specs.Generate.{CheckedRuns, CountEnds, GenCause, GenEnds, ReadyRuns, SizeRuns, counted_lines};
ghost use Rattle.eh_commands.specs.Question.{asked_by};

use crate::file::Question;
use crate::line::put_number;
use crate::ready::ready;
use crate::run_end::{put_last, status_of_run};
use crate::status::Status;
use command_line::source_size;
use cxx_ast::program::Checked;
use cxx_ast::standard::Std;
use cxx_front::{SourceError, checked};
use eh_outer::{Once, Sink, SinkError};
use eh_run::{Counted, Loaded, run_counted};
use foreign_host::Host;
use gen_source::{generate, generated_sources_are_valid};
use std::alloc::Global;

// Puts what was counted of a source with so many tokens, and how its run ended.
#[tactic(auto, using(crate::proofs::RunLines::put_before, crate::proofs::RunLines::end_failed))]
fn put_counted<Out: Sink>(out: &mut Out, tokens: u32, counted: Counted) -> Result<(), SinkError>
    ensures { PutsAll (counted_lines tokens counted.lines counted.makes counted.ran.end) (Out.view out.old) (Out.view out.new) result }
{
    put_number(out, "tokens ", u64::from(tokens))?;
    put_number(out, "lines ", counted.lines)?;
    put_number(out, "makes ", counted.makes)?;
    put_last(out, false, counted.ran)
}

// Runs what is ready, without input and modules, and counts what it does.
fn count_loaded<Out: Sink>(
    alloc: Global,
    loaded: Loaded,
    tokens: u32,
    turns: u64,
    out: &mut Out,
) -> Status
    requires { turns ≤ 2 ^ 40 }
    ensures { CountEnds (ReadyRuns turns loaded tokens) (Out.view out.old) (Out.view out.new) result }
{
    let modules: Vec<Once> = Vec::new(alloc);
    let mut host = Host::new(modules);
    let counted = run_counted(loaded, &[], &mut host, turns);
    host.close();
    match put_counted(out, tokens, counted) {
        Ok(()) => status_of_run(counted.ran.end),
        Err(SinkError::Failed) => Status::WriteFault,
    }
}

// Compiles a checked program, and counts what its run does.
fn count_program<Out: Sink>(alloc: Global, program: &Checked, turns: u64, out: &mut Out) -> Status
    requires turns { turns ≤ 2 ^ 40 }
    requires program { IsChecked (checked_of program.now) }
    ensures { GenEnds (CheckedRuns turns (checked_of program.now)) (Out.view out.old) (Out.view out.new) result }
{
    match ready(alloc, program) {
        Err(_) => Status::NoMemory,
        Ok(loaded) => count_loaded(alloc, loaded, program.program.tokens, turns, out),
    }
}

// Generates the source of a size, compiles it, and counts what its run does.
fn count_size<Out: Sink>(alloc: Global, size: u32, turns: u64, out: &mut Out) -> Status
    requires turns { turns ≤ 2 ^ 40 }
    requires size { size ≤ most }
    ensures { GenEnds (SizeRuns turns size) (Out.view out.old) (Out.view out.new) result }
{
    generated_sources_are_valid();
    let Ok(source) = generate(alloc, size) else {
        return Status::NoMemory;
    };
    match checked(alloc, source.as_slice(), Std::Cxx03) {
        Err(SourceError::Refused(_, _)) => unreachable!(),
        Err(SourceError::NoMemory) => Status::NoMemory,
        Ok(program) => count_program(alloc, &program, turns, out),
    }
}

/// Generates the source of a size and compiles it, runs its image without input and modules, and prints how many tokens the source has, how
/// many lines the run wrote, how many exception objects it made, and its end. The lines themselves are not printed.
pub fn generate_and_count<Out: Sink>(alloc: Global, question: Question<'_>, out: &mut Out) -> Status
    requires turns { question.turns ≤ 2 ^ 40 }
    requires size { is_size question.source.now ≡ true }
    ensures { GenCause (asked_by question.entry []) (Out.view out.old) (Out.view out.new) result }
{
    match source_size(question.source) {
        None => unreachable!(),
        Some(size) => count_size(alloc, size, question.turns, out),
    }
}
