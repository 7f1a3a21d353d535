//! The program: real files, standard output and standard error, and the top call over them.
#![tactic(auto)]

mod modules;

ghost use Rattle.std.specs.Prelude.{◌≡◌, true, false};
ghost use Rattle.eh_commands.specs.declared.status.Status.TheVariants.{Done, WriteFault};

use eh_driver::{Status, ehc};
use eh_host::{FileStore, StreamSink, words_of};
use eh_outer::{Module, Once, Runs, Sink};
use modules::{Script, scripts_of};
use std::io::BufWriter;
use std::process::ExitCode;

// Does what the words say, over real files and streams; none where memory ran out before that.
fn done<Out: Sink, Er: Sink>(
    rt: &HostRuntime,
    words: &Vec<String>,
    out: &mut Out,
    err: &mut Er,
) -> Option<Status> {
    let alloc = rt.alloc();
    let scripts = scripts_of(alloc, words).ok()?;
    let mut modules: Vec<Box<dyn Module>> = Vec::new(alloc);
    for script in scripts {
        match script {
            Script::Once(replies) => {
                let module = Once::new(alloc, replies).ok()?;
                modules.push(Box::new(alloc, module).ok()?).ok()?;
            }
            Script::Runs(runs) => {
                let module = Runs::new(alloc, runs).ok()?;
                modules.push(Box::new(alloc, module).ok()?).ok()?;
            }
        }
    }
    let mut store = FileStore::new(alloc, rt);
    Some(ehc(alloc, words, &mut store, out, err, modules))
}

// How many bytes of a dump are written at once.
const PIECE: usize = 0x1_0000;

// Whether the words are those of a dump. It has many lines, and none waits for one of them.
fn is_dump(words: &[String]) -> bool {
    words.first().is_some_and(|word| word.as_str() == "dump")
}

// The status after the last lines were written out, or could not be.
fn finished<Er: Sink>(status: Status, written: bool, err: &mut Er) -> Status
    ensures whole { written ≡ true → result ≡ status }
    ensures other { (status ≡ Done → ⊥) → result ≡ status }
    ensures cut { written ≡ false → status ≡ Done → result ≡ WriteFault }
{
    if written || status != Status::Done {
        return status;
    }
    let _ = err.put(b"ehc: write fault\n");
    Status::WriteFault
}

// Does the words with an output that is written in large pieces.
fn done_in_pieces<Er: Sink>(rt: &HostRuntime, words: &Vec<String>, err: &mut Er) -> Option<Status> {
    let writer = BufWriter::with_capacity(rt.alloc(), PIECE, rt.stdout()).ok()?;
    let mut out = StreamSink::new(writer);
    let status = done(rt, words, &mut out, err)?;
    let written = out.finish();
    Some(finished(status, written, err))
}

// Does the words with an output that is written line by line, so that the lines of a program show
// while it runs.
fn done_in_lines<Er: Sink>(rt: &HostRuntime, words: &Vec<String>, err: &mut Er) -> Option<Status> {
    let mut out = StreamSink::new(rt.stdout());
    done(rt, words, &mut out, err)
}

// Does the words of the command line; none where memory ran out before that.
fn all_done<Er: Sink>(rt: &HostRuntime, err: &mut Er) -> Option<Status> {
    let words = words_of(rt)?;
    if is_dump(words.as_slice()) {
        done_in_pieces(rt, &words, err)
    } else {
        done_in_lines(rt, &words, err)
    }
}

fn main(rt: HostRuntime) -> ExitCode {
    let mut err = StreamSink::new(rt.stderr());
    let status = match all_done(&rt, &mut err) {
        Some(status) => status,
        None => {
            let _ = err.put(b"ehc: no memory\n");
            Status::NoMemory
        }
    };
    ExitCode::from(status.number())
}
