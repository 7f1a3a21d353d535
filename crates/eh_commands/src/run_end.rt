// The last lines of a run.
ghost use Rattle.std.specs.Prelude.{◌≡◌};
ghost use Rattle.eh_outer.specs.Sink.{Puts};
ghost use Rattle.run_items.specs.Output.{PutsAll};
ghost use Rattle.run_ends.specs.EndLine.{end_line};
ghost use Rattle.eh_commands.specs.RunEnd.{count_line, last_lines, status_of_run};

use crate::line::put_number;
use crate::status::Status;
use eh_outer::{Sink, SinkError};
use eh_run::{End, Ran};
use run_ends::end_text;

// Puts the line of an end.
fn put_end<Out: Sink>(out: &mut Out, end: End) -> Result<(), SinkError>
    ensures { Puts (end_line end) (Out.view out.old) (Out.view out.new) result }
{
    out.put(end_text(end).as_slice())
}

// Puts the line of a count.
fn put_count<Out: Sink>(out: &mut Out, count: u64) -> Result<(), SinkError>
    ensures { Puts (count_line count) (Out.view out.old) (Out.view out.new) result }
{
    put_number(out, "= count ", count)
}

/// Puts the last lines of a run that wrote all of its lines: its end, and under `count` how many steps it counted.
#[tactic(auto, using(crate::proofs::RunLines::end_put, crate::proofs::RunLines::count_put, crate::proofs::RunLines::end_failed))]
pub fn put_last<Out: Sink>(out: &mut Out, count: bool, ran: Ran) -> Result<(), SinkError>
    ensures { PutsAll (last_lines count ran.end ran.count) (Out.view out.old) (Out.view out.new) result }
{
    put_end(out, ran.end)?;
    if count {
        put_count(out, ran.count)
    } else {
        Ok(())
    }
}

/// The status of an end.
pub fn status_of_run(end: End) -> Status
    ensures { result ≡ status_of_run end }
{
    match end {
        End::Exit(_) => Status::Done,
        End::Aborted => Status::Aborted,
        End::Budget => Status::Budget,
        End::Stack => Status::Stack,
        End::Fault(kind, place) => Status::MachineFault(kind, place),
        End::WriteFault => Status::WriteFault,
    }
}
