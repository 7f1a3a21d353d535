// The command `harts`: an image is run by several harts under a schedule.
ghost use Rattle.std.specs.Prelude.{◌≡◌, ◌≤◌, ◌^◌, [], length, map};
ghost use Rattle.hart_sched.specs.Schedule.{IsSchedule};
ghost use Rattle.hart_sched.specs.Turns.{AreFresh};
ghost use Rattle.hart_sched.specs.Whole.{seat_of};
ghost use Rattle.eh_commands.specs.File.{NamesRefusal};
ghost use Rattle.eh_commands.specs.HartFiles.{harts_asked, kept_bytes};
ghost use Rattle.eh_commands.specs.Harts.{HartsCause, HartsRun, Readies, ReadiesAll, SeatsRun};
ghost use Rattle.eh_commands.specs.Question.{asked_by};

use crate::file::{Ended, Question};
use crate::hart_files::read_harts;
use crate::status::Status;
use eh_outer::{Sink, SinkError, Store};
use eh_run::load;
use elf_image::ImageError;
use hart_sched::{Hart, Harts, ScheduleError, loaded_harts_are_ready, read_schedule};
use std::alloc::Global;

impl From<ScheduleError> for Status {
    ghost use Rattle.std.specs.Prelude.{◌≡◌};
    ghost use Rattle.eh_commands.specs.Harts.{status_of_schedule};

    ghost from_gives = { λ error status. status ≡ status_of_schedule error };

    fn from(error: ScheduleError) -> Status {
        match error {
            ScheduleError::Refused(number, place) => Status::ScheduleRefused(number, place),
            ScheduleError::NoMemory => Status::NoMemory,
        }
    }
}

// A hart of an image, with its input.
fn hart_of(alloc: Global, image: &[u8], input: Vec<u8>) -> Result<Hart, ImageError>
    ensures { Readies image.now input.items result }
{
    loaded_harts_are_ready();
    match load(alloc, image) {
        Err(error) => Err(error),
        Ok(loaded) => Ok(Hart {
            runtime: loaded.into_runtime(),
            input,
        }),
    }
}

// The harts of an image, one for each input.
fn harts_of(alloc: Global, image: &[u8], inputs: Vec<Vec<u8>>) -> Result<Vec<Hart>, ImageError>
    requires { 1 ≤ length inputs.items }
    ensures { ReadiesAll image.now (kept_bytes inputs.items) result }
{
    let mut harts = Vec::new(alloc);
    for input in inputs {
        let hart = hart_of(alloc, image, input)?;
        match harts.push(hart) {
            Ok(()) => {}
            Err(_) => return Err(ImageError::NoMemory),
        }
    }
    Ok(harts)
}

// Runs harts that are ready.
fn run_ready<Out: Sink>(
    alloc: Global,
    harts: Vec<Hart>,
    slices: &Vec<(u32, u32)>,
    trace: bool,
    out: &mut Out,
) -> Status
    requires few { length harts.items ≤ 8 }
    requires fits { IsSchedule (length harts.items) slices.now.items }
    requires fresh { AreFresh (map seat_of harts.items) }
    ensures { SeatsRun trace slices.now.items (map seat_of harts.items) (Out.view out.old) (Out.view out.new) result }
{
    let Ok(mut harts) = Harts::new(alloc, harts) else {
        return Status::NoMemory;
    };
    match harts.run(slices, trace, out) {
        Ok(()) => Status::Done,
        Err(SinkError::Failed) => Status::WriteFault,
    }
}

// Runs an image by a hart for each input, under the schedule of a text.
fn run_scheduled<Out: Sink>(
    alloc: Global,
    image: &[u8],
    schedule: &[u8],
    inputs: Vec<Vec<u8>>,
    trace: bool,
    out: &mut Out,
) -> Status
    requires some { 1 ≤ length inputs.items }
    requires few { length inputs.items ≤ 8 }
    requires short { length schedule.now ≤ 2 ^ 20 }
    ensures { HartsRun trace image.now schedule.now (kept_bytes inputs.items) (Out.view out.old) (Out.view out.new) result }
{
    loaded_harts_are_ready();
    let count = inputs.len() as u32;
    match harts_of(alloc, image, inputs) {
        Err(error) => error.into(),
        Ok(harts) => match read_schedule(alloc, schedule, count) {
            Err(error) => error.into(),
            Ok(slices) => run_ready(alloc, harts, &slices, trace, out),
        },
    }
}

/// Reads an image, a schedule and an input for each of one to eight harts, and runs the harts under the schedule: each line that one
/// writes, under `trace` each event, and its end, behind its number, and last the lines of the harts that go on.
pub fn harts_file<'a, St: Store, Out: Sink>(
    alloc: Global,
    question: Question<'a>,
    store: &mut St,
    out: &mut Out,
) -> Ended<'a>
    requires some { 1 ≤ length question.inputs.now }
    requires few { length question.inputs.now ≤ 8 }
    ensures cause { HartsCause (harts_asked (asked_by question.entry [])) (St.view store.old) (St.view store.new) (Out.view out.old) (Out.view out.new) result.status }
    ensures files { (St.view store.new).files ≡ (St.view store.old).files }
    ensures name { NamesRefusal result.status result.file.now (St.view store.new) }
{
    match read_harts(alloc, question, store) {
        Err(ended) => ended,
        Ok(files) => {
            let inputs = files.inputs;
            Ended {
                status: run_scheduled(
                    alloc,
                    files.image.as_slice(),
                    files.schedule.as_slice(),
                    inputs,
                    question.trace,
                    out,
                ),
                file: "",
            }
        }
    }
}
