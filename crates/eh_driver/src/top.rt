// The top call.
ghost use Rattle.std.specs.Prelude.{◌≤◌, length, map};
ghost use Rattle.command_line.specs.Command.{command_of};
ghost use Rattle.eh_commands.specs.Answer.{Cause, KeepsFiles, Reports};
ghost use Rattle.eh_commands.specs.File.{refused_name};
ghost use Rattle.eh_commands.specs.Status.{text_of_status};
ghost use Rattle.eh_commands.specs.Words.{texts};
ghost use Rattle.eh_driver.specs.Promise.{Promise};

use cxa_runtime::foreign_exceptions_are_cleaned_once;
use cxx_image::laws::checked_images_are_small;
use eh_commands::{Status, answer};
use eh_outer::{Module, Sink, Store};
use eh_run::a_greater_budget_goes_on;
use gen_source::generated_sources_are_valid;
use hart_sched::harts_run_apart;
use image_link::laws::images_are_small;
use lsda_pack::laws::{packed_images_keep_their_verdicts, packed_images_pack_nothing};
use meaning_events::laws::{allowed_events_are_counted, events_are_right, fronts_are_allowed};
use source_bounds::laws::{
    checked_is_linkable, kept_frames_are_small, kept_registers_are_saved,
    kept_variables_are_unbound,
};
use std::alloc::Global;
use step_law::laws::{checked_images_are_compiled, checked_images_have_enough};

/// Does all that the program does with its words, and answers its status.
///
/// `compile FILE IMAGE` reads a source of at most 1 MiB, refuses it by the number and the place of what it breaks, or stores its
/// image. `exec FILE` reads an image of at most 64 MiB and runs it with its input and the modules: it puts each line that it writes
/// on `out`, under `--trace` each event, its end, and under `--count` how many steps it took. `run FILE` does both with a source.
/// `harts FILE SCHEDULE` runs an image by one to eight harts, each with an input of its own, under a schedule of at most 1 MiB, which is
/// refused by a number and a place: it puts each line of a hart behind the hart's number, and last a line for each hart that goes on.
/// `mean FILE` puts what the source means with the same: lines, events and end. `check FILE` and `dump FILE` read an image of at most 64 MiB, and put
/// how much it has, or its tables, on `out` where it is clean; `frames FILE` puts whether both forms of its frames say the same. `at FILE PC..` puts
/// what becomes of what `--type` says in the frames of a backtrace, innermost first, and `doubts FILE` what of a clean image no compiler meant. `pack
/// FILE OUT` reads such an image, stores it with shorter exception tables, and then puts how many of them are packed and how many bytes that saves.
/// `gen N` generates a source of size N, 1 to 2,000, compiles it and runs it without input and modules, and puts how many tokens it has, how many
/// lines its run wrote, how many exception objects that made, and its end.
/// `compile`, `run` and `mean` take the language of ISO/IEC 14882:2003, or with `--std=11` that with clause 15 of 2011.
/// Whatever else comes is one line on `err`. A program is given at most 64 modules, which are dropped.
pub fn ehc<St: Store, Out: Sink, Er: Sink>(
    alloc: Global,
    words: &Vec<String>,
    store: &mut St,
    out: &mut Out,
    err: &mut Er,
    modules: Vec<Box<dyn Module>>,
) -> Status
    requires few { length modules.items ≤ 64 }

    // What a source, its meaning and an image come to where nothing fails, and what is told of exceptions.
    ensures promise { Promise (map (λ b. (Module-box b).view b.value) modules.items) (command_of (texts words.now.items)) (St.view store.old) (St.view store.new) (Out.view out.old) (Out.view out.new) result }

    // When each status comes, and what it leaves of the store's refusals and of `out`.
    ensures cause { Cause (map (λ b. (Module-box b).view b.value) modules.items) (command_of (texts words.now.items)) (St.view store.old) (St.view store.new) (Out.view out.old) (Out.view out.new) result }
    ensures files { KeepsFiles (command_of (texts words.now.items)) (St.view store.old) (St.view store.new) result }
    ensures report { Reports (text_of_status (refused_name (St.view store.new)) result) (Er.view err.old) (Er.view err.new) }
{
    checked_images_are_compiled();
    checked_images_have_enough();
    checked_is_linkable();
    images_are_small();
    checked_images_are_small();
    kept_variables_are_unbound();
    kept_registers_are_saved();
    kept_frames_are_small();
    events_are_right();
    allowed_events_are_counted();
    fronts_are_allowed();
    generated_sources_are_valid();
    harts_run_apart();
    foreign_exceptions_are_cleaned_once();
    a_greater_budget_goes_on();
    packed_images_keep_their_verdicts();
    packed_images_pack_nothing();
    answer(alloc, words, store, out, err, modules)
}
