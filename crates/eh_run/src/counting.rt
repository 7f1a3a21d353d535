// Runs whose lines are counted, and not written.
ghost use Rattle.std.specs.Prelude.{◌≡◌, ◌≤◌, ◌+◌, ◌^◌, count_by, map};
ghost use Rattle.run_items.specs.Line.{is_written};
ghost use Rattle.cxa_runtime.specs.Items.{items_of};
ghost use Rattle.eh_run.specs.Counts.{CountsTo, is_make};

use crate::loaded::Loaded;
use crate::running::{Ran, steps_at};
use cxa_runtime::{End, Turn};
use eh_outer::Module;
use foreign_host::Host;
use run_items::Item;

/// How a run ended, how many ints it wrote, and how many native exception objects it made.
#[derive(Clone, Copy, Debug, PartialEq, Eq)]
pub struct Counted {
    pub ran: Ran,
    pub lines: u64,
    pub makes: u64,
}

fn is_line(item: Item) -> bool
    ensures { result ≡ is_written item }
{
    matches!(item, Item::Line(_))
}

fn is_make(item: Item) -> bool
    ensures { result ≡ is_make item }
{
    matches!(item, Item::Make(_))
}

// How many ints are among up to two items.
fn lines_among(first: Option<Item>, second: Option<Item>) -> u64
    ensures value { result ≡ count_by is_written (items_of first second) }
    ensures few { result ≤ 2 }
{
    match first {
        None => 0,
        Some(first) => match second {
            None => u64::from(is_line(first)),
            Some(second) => u64::from(is_line(first)) + u64::from(is_line(second)),
        },
    }
}

// How many native exception objects up to two items make.
fn makes_among(first: Option<Item>, second: Option<Item>) -> u64
    ensures value { result ≡ count_by is_make (items_of first second) }
    ensures few { result ≤ 2 }
{
    match first {
        None => 0,
        Some(first) => match second {
            None => u64::from(is_make(first)),
            Some(second) => u64::from(is_make(first)) + u64::from(is_make(second)),
        },
    }
}

/// Runs a program for at most `max` steps, and counts what it shows.
///
/// `max` is at most 2^40. `Budget` exactly where that many steps were counted without an end. Writes
/// nothing; takes no memory.
pub fn run_counted<M: Module>(loaded: Loaded, input: &[u8], host: &mut Host<M>, max: u64) -> Counted
    requires { max ≤ 2 ^ 40 }
    ensures { CountsTo loaded input.now (map M.view host.old.modules.items) max result }
{
    let mut runtime = loaded.runtime;
    let mut lines = 0;
    let mut makes = 0;
    for count in 0..max {
        let turn = runtime.take_step(input, host);
        let (first, second) = runtime.items();
        lines += lines_among(first, second);
        makes += makes_among(first, second);
        match turn {
            Turn::On => {}
            Turn::Ended(end) => {
                let ran = Ran {
                    end,
                    count: steps_at(count, end),
                };
                return Counted { ran, lines, makes };
            }
        }
    }
    let ran = Ran {
        end: End::Budget,
        count: max,
    };
    Counted { ran, lines, makes }
}
