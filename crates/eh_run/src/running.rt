// Runs under a budget.
ghost use Rattle.std.specs.Prelude.{◌≡◌, ◌<◌, ◌≤◌, ◌+◌, ◌^◌, map};
ghost use Rattle.cxa_runtime.specs.declared.effect.End.TheVariants as ends;
ghost use Rattle.eh_run.specs.Steps.{steps_at};
ghost use Rattle.eh_run.specs.Runs.{RunsAs};

use crate::loaded::Loaded;
use cxa_runtime::{End, Turn};
use eh_outer::{Module, Sink};
use foreign_host::Host;

/// How a run ended, and how many steps were counted.
#[derive(Clone, Copy, Debug, PartialEq, Eq)]
pub struct Ran {
    pub end: End,
    pub count: u64,
}

// How many steps are counted where the turn behind so many ended the run: a fault is none, nor is a
// step that could not be written.
pub fn steps_at(turns: u64, end: End) -> u64
    requires { turns < 2 ^ 40 }
    ensures steps { result ≡ steps_at turns end }
    ensures few { result ≤ turns + 1 }
{
    match end {
        End::Fault(_, _) | End::WriteFault => turns,
        _ => turns + 1,
    }
}

/// Runs a program for at most `max` steps, and writes the lines of its ints and under `trace` those
/// of the events of its exceptions.
///
/// `max` is at most 2^40. `Budget` exactly where that many steps were counted without an end;
/// `WriteFault` only where the sink failed, behind a front of the lines. Takes no memory.
pub fn run<S: Sink, M: Module>(
    loaded: Loaded,
    input: &[u8],
    host: &mut Host<M>,
    max: u64,
    trace: bool,
    sink: &mut S,
) -> Ran
    requires { max ≤ 2 ^ 40 }
    ensures runs { RunsAs loaded input.now max trace (map M.view host.old.modules.items) (map M.view host.new.modules.items) (S.view sink.old) (S.view sink.new) result }
    ensures few { result.count ≤ max }
    ensures budget { result.end ≡ ends.Budget → result.count ≡ max }
{
    let mut runtime = loaded.runtime;
    for count in 0..max {
        match runtime.turn(input, host, trace, sink) {
            Turn::On => {}
            Turn::Ended(end) => {
                return Ran {
                    end,
                    count: steps_at(count, end),
                };
            }
        }
    }
    Ran {
        end: End::Budget,
        count: max,
    }
}
