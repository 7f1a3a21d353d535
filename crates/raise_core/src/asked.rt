// What the tables say of a frame, by the FDE that holds its look-up place and its row there.
ghost use Rattle.std.specs.Prelude.{◌≡◌, true, List, IfSome, option_map, option_and_then};
ghost use Rattle.eh_bytes.specs.Memory.{memory_of};
ghost use Rattle.table_forms.specs.Fde as forms;
ghost use Rattle.frame_walk.specs.Located.{located_seen};
ghost use Rattle.frame_walk.specs.Outward.{tables_of, row_for};
ghost use Rattle.personality.specs.Seen.{thrown_of};
ghost use Rattle.raise_core.specs.Asked.{table_named, verdict_of, target_at};
ghost use Rattle.raise_core.specs.Lookups.{table_by};
ghost use Rattle.raise_core.specs.Reads.{is_readable};

use eh_bytes::Segments;
use frame_read::Fde;
use frame_walk::{Frame, Located, cfa_of};
use lsda_read::Lsda;
use personality::{FrameView, Thrown, personality};
use rv64_machine::Machine;
use table_forms::Verdict;

// The verdict is the same for all action bits.
const NO_ACTIONS: u32 = 0;

/// A frame as the target of a raise: its canonical frame address, and the address of its exception
/// table or 0.
#[derive(Clone, Copy)]
pub struct Target {
    pub cfa: u64,
    pub lsda: u64,
}

// The exception table that an FDE names, if any.
fn table_named<'a>(memory: &'a Segments, fde: &Fde) -> Option<Lsda<'a>>
    requires { is_readable (memory_of memory.now) fde.now ≡ true }
    ensures { result ≡ table_named (memory_of memory.now) fde.now.lsda fde.now.region }
{
    if fde.lsda == 0 {
        return None;
    }
    Some(Lsda::known_at(memory, fde.lsda, fde.region))
}

// The exception table of a frame, if its function has one.
fn table_by<'a>(machine: &'a Machine, entry: &Option<Located>) -> Option<Lsda<'a>>
    requires { IfSome entry.now (λ l. is_readable (tables_of machine.now) l.fde ≡ true) }
    ensures { result ≡ option_and_then (table_by (tables_of machine.now)) (option_map located_seen entry.now) }
{
    match entry {
        None => None,
        Some(located) => table_named(machine.tables(), &located.fde),
    }
}

/// What becomes of an exception in a frame.
pub fn verdict_by(
    machine: &Machine,
    thrown: &Thrown,
    frame: &Frame,
    entry: &Option<Located>,
) -> Verdict
    requires { IfSome entry.now (λ l. is_readable (tables_of machine.now) l.fde ≡ true) }
    ensures { (fdes : List forms.Fde) → option_map located_seen entry.now ≡ row_for fdes frame.now → result ≡ verdict_of machine.now fdes (thrown_of thrown.now) frame.now }
{
    let view = FrameView {
        ip: frame.pc,
        signal: frame.signal,
        lsda: table_by(machine, entry),
    };
    personality(NO_ACTIONS, thrown, &view)
}

/// A frame as a target; none where no FDE holds its look-up place.
pub fn target_by(frame: &Frame, entry: &Option<Located>) -> Option<Target>
    ensures { (fdes : List forms.Fde) → option_map located_seen entry.now ≡ row_for fdes frame.now → result ≡ target_at fdes frame.now }
{
    match entry {
        None => None,
        Some(located) => Some(Target {
            cfa: cfa_of(&located.row, frame),
            lsda: located.fde.lsda,
        }),
    }
}
