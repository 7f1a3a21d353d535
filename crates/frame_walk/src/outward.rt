// The frame outward of a frame.
ghost use Rattle.std.specs.Prelude.{◌≡◌, ℕ, Ok};
ghost use Rattle.table_forms.specs.Frames as forms;
ghost use Rattle.frame_read.specs.ReadsFrames.{ReadsFrames, listing};
ghost use Rattle.frame_walk.specs.Outward.{cfa_of, is_outward, out_by, tables_of, row_for, next_frame};

use crate::frame::{Frame, Walk};
use crate::located::Located;
use crate::placing::locate;
use crate::registers::{offset_by, register_at, registers_of};
use frame_read::{Fde, Frames};
use rv64_machine::{FaultKind, Machine};
use table_forms::{Row, Rule};

/// The canonical frame address that a row gives a frame, modulo 2^64. It may lie outside the stack.
pub fn cfa_of(row: &Row, frame: &Frame) -> u64
    ensures { result ≡ cfa_of row.now frame.now }
{
    offset_by(
        register_at(&frame.regs, row.cfa_register as usize),
        row.cfa_offset,
    )
}

// Whether it lies in the stack, farther out than that of the frame before.
fn is_outward(frame: &Frame, cfa: u64) -> bool
    ensures { result ≡ is_outward frame.now cfa }
{
    cfa >= 0x7000_0000 && cfa <= 0x7100_0000 && (frame.top || frame.cfa < cfa)
}

/// The frame outward of a frame, by what the tables say of its look-up place: what `step_out` gives
/// it, without asking them.
pub fn step_by(machine: &Machine, frame: &Frame, located: &Located) -> Walk
    ensures { result ≡ out_by machine.now frame.now located.now.fde.return_register located.now.fde.signal located.now.row }
{
    let return_register = located.fde.return_register as usize;
    if let Some(Rule::Undefined) = located.row.rules.get(return_register) {
        return Walk::EndOfStack;
    }
    let cfa = cfa_of(&located.row, frame);
    if !is_outward(frame, cfa) {
        return Walk::Fault(FaultKind::Walk);
    }
    let changed = located.changed.as_slice();
    match registers_of(machine, cfa, &frame.regs, &located.row.rules, changed) {
        None => Walk::Fault(FaultKind::Walk),
        Some(regs) => Walk::Next(Frame {
            pc: register_at(&regs, return_register),
            cfa,
            regs,
            top: false,
            signal: located.fde.signal,
        }),
    }
}

/// The FDE whose region holds a frame's look-up place, with its row there, by the frames that
/// `read_frames` gives of the machine's tables; none exactly where no region holds the place.
pub fn row_for(machine: &Machine, frames: &Frames, frame: &Frame) -> Option<(Fde, Row)>
    requires { (header : ℕ) × ReadsFrames (Ok frames.now) (forms.frames (tables_of machine.now) header) }
    ensures { (header : ℕ) (read : forms.Frames) → forms.frames (tables_of machine.now) header ≡ Ok read → frames.now ≡ listing read → result ≡ row_for read.fdes frame.now }
{
    let place = frame.place();
    match frames.fde_for(place) {
        None => None,
        Some(fde) => Some((fde, frames.row_at(machine.tables(), &fde, place))),
    }
}

/// The frame outward of a frame, by the frames that `read_frames` gives of the machine's tables.
///
/// `EndOfStack` exactly where no FDE holds the frame's look-up place, or its row marks the return
/// register undefined; else `Fault(Walk)` exactly where the row needs a word that `load_u64`
/// refuses, or the canonical frame address is below 0x70000000 or above 0x71000000, or that of a
/// frame other than the top one is not greater than that of the frame before. Takes no memory.
pub fn step_out(machine: &Machine, frames: &Frames, frame: &Frame) -> Walk
    requires { (header : ℕ) × ReadsFrames (Ok frames.now) (forms.frames (tables_of machine.now) header) }
    ensures { (header : ℕ) (read : forms.Frames) → forms.frames (tables_of machine.now) header ≡ Ok read → frames.now ≡ listing read → result ≡ next_frame machine.now read.fdes frame.now }
{
    match locate(machine, frames, frame) {
        None => Walk::EndOfStack,
        Some(located) => step_by(machine, frame, &located),
    }
}
