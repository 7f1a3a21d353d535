// How the frame of a function is found from each of its words on.
ghost use Rattle.std.specs.Prelude.{◌≡◌, ◌++◌, ◌*◌, ◌-ℤ◌, ℕ, pos, length, nat_lt, if◌then◌else◌, IfOk, OnOk};
ghost use Rattle.eh_bytes.specs.declared.frames.FrameChange.TheVariants.{Saved};
ghost use Rattle.machine_forms.specs.Emitted as rules;
ghost use Rattle.machine_forms.specs.KeptCode.{one_saved, save_moves};
ghost use Rattle.machine_forms.specs.Registers.{saved_registers};
ghost use Rattle.machine_forms.specs.Shape as shapes;
ghost use Rattle.machine_forms.specs.Shape.{Shape};

use crate::NoMemory;
use crate::numbers::behind;
use crate::register::{ra, saved};
use crate::shape::{Frame, RETURN_OFFSET};
use eh_bytes::{FrameChange, FrameMove};
use rv64_isa::Register;
use std::alloc::Global;

// From behind each of the first two words of a function: its frame is taken, and the return address saved.
fn frame_moves(alloc: Global, size: u32) -> Result<Vec<FrameMove>, NoMemory>
    ensures { (f : Shape) → f.size ≡ size → IfOk result (λ moves. moves.items ≡ shapes.frame_moves f) }
{
    let size = i64::from(size);
    let mut moves = Vec::new(alloc);
    moves.push(FrameMove {
        location: 4,
        change: FrameChange::Cfa(size),
    })?;
    moves.push(FrameMove {
        location: 8,
        change: FrameChange::Saved(ra().get(), i64::from(RETURN_OFFSET) - size),
    })?;
    Ok(moves)
}

// How many words save the register of a slot, up to the one that stores it.
fn words_to_store(slot: u32, parameters: u32) -> usize
    ensures { result ≡ if nat_lt slot parameters then 2 else 1 }
{
    if slot < parameters { 2 } else { 1 }
}

// How many words save it.
fn words_to_save(slot: u32, parameters: u32) -> usize
    ensures { (offset register : ℕ) → result ≡ length (one_saved parameters offset register slot) }
{
    if slot < parameters { 3 } else { 1 }
}

// The change behind a word of the function, which saves a register where a slot is.
fn saved_move(frame: &Frame<'_>, slot: u32, register: Register, stored: u32) -> FrameMove
    ensures { result ≡ shapes.move_at (4 * stored) (Saved register (pos (shapes.slot_offset frame.now slot) -ℤ pos frame.now.size)) }
{
    let offset = i64::from(frame.offset(slot)) - i64::from(frame.size());
    FrameMove {
        location: 4 * u64::from(stored),
        change: FrameChange::Saved(register.get(), offset),
    }
}

// From behind each word that saves a register, the first of which may be the word of this number.
fn put_save_moves(
    frame: &Frame<'_>,
    parameters: u32,
    first: u32,
    moves: &mut Vec<FrameMove>,
) -> Result<(), NoMemory>
    ensures { OnOk result (moves.new.items ≡ moves.old.items ++ save_moves frame.now parameters first saved_registers frame.now.kept) }
{
    let kept = frame.kept();
    let mut next = first;
    for (place, slot) in kept.iter().enumerate() {
        if let Some(register) = saved(place) {
            let stored = behind(next, words_to_store(*slot, parameters))?;
            moves.push(saved_move(frame, *slot, register, stored))?;
            next = behind(next, words_to_save(*slot, parameters))?;
        }
    }
    Ok(())
}

/// The changes of a function's frame, each from behind the word that makes it.
pub fn function_moves(
    alloc: Global,
    frame: &Frame<'_>,
    parameters: u32,
) -> Result<Vec<FrameMove>, NoMemory>
    ensures { IfOk result (λ moves. moves.items ≡ rules.function_moves frame.now parameters) }
{
    let mut moves = frame_moves(alloc, frame.size())?;
    put_save_moves(frame, parameters, frame.prologue_words(), &mut moves)?;
    Ok(moves)
}
