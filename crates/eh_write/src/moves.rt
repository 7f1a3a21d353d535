// The changes of a frame as call frame instructions.
ghost use Rattle.std.specs.Prelude.{◌≡◌, ◌++◌, ◌-◌, ◌/◌, ◌%◌, ◌^◌, OnOk, true};
ghost use Rattle.std.specs.List.{AllByRecursion};
ghost use Rattle.eh_write.specs.WrittenFrames.{advance_bytes, change_bytes, move_bytes, moves_bytes};
ghost use Rattle.eh_write.specs.Fits.{HasOffset};

use crate::NoMemory;
use eh_bytes::{FrameChange, FrameMove, put_uleb, u32_bytes};

const ADVANCE: u8 = 0x40;

const ADVANCE_FOUR_BYTES: u8 = 0x04;

const UNDEFINED: u8 = 0x07;

const CFA_OFFSET: u8 = 0x0e;

const OFFSET: u8 = 0x80;

const CODE_FACTOR: u64 = 4;

const DATA_FACTOR: u64 = 8;

// Moves the location over so many instructions of four bytes.
fn put_advance(out: &mut Vec<u8>, steps: u32) -> Result<(), NoMemory>
    ensures { OnOk result (out.new.items ≡ out.old.items ++ advance_bytes steps) }
{
    if steps == 0 {
        return Ok(());
    }
    if steps < 64 {
        out.push(ADVANCE + steps as u8)?;
        return Ok(());
    }
    out.push(ADVANCE_FOUR_BYTES)?;
    out.extend_from_slice(u32_bytes(steps).as_slice())
}

fn put_change(out: &mut Vec<u8>, change: FrameChange) -> Result<(), NoMemory>
    ensures bytes { OnOk result (out.new.items ≡ out.old.items ++ change_bytes change) }
    ensures words { HasOffset change }
{
    match change {
        FrameChange::Cfa(offset) => {
            out.push(CFA_OFFSET)?;
            put_uleb(out, offset.unsigned_abs())
        }
        FrameChange::Saved(register, offset) => {
            out.push(OFFSET + register % 64)?;
            put_uleb(out, offset.unsigned_abs() / DATA_FACTOR)
        }
        FrameChange::Undefined(register) => {
            out.push(UNDEFINED)?;
            put_uleb(out, register as u64)
        }
    }
}

fn put_move(out: &mut Vec<u8>, location: u64, next: &FrameMove) -> Result<(), NoMemory>
    ensures bytes { OnOk result (out.new.items ≡ out.old.items ++ move_bytes location next.now) }
    ensures words { OnOk result (HasOffset next.now.change) }
{
    let steps = next.location.saturating_sub(location) / CODE_FACTOR % 0x1_0000_0000;
    put_advance(out, steps as u32)?;
    put_change(out, next.change)
}

/// Appends the instructions of the changes, from a location on.
pub fn put_moves(out: &mut Vec<u8>, location: u64, moves: &[FrameMove]) -> Result<(), NoMemory>
    ensures bytes { OnOk result (out.new.items ≡ out.old.items ++ moves_bytes location moves.now) }
    ensures words { OnOk result (AllByRecursion (λ m. HasOffset m.change) moves.now) }
{
    let mut place = location;
    let mut rest = moves;
    'moves: while let Some((next, others)) = rest.split_first() {
        put_move(out, place, next)?;
        place = next.location;
        rest = others;
    }
    Ok(())
}
