// The words of pieces whose places are known.
ghost use Rattle.std.specs.Prelude.{◌≡◌, ◌+◌, ◌++◌, OnOk, map};
ghost use Rattle.linear_forms.specs.Linear.{UnitCode};
ghost use Rattle.machine_forms.specs.Emitted.{main_jump, target_byte};
ghost use Rattle.machine_forms.specs.Piece as rules;
ghost use Rattle.machine_forms.specs.Routine.{Routine, op_word, routine_code, routine_places};
ghost use Rattle.rv64_emit.specs.Body.{StandsFor};
ghost use Rattle.rv64_emit.specs.Places.{HasTargets};
ghost use Rattle.rv64_emit.specs.View.{piece_of, target_of};

use crate::NoMemory;
use crate::body::Body;
use crate::immediate::{immediate, jump_field, upper};
use crate::numbers::behind;
use crate::piece::{Function, Piece, Target};
use crate::places::{STUB_WORDS, Targets};
use crate::register::{t0, zero};
use rv64_isa::{Immediate12, Instr, encode};

// The word of a label, from the function's first word on.
fn label_word(body: &Body, label: u32) -> u32
    ensures { (r : Routine) → StandsFor body.now r → result ≡ op_word r (r.label_at label) }
{
    match body.labels.get(&label) {
        Some(place) => body.starts.word(*place),
        None => body.starts.end,
    }
}

// The lower part of a distance from the word before.
fn rest(targets: &Targets<'_>, here: u32, target: Target) -> Immediate12
    ensures { (u : UnitCode) → HasTargets targets.now u → (places : rules.Places) → places.target ≡ target_byte u → result ≡ rules.rest places here (target_of target) }
{
    immediate(targets.distance(here.saturating_sub(1), target))
}

// The instruction of a piece of a function's code that stands at a word; the function begins at another.
fn placed(targets: &Targets<'_>, body: &Body, first: u32, here: u32, piece: Piece) -> Instr
    ensures { (u : UnitCode) (r : Routine) → HasTargets targets.now u → StandsFor body.now r → result ≡ rules.placed (routine_places (target_byte u) first r) here (piece_of piece) }
{
    match piece {
        Piece::Instruction(instr) => instr,
        Piece::JumpTo(label) => {
            let there = i64::from(first) + i64::from(label_word(body, label));
            Instr::Jal(zero(), jump_field(there - i64::from(here)))
        }
        Piece::UpperPart(rd, target) => Instr::Auipc(rd, upper(targets.distance(here, target))),
        Piece::AddRest(rd, target) => Instr::Addi(rd, rd, rest(targets, here, target)),
        Piece::LoadRest(rd, target) => Instr::Lw(rd, rd, rest(targets, here, target)),
        Piece::StoreRest(value, base, target) => {
            Instr::Sw(base, value, rest(targets, here, target))
        }
        Piece::JumpRest(link, base, target) => {
            Instr::Jalr(link, base, rest(targets, here, target))
        }
    }
}

/// The words of a function that begins at a word, behind others.
pub fn put_body(
    targets: &Targets<'_>,
    body: &Body,
    first: u32,
    words: &mut Vec<u32>,
) -> Result<(), NoMemory>
    ensures { (u : UnitCode) (r : Routine) → HasTargets targets.now u → StandsFor body.now r → OnOk result (words.new.items ≡ words.old.items ++ routine_code (target_byte u) first r) }
{
    let mut here = first;
    for piece in body.code.as_slice() {
        words.push(encode(placed(targets, body, first, here, *piece)))?;
        here = behind(here, 1)?;
    }
    Ok(())
}

/// The words with which a unit begins: a jump to main.
pub fn put_main_jump(targets: &Targets<'_>, main: u32, words: &mut Vec<u32>) -> Result<(), NoMemory>
    ensures { (u : UnitCode) → HasTargets targets.now u → u.main ≡ main → (places : rules.Places) → places.target ≡ target_byte u → OnOk result (words.new.items ≡ words.old.items ++ rules.words_from places STUB_WORDS (main_jump u)) }
{
    let distance = targets.distance(STUB_WORDS, Target::Entry(Function::Compiled(main)));
    words.push(encode(Instr::Auipc(t0(), upper(distance))))?;
    words.push(encode(Instr::Jalr(zero(), t0(), immediate(distance))))?;
    Ok(())
}
