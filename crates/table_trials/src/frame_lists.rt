// Frames that are written, read again, and asked for each of their places.
use crate::rows::{row_there, wanted};
use eh_bytes::{FrameChange, FrameList, FrameMove, HdrRow, ListFde, Region64, Segment, Segments};
use eh_write::{write_eh_frame, write_hdr};
use frame_read::{Fde, Frames, read_frames};
use std::alloc::Global;
use std::test::Fail;
use table_forms::{Row, Rule};

const HEADER: u64 = 0x1000;

const FRAMES: u64 = 0x8000;

// Numbers in no order.
fn next_number(state: &mut u64) -> u64 {
    *state = state
        .wrapping_mul(0x5851_f42d_4c95_7f2d)
        .wrapping_add(0x1405_7b7e_f767_814f);
    *state >> 33
}

fn change(state: &mut u64) -> FrameChange {
    let register = next_number(state) % 64;
    match next_number(state) % 3 {
        0 => FrameChange::Cfa((next_number(state) % 5000) as i64),
        1 => {
            let words = (next_number(state) % 300) as i64;
            FrameChange::Saved(register as u8, words.wrapping_mul(-8))
        }
        _ => FrameChange::Undefined(register as u8),
    }
}

// The frame of a function of so many instructions, some of which change it.
fn function(
    alloc: Global,
    start: u64,
    instructions: u64,
    lsda: u64,
    state: &mut u64,
) -> Result<ListFde, Fail> {
    let mut moves = Vec::new(alloc);
    for instruction in 0..instructions {
        let location = start.wrapping_add(instruction.wrapping_mul(4));
        for _ in 0..next_number(state) % 3 {
            moves.push(FrameMove {
                location,
                change: change(state),
            })?;
        }
    }
    let region = Region64 {
        start,
        length: instructions.wrapping_mul(4),
    };
    Ok(ListFde {
        region,
        lsda,
        moves,
    })
}

// Functions in the order of their addresses, with room between some of them.
fn functions(alloc: Global, count: u64, lsda: bool) -> Result<FrameList, Fail> {
    let mut state = count;
    let mut start = 0x1_0000u64;
    let mut fdes = Vec::new(alloc);
    for number in 0..count {
        start = start.wrapping_add(next_number(&mut state) % 3 * 4);
        let instructions = next_number(&mut state) % 20 + 1;
        let table = if lsda && next_number(&mut state) % 2 == 1 {
            number.wrapping_mul(16).wrapping_add(0x4_0000)
        } else {
            0
        };
        fdes.push(function(alloc, start, instructions, table, &mut state)?)?;
        start = start.wrapping_add(instructions.wrapping_mul(4));
    }
    Ok(FrameList { lsda, fdes })
}

// Four bytes at a place as a number.
fn word(bytes: &[u8], place: usize) -> usize {
    let mut number = 0usize;
    for byte in bytes.iter().skip(place).take(4).rev() {
        number = number.wrapping_mul(256).wrapping_add(*byte as usize);
    }
    number
}

// The rows of the functions: each part has four bytes of length, and the CIE is the first.
fn rows(alloc: Global, list: &FrameList, bytes: &[u8]) -> Result<Vec<HdrRow>, Fail> {
    let mut rows = Vec::new(alloc);
    let mut place = word(bytes, 0).wrapping_add(4);
    for fde in list.fdes.iter() {
        rows.push(HdrRow {
            location: fde.region.start,
            fde: FRAMES.wrapping_add(place as u64),
        })?;
        place = place.wrapping_add(word(bytes, place).wrapping_add(4));
    }
    Ok(rows)
}

// The header and the frames as two segments of a file.
fn written(alloc: Global, list: &FrameList) -> Result<Segments, Fail> {
    let mut frames = Vec::new(alloc);
    write_eh_frame(alloc, list, FRAMES, &mut frames)?;
    let rows = rows(alloc, list, frames.as_slice())?;
    let mut bytes = Vec::new(alloc);
    write_hdr(alloc, rows.as_slice(), FRAMES, HEADER, &mut bytes)?;
    bytes.resize(0x7000, 0)?;
    bytes.extend_from_slice(frames.as_slice())?;
    let mut parts = Vec::new(alloc);
    if bytes.len() < 0x10_0000 {
        parts.push(Segment {
            address: HEADER,
            bytes,
            file_at: 0,
            write: false,
            exec: false,
        })?;
    }
    Ok(Segments { parts })
}

// The row after all changes at locations up to a place.
fn row_of(fde: &ListFde, pc: u64) -> Row {
    let mut row = wanted(2, 0, &[]);
    for moved in fde.moves.iter() {
        if moved.location > pc {
            break;
        }
        match moved.change {
            FrameChange::Cfa(offset) => row.cfa_offset = offset,
            FrameChange::Saved(register, offset) => {
                if let Some(rule) = row.rules.get_mut(register as usize) {
                    *rule = Rule::Offset(offset);
                }
            }
            FrameChange::Undefined(register) => {
                if let Some(rule) = row.rules.get_mut(register as usize) {
                    *rule = Rule::Undefined;
                }
            }
        }
    }
    row
}

// The location of the first change behind a place.
fn next_of(fde: &ListFde, pc: u64) -> Option<u64> {
    fde.moves
        .iter()
        .find(|moved| moved.location > pc)
        .map(|moved| moved.location)
}

// The FDE of the function that has a place.
fn wanted_at(list: &FrameList, frames: &Frames, pc: u64) -> Option<Fde> {
    let has = |fde: &ListFde| {
        fde.region.start <= pc && pc.wrapping_sub(fde.region.start) < fde.region.length
    };
    let number = list.fdes.iter().position(has)?;
    frames.fdes().get(number).copied()
}

// How many functions, and whether some have exception tables.
static LISTS: &[(u64, bool)] = &[
    (0, false),
    (1, true),
    (2, true),
    (3, false),
    (7, false),
    (50, true),
    (50, false),
];

#[test]
fn what_was_listed_is_read(rt: HostRuntime) -> Result<(), Fail> {
    let alloc = rt.alloc();
    for (count, lsda) in LISTS {
        let list = functions(alloc, *count, *lsda)?;
        let memory = written(alloc, &list)?;
        let frames = read_frames(alloc, &memory, HEADER).expect(&rt, "no refusal");
        assert_eq!(rt; frames.fdes().len(), list.fdes.len());
        for (fde, function) in frames.fdes().iter().zip(list.fdes.iter()) {
            assert_eq!(rt; fde.region, function.region);
            assert_eq!(rt;
                (fde.lsda, fde.signal, fde.return_register),
                (function.lsda, false, 1)
            );
            for step in 0..function.region.length {
                let pc = function.region.start.wrapping_add(step);
                assert_eq!(rt; frames.fde_for(pc), Some(*fde));
                assert_eq!(rt;
                    row_there(&frames, &memory, pc),
                    Some((row_of(function, pc), next_of(function, pc))),
                    "at {pc}"
                );
            }
            let end = function.region.start.wrapping_add(function.region.length);
            for pc in [function.region.start.wrapping_sub(1), end] {
                assert_eq!(rt;
                    frames.fde_for(pc),
                    wanted_at(&list, &frames, pc),
                    "at {pc}"
                );
            }
        }
    }
    Ok(())
}
