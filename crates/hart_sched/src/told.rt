// What is told of a hart, line by line, each behind the hart's number.
ghost use Rattle.std.specs.Prelude.{◌≡◌, ◌≤◌, ◌+◌, ◌++◌, [], ◌∷◌, None, codes, length};
ghost use Rattle.std.specs.Fmt.{decimal};
ghost use Rattle.arrayvec.specs.ArrayVec.{array_vec_len};
ghost use Rattle.eh_outer.specs.Sink.{Puts};
ghost use Rattle.run_items.specs.Line as plain;
ghost use Rattle.run_items.specs.Output.{PutsAll};
ghost use Rattle.cxa_runtime.specs.Items.{items_of};
ghost use Rattle.run_ends.specs.EndLine.{end_line};
ghost use Rattle.hart_sched.specs.Seats.{pieces_told, told_then};
ghost use Rattle.hart_sched.specs.Text.{piece_of};

use arrayvec::ArrayVec;
use cxa_runtime::End;
use eh_outer::{Sink, SinkError};
use itoa::Buffer;
use run_ends::end_text;
use run_items::{Item, is_printed, text_of};

// Room for a number and the longest line.
type Line = ArrayVec<u8, 256>;

// Adds bytes for which there is room.
fn push(line: &mut Line, bytes: &[u8])
    requires { array_vec_len line.old + length bytes.now ≤ 256 }
    ensures bytes { line.new.items ≡ line.old.items ++ bytes.now }
    ensures len { array_vec_len line.new ≡ array_vec_len line.old + length bytes.now }
{
    match line.try_extend_from_slice(bytes) {
        Ok(()) => {}
        Err(_) => unreachable!(),
    }
}

// The number of a hart, and what stands behind it.
fn begin_line(number: u32) -> Line
    ensures bytes { result.items ≡ decimal number ++ codes ": " }
    ensures len { array_vec_len result ≤ 42 }
{
    let mut buffer = Buffer::new();
    let mut line = Line::new();
    push(&mut line, buffer.format(number).as_bytes());
    push(&mut line, b": ");
    line
}

// Puts the line of an item.
fn put_item_line<S: Sink>(sink: &mut S, number: u32, item: Item) -> Result<(), SinkError>
    ensures { Puts (piece_of (number, plain.line_of item)) (S.view sink.old) (S.view sink.new) result }
{
    let mut line = begin_line(number);
    push(&mut line, text_of(item).as_bytes());
    push(&mut line, b"\n");
    sink.put(line.as_slice())
}

/// Puts the line of an end.
pub fn put_end_line<S: Sink>(sink: &mut S, number: u32, end: End) -> Result<(), SinkError>
    ensures { Puts (piece_of (number, end_line end)) (S.view sink.old) (S.view sink.new) result }
{
    let mut line = begin_line(number);
    push(&mut line, end_text(end).as_slice());
    sink.put(line.as_slice())
}

// Puts the line of an item; that of an event under `trace` alone.
#[tactic(auto, using(crate::proofs::Pieces::printed, crate::proofs::Pieces::passed_over))]
fn put_item<S: Sink>(sink: &mut S, number: u32, trace: bool, item: Item) -> Result<(), SinkError>
    ensures { PutsAll (pieces_told trace (told_then number (item ∷ []) None)) (S.view sink.old) (S.view sink.new) result }
{
    if is_printed(trace, item) {
        put_item_line(sink, number, item)
    } else {
        Ok(())
    }
}

// Puts the lines of two items.
fn put_both<S: Sink>(
    sink: &mut S,
    number: u32,
    trace: bool,
    first: Item,
    second: Item,
) -> Result<(), SinkError>
    ensures { PutsAll (pieces_told trace (told_then number (first ∷ second ∷ []) None)) (S.view sink.old) (S.view sink.new) result }
{
    match put_item(sink, number, trace, first) {
        Err(e) => Err(e),
        Ok(()) => put_item(sink, number, trace, second),
    }
}

// Puts the lines of up to two items.
fn put_items<S: Sink>(
    sink: &mut S,
    number: u32,
    trace: bool,
    first: Option<Item>,
    second: Option<Item>,
) -> Result<(), SinkError>
    ensures { PutsAll (pieces_told trace (told_then number (items_of first second) None)) (S.view sink.old) (S.view sink.new) result }
{
    match first {
        None => Ok(()),
        Some(first) => match second {
            None => put_item(sink, number, trace, first),
            Some(second) => put_both(sink, number, trace, first, second),
        },
    }
}

// Puts the line of an end, if there is one.
fn put_end<S: Sink>(
    sink: &mut S,
    number: u32,
    trace: bool,
    end: Option<End>,
) -> Result<(), SinkError>
    ensures { PutsAll (pieces_told trace (told_then number [] end)) (S.view sink.old) (S.view sink.new) result }
{
    match end {
        Some(end) => put_end_line(sink, number, end),
        None => Ok(()),
    }
}

/// Puts the lines of up to two items and of an end.
pub fn put_told<S: Sink>(
    sink: &mut S,
    number: u32,
    trace: bool,
    items: (Option<Item>, Option<Item>),
    end: Option<End>,
) -> Result<(), SinkError>
    ensures { PutsAll (pieces_told trace (told_then number (items_of items.0 items.1) end)) (S.view sink.old) (S.view sink.new) result }
{
    match put_items(sink, number, trace, items.0, items.1) {
        Err(e) => Err(e),
        Ok(()) => put_end(sink, number, trace, end),
    }
}
