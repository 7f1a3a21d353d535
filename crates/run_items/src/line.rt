// The line of an item.
ghost use Rattle.std.specs.Prelude.{◌≡◌, ◌≤◌, ◌+◌, ◌++◌, [], ◌∷◌, length};
ghost use Rattle.eh_outer.specs.Sink.{Puts};
ghost use Rattle.run_items.specs.declared.item.Item.TheVariants as items;
ghost use Rattle.run_items.specs.Line.{and, is_printed, line_of, lines_of, text_of};
ghost use Rattle.run_items.specs.Output.{PutsAll};

use crate::item::Item;
use arrayvec::ArrayString;
use eh_outer::{Sink, SinkError};
use itoa::Buffer;

/// Room for the longest line, which is that of a foreign exception.
pub type Text = ArrayString<160>;

// Adds a text for which there is room.
fn push(line: &mut Text, text: &str)
    requires { length line.old.bytes + length text.now ≤ 160 }
    ensures { line.new.bytes ≡ line.old.bytes ++ text.now }
{
    match line.try_push_str(text) {
        Ok(()) => {}
        Err(_) => unreachable!(),
    }
}

// Adds a blank and a number.
fn push_number(line: &mut Text, n: u64)
    requires { length line.old.bytes + 41 ≤ 160 }
    ensures number { line.new.bytes ≡ line.old.bytes ++ and n }
    ensures short { length line.new.bytes ≤ length line.old.bytes + 41 }
{
    let mut buffer = Buffer::new();
    push(line, " ");
    push(line, buffer.format(n));
}

// An int in decimal.
fn written(n: i32) -> Text
    ensures text { result.bytes ≡ text_of (items.Line n) }
    ensures short { length result.bytes ≤ 40 }
{
    let mut buffer = Buffer::new();
    let mut line = Text::new();
    push(&mut line, buffer.format(n));
    line
}

// The name of an event and the number of its exception.
fn event(name: &str, n: u64) -> Text
    requires { length name.now ≤ 9 }
    ensures text { result.bytes ≡ name.now ++ and n }
    ensures short { length result.bytes ≤ 50 }
{
    let mut line = Text::new();
    push(&mut line, name);
    push_number(&mut line, n);
    line
}

// The number and the token of a foreign exception.
fn raised(n: u64, guest: u32, token: u32) -> Text
    ensures text { result.bytes ≡ text_of (items.Foreign n guest token) }
    ensures short { length result.bytes ≤ 132 }
{
    let mut line = event("! foreign", n);
    push_number(&mut line, u64::from(guest));
    push_number(&mut line, u64::from(token));
    line
}

// A module and the token that it cleans up.
fn cleaned(guest: u32, token: u32) -> Text
    ensures text { result.bytes ≡ text_of (items.Clean guest token) }
    ensures short { length result.bytes ≤ 91 }
{
    let mut line = event("! clean", u64::from(guest));
    push_number(&mut line, u64::from(token));
    line
}

/// The text of an item, without a line feed.
pub fn text_of(item: Item) -> Text
    ensures text { result.bytes ≡ text_of item }
    ensures short { length result.bytes ≤ 132 }
{
    match item {
        Item::Line(n) => written(n),
        Item::Make(n) => event("! make", n),
        Item::Foreign(n, guest, token) => raised(n, guest, token),
        Item::Enter(n) => event("! enter", n),
        Item::Leave(n) => event("! leave", n),
        Item::Destroy(n) => event("! destroy", n),
        Item::Free(n) => event("! free", n),
        Item::Clean(guest, token) => cleaned(guest, token),
    }
}

// Puts the line of an item.
fn put_line<Out: Sink>(out: &mut Out, item: Item) -> Result<(), SinkError>
    ensures { Puts (line_of item) (Out.view out.old) (Out.view out.new) result }
{
    let mut line = text_of(item);
    push(&mut line, "\n");
    out.put(line.as_bytes())
}

/// Whether the line of an item is printed: that of an event under `trace` alone.
pub fn is_printed(trace: bool, item: Item) -> bool
    ensures { result ≡ is_printed trace item }
{
    trace || matches!(item, Item::Line(_))
}

/// Puts the line of an item; that of an event under `trace` alone.
///
/// Fails exactly where the sink fails. Takes no memory.
#[tactic(auto, using(crate::proofs::Printed::printed, crate::proofs::Printed::passed_over))]
pub fn put_item<Out: Sink>(out: &mut Out, trace: bool, item: Item) -> Result<(), SinkError>
    ensures { PutsAll (lines_of trace (item ∷ [])) (Out.view out.old) (Out.view out.new) result }
{
    if is_printed(trace, item) {
        put_line(out, item)
    } else {
        Ok(())
    }
}
