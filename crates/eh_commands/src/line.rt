// Lines with a number, each put as one piece, without memory.
ghost use Rattle.std.specs.Prelude.{◌≡◌, ◌<◌, ◌≤◌, ◌+◌, ◌++◌, length};
ghost use Rattle.eh_outer.specs.Sink.{Puts};
ghost use Rattle.eh_commands.specs.Output.{line_of, number_line};

use arrayvec::ArrayString;
use eh_outer::{Sink, SinkError};
use itoa::Buffer;

// Adds a text for which there is room.
pub fn push<const N: usize>(line: &mut ArrayString<N>, text: &str)
    requires { length line.old.bytes + length text.now ≤ N }
    ensures { line.new.bytes ≡ line.old.bytes ++ text.now }
{
    match line.try_push_str(text) {
        Ok(()) => {}
        Err(_) => unreachable!(),
    }
}

/// Puts a front, the int in decimal and a line feed, as one piece.
pub fn put_int<Out: Sink>(out: &mut Out, front: &str, n: i32) -> Result<(), SinkError>
    requires { length front.now < 16 }
    ensures { Puts (front.now ++ line_of n) (Out.view out.old) (Out.view out.new) result }
{
    let mut buffer = Buffer::new();
    let mut line: ArrayString<64> = ArrayString::new();
    push(&mut line, front);
    push(&mut line, buffer.format(n));
    push(&mut line, "\n");
    out.put(line.as_bytes())
}

/// Puts a front, a number in decimal and a line feed, as one piece.
pub fn put_number<Out: Sink>(out: &mut Out, front: &str, n: u64) -> Result<(), SinkError>
    requires { length front.now < 16 }
    ensures { Puts (number_line front.now n) (Out.view out.old) (Out.view out.new) result }
{
    let mut buffer = Buffer::new();
    let mut line: ArrayString<64> = ArrayString::new();
    push(&mut line, front);
    push(&mut line, buffer.format(n));
    push(&mut line, "\n");
    out.put(line.as_bytes())
}
