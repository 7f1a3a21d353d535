// Texts of several lines, and the line of a summary.
ghost use Rattle.eh_outer.specs.Sink.{Puts};
ghost use Rattle.eh_commands.specs.Image.{summary_line};
ghost use Rattle.plain_text.specs.Lines.{lines_of};
ghost use Rattle.run_items.specs.Output.{PutsAll};
ghost use Rattle.std.specs.Prelude.{map};

use crate::line::push;
use arrayvec::ArrayString;
use eh_outer::{Sink, SinkError};
use itoa::Buffer;
use plain_text::line_length;
use table_check::Summary;

/// Puts how much a clean image has, in one line.
pub fn put_summary<Out: Sink>(out: &mut Out, summary: &Summary) -> Result<(), SinkError>
    ensures { Puts (summary_line summary.now) (Out.view out.old) (Out.view out.new) result }
{
    let mut buffer = Buffer::new();
    let mut line: ArrayString<256> = ArrayString::new();
    push(&mut line, "clean: ");
    push(&mut line, buffer.format(summary.cies));
    push(&mut line, " cies, ");
    push(&mut line, buffer.format(summary.frames));
    push(&mut line, " frames, ");
    push(&mut line, buffer.format(summary.tables));
    push(&mut line, " tables, ");
    push(&mut line, buffer.format(summary.sites));
    push(&mut line, " sites\n");
    out.put(line.as_bytes())
}

/// Puts each line of a text.
pub fn put_lines<Out: Sink>(out: &mut Out, text: &[u8]) -> Result<(), SinkError>
    ensures { PutsAll (lines_of text.now) (Out.view out.old) (Out.view out.new) result }
{
    let mut rest = text;
    while !rest.is_empty() {
        let (line, others) = rest.split_at(line_length(rest));
        out.put(line)?;
        rest = others;
    }
    Ok(())
}

/// Puts each of some lines.
pub fn put_each<Out: Sink>(out: &mut Out, lines: &[Vec<u8>]) -> Result<(), SinkError>
    ensures { PutsAll (map (λ line. line.items) lines.now) (Out.view out.old) (Out.view out.new) result }
{
    let mut rest = lines;
    while let Some((line, others)) = rest.split_first() {
        out.put(line.as_slice())?;
        rest = others;
    }
    Ok(())
}
