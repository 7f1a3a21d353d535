// A sink over a writer, which tells what the writer holds, where the library knows that.
ghost use Rattle.std.specs.Prelude.{OnOk};
ghost use Rattle.std.specs.Io.KnownBytes.{Appends, Keeps};
ghost use Rattle.eh_outer.specs.Sink.{Puts};
ghost use Rattle.eh_host.specs.Seen.{seen};

use crate::whole::write_whole;
use eh_outer::{Sink, SinkError};
use std::io::Write;

/// Standard output or standard error.
#[derive(Drop)]
pub struct StreamSink<W: Write + Drop> {
    writer: W,
    faults: u64,
    wanted: u64,
}

impl<W: Write + Drop> StreamSink<W> {
    pub fn new(writer: W) -> Self {
        StreamSink {
            writer,
            faults: 0,
            wanted: 0,
        }
    }

    /// Writes out what the writer holds back; false where it can't.
    pub fn finish(&mut self) -> bool
        ensures { Keeps (W.contents self.old.writer) (W.contents self.new.writer) }
    {
        self.writer.flush().is_ok()
    }
}

impl<W: Write + Drop> Sink for StreamSink<W> {
    ghost view = { λ s. seen (W.contents s.writer) s.faults s.wanted };

    fn put(&mut self, piece: &[u8]) -> Result<(), SinkError>
        ensures told { Puts piece.now (seen (W.contents self.old.writer) self.old.faults self.old.wanted) (seen (W.contents self.new.writer) self.new.faults self.new.wanted) result }
        ensures whole { OnOk result (Appends (W.contents self.old.writer) (W.contents self.new.writer) piece.now) }
    {
        if write_whole(&mut self.writer, piece) {
            return Ok(());
        }
        self.faults = self.faults.saturating_add(1);
        self.wanted = piece.len() as u64;
        Err(SinkError::Failed)
    }
}
