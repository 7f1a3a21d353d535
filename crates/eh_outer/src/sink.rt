// A sink of bytes, which may fail at any put.
ghost use Rattle.eh_outer.specs.Sink.{SinkView, Puts};

use thiserror::Error;

/// Why a sink did not take a piece.
#[derive(Clone, Copy, Debug, PartialEq, Eq, Error)]
pub enum SinkError {
    #[error("the sink failed")]
    Failed,
}

/// Takes bytes, piece by piece. A put takes no memory.
pub trait Sink {
    /// The bytes that it took, where it tells them, how often it has failed, and the length of the last piece that failed.
    ghost view: { Self → SinkView };

    /// Takes the piece; where it fails, at most a front of it.
    fn put(&mut self, piece: &[u8]) -> Result<(), SinkError>
        ensures { Puts piece.now (view self.old) (view self.new) result };
}
