// All of a reader up to a limit, and all of a piece to a writer.
ghost use Rattle.eh_host.specs.Got.{IsGot, IsWritten};

use std::alloc::Global;
use std::io::{ErrorKind, Read, Write};

/// What came of reading a file.
#[derive(Drop)]
pub enum Got {
    Whole(Vec<u8>),
    /// So many bytes were seen, more than the limit.
    Long(u64),
    Failed,
    NoMemory,
}

/// Reads to the end, or until more than `limit` bytes were seen.
pub fn read_whole<R: Read + Drop>(alloc: Global, reader: R, limit: u64) -> Got
    ensures { IsGot limit (R.remaining reader) result }
{
    let mut bytes = Vec::new(alloc);
    let read = reader.take(limit.saturating_add(1)).read_to_end(&mut bytes);
    let seen = bytes.len() as u64;
    match read {
        Err(e) if e.kind() == ErrorKind::OutOfMemory => Got::NoMemory,
        Err(_) => Got::Failed,
        Ok(_) if seen > limit => Got::Long(seen),
        Ok(_) => Got::Whole(bytes),
    }
}

/// Writes all of the piece; false at an error, and where a write takes no byte: then the writer has a prefix of it.
pub fn write_whole<W: Write>(writer: &mut W, piece: &[u8]) -> bool
    ensures { IsWritten (W.contents writer.old) (W.contents writer.new) piece.now result }
{
    let mut rest = piece;
    'writes: for _ in 0..u64::MAX {
        if rest.is_empty() {
            return true;
        }
        match writer.write(rest) {
            Ok(0) => return false,
            Ok(count) => rest = &rest[count..],
            Err(e) if e.kind() == ErrorKind::Interrupted => {}
            Err(_) => return false,
        }
    }
    false
}
