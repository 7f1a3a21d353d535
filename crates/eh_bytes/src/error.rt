// Why a field of bytes is refused.
use thiserror::Error;

/// Why a field can't be read. Which of the three it is follows from the field alone.
#[derive(Clone, Copy, Debug, PartialEq, Eq, Error)]
pub enum ByteError {
    #[error("the bytes end inside the field")]
    Truncated,
    #[error("the LEB128 number is out of range")]
    LebRange,
    #[error("the encoding is not one of an exception header")]
    Encoding,
}
