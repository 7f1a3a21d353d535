// A store of files, which may refuse any call.
ghost use Rattle.std.specs.Prelude.{◌≡◌};
ghost use Rattle.eh_outer.specs.declared.store.StoreError.TheVariants.{NoMemory};
ghost use Rattle.eh_outer.specs.Store.{StoreView, Reads, Writes};

use std::alloc::{AllocError, AllocFailed, Global};
use thiserror::Error;

/// Why a store refused a call.
#[derive(Clone, Copy, Debug, PartialEq, Eq, Error)]
pub enum StoreError {
    /// The file could not be read or written.
    #[error("the store failed")]
    Failed,
    /// More bytes than the limit were seen: so many.
    #[error("{0} bytes are more than the limit")]
    TooLong(u64),
    #[error("no memory")]
    NoMemory,
}

impl From<AllocError> for StoreError {
    ghost from_gives = { λ _ e. e ≡ NoMemory };

    fn from(_: AllocError) -> Self {
        StoreError::NoMemory
    }
}

impl<T: Drop> From<AllocFailed<T>> for StoreError {
    ghost from_gives = { λ _ e. e ≡ NoMemory };

    fn from(_: AllocFailed<T>) -> Self {
        StoreError::NoMemory
    }
}

/// What kind of call a store refused.
#[derive(Clone, Copy, Debug, PartialEq, Eq)]
pub enum RefusalKind {
    FailedRead,
    FailedWrite,
    /// A read that saw so many bytes, more than its limit.
    LongRead(u64),
}

/// Files by name, which are read and written whole.
pub trait Store {
    /// Its files, where it tells them, how often it has refused, and its last refusal.
    ghost view: { Self → StoreView };

    /// The whole file of that name, which has at most `limit` bytes.
    ///
    /// A missing file is `Failed`; a longer one is `TooLong` with the number of bytes seen.
    fn read_all(&mut self, alloc: Global, name: &str, limit: u64) -> Result<Vec<u8>, StoreError>
        ensures files { (view self.new).files ≡ (view self.old).files }
        ensures answer { Reads name.now limit (view self.old) (view self.new) result };

    /// Puts the bytes under the name, in place of those that were there. Never `TooLong`.
    fn write_all(&mut self, alloc: Global, name: &str, bytes: &[u8]) -> Result<(), StoreError>
        ensures { Writes name.now bytes.now (view self.old) (view self.new) result };
}
