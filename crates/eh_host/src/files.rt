// A store over the files of the system, of which nothing is told. A file that was read through it is never written.
ghost use Rattle.std.specs.Prelude.{◌≡◌, None};

use crate::beside::Exclusive;
use crate::identity::Identity;
use crate::replace::write_file;
use crate::whole::{Got, read_whole};
use eh_outer::{RefusalKind, Refusals, Store, StoreError};
use std::alloc::{AllocError, Global};
use std::fs::{self, OpenFile};
use std::rt::Files;

/// The files of the system. What was read is known, so that no image takes the place of its own source.
#[derive(Drop)]
pub struct FileStore<R: Files + Drop> {
    rt: R,
    refusals: Refusals,
    read: Vec<Identity>,
}

impl<R: Files + Drop> FileStore<R> {
    /// A store that has read nothing. It takes no memory.
    pub fn new(alloc: Global, rt: R) -> Self {
        FileStore {
            rt,
            refusals: Refusals::new(),
            read: Vec::new(alloc),
        }
    }

    // Whether the file of a name is one that was read.
    fn was_read(&self, name: &str) -> bool {
        match self.rt.metadata(name) {
            Ok(there) if there.is_file() => {
                let identity = Identity::of(&there);
                self.read.iter().any(|it| it.is(&identity))
            }
            _ => false,
        }
    }

    // From now on a file is one that was read.
    fn note(&mut self, file: &R::File) -> Result<(), AllocError>
        ensures { self.new.refusals ≡ self.old.refusals }
    {
        if let Ok(there) = file.metadata() {
            self.read.push(Identity::of(&there))?;
        }
        Ok(())
    }
}

impl<R: Files + Drop> Store for FileStore<R>
where
    R::File: Exclusive,
{
    ghost view = { λ s. record { files = None; faults = s.refusals.count; last = s.refusals.last } };

    // The name is copied first, so that a refusal can always be kept.
    fn read_all(&mut self, alloc: Global, name: &str, limit: u64) -> Result<Vec<u8>, StoreError> {
        let asked = String::from_str(alloc, name)?;
        let got = match fs::open(&self.rt, name) {
            Err(_) => Got::Failed,
            Ok(file) => match self.note(&file) {
                Err(_) => Got::NoMemory,
                Ok(()) => read_whole(alloc, file, limit),
            },
        };
        match got {
            Got::Whole(bytes) => Ok(bytes),
            Got::Long(seen) => {
                self.refusals.add(RefusalKind::LongRead(seen), asked);
                Err(StoreError::TooLong(seen))
            }
            Got::Failed => {
                self.refusals.add(RefusalKind::FailedRead, asked);
                Err(StoreError::Failed)
            }
            Got::NoMemory => Err(StoreError::NoMemory),
        }
    }

    fn write_all(&mut self, alloc: Global, name: &str, bytes: &[u8]) -> Result<(), StoreError> {
        let asked = String::from_str(alloc, name)?;
        let done = if self.was_read(name) {
            Err(StoreError::Failed)
        } else {
            write_file(&self.rt, alloc, name, bytes)
        };
        match done {
            Ok(()) => Ok(()),
            Err(StoreError::NoMemory) => Err(StoreError::NoMemory),
            Err(_) => {
                self.refusals.add(RefusalKind::FailedWrite, asked);
                Err(StoreError::Failed)
            }
        }
    }
}
