// Which file an open file or a name leads to.
use std::fs::{Metadata, OpenFile};
use std::os::unix::fs::MetadataExt;
use std::rt::Files;

/// What names a file whatever its path is: its device, and its number there (POSIX, `sys/stat.h`).
#[derive(Clone, Copy)]
pub struct Identity {
    device: u64,
    number: u64,
}

impl Identity {
    pub fn of(file: &Metadata) -> Identity {
        Identity {
            device: file.dev(),
            number: file.ino(),
        }
    }

    pub fn is(&self, other: &Identity) -> bool {
        self.device == other.device && self.number == other.number
    }
}

/// Whether the name is that of the open file itself, and not of a link to it.
pub fn leads_to<R: Files>(files: &R, name: &str, file: &R::File) -> bool {
    match (files.symlink_metadata(name), file.metadata()) {
        (Ok(there), Ok(ours)) => {
            there.is_file() && Identity::of(&there).is(&Identity::of(&ours))
        }
        _ => false,
    }
}
