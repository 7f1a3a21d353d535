// A new file in the folder of another, which takes its place when it is whole.
//
// The lock on it says that the call which made it still runs: the system drops the lock when that process ends, however it does. A file that is not
// locked was left behind, and is removed.
use crate::identity::leads_to;
use eh_outer::StoreError;
use std::alloc::Global;
use std::fs::{self, File, TryLockError};
use std::io::ErrorKind;
use std::rt::Files;

// How many names are tried: other calls may be writing into the folder.
const TRIES: u32 = 64;

/// An open file that one holder at a time can have for itself, by the advisory lock of the system (`flock`).
pub trait Exclusive {
    fn try_lock(&self) -> Result<(), TryLockError>;
}

impl Exclusive for File {
    fn try_lock(&self) -> Result<(), TryLockError> {
        File::try_lock(self)
    }
}

/// The new file and its name.
#[derive(Drop)]
pub struct Beside<F: Drop> {
    pub file: F,
    pub name: String,
}

// The folder of a name, with the stroke behind it.
fn folder_of(name: &str) -> &str {
    match name.rsplit_once('/') {
        Some((folder, _)) => name.get(..folder.len().saturating_add(1)).unwrap_or(""),
        None => "",
    }
}

// Removes the file of that name if nobody holds it. Whether the name still leads to it is asked under its lock, since its holder may have renamed it just now.
fn remove_left_over<R: Files>(files: &R, name: &str)
where
    R::File: Exclusive,
{
    if !files
        .symlink_metadata(name)
        .is_ok_and(|there| there.is_file())
    {
        return;
    }
    if let Ok(file) = fs::open(files, name) {
        if file.try_lock().is_ok() && leads_to(files, name, &file) {
            let _ = fs::remove_file(files, name);
        }
    }
}

// Whether a file that was made just now is this call's. Another call may have locked it first, as one that was left behind. Where the system has no locks, nothing is removed.
fn is_held<R: Files>(files: &R, name: &str, file: &R::File) -> bool
where
    R::File: Exclusive,
{
    !matches!(file.try_lock(), Err(TryLockError::WouldBlock)) && leads_to(files, name, file)
}

/// A new file in the folder of the one of that name, locked. Its own name is short, so that each name has room for one beside it.
pub fn new_beside<R: Files>(
    files: &R,
    alloc: Global,
    name: &str,
) -> Result<Beside<R::File>, StoreError>
where
    R::File: Exclusive,
{
    let folder = folder_of(name);
    for number in 0..TRIES {
        let beside = format!(in alloc; "{folder}.ehc-{number}")?;
        remove_left_over(files, beside.as_str());
        match File::create_new(files, beside.as_str()) {
            Ok(file) if is_held(files, beside.as_str(), &file) => {
                return Ok(Beside { file, name: beside });
            }
            Ok(_) => {}
            Err(e) if e.kind() == ErrorKind::AlreadyExists => {}
            Err(_) => return Err(StoreError::Failed),
        }
    }
    Err(StoreError::Failed)
}
