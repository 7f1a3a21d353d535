// Bytes under a name, in place of those that were there: all of them, or none.

use crate::beside::{Exclusive, new_beside};
use crate::whole::write_whole;
use eh_outer::StoreError;
use std::alloc::Global;
use std::fs::{self, Metadata};
use std::io::{self, ErrorKind};
use std::rt::Files;

// Gives the new file the permissions of the one that was there, and puts it in its place.
fn put_in_place<R: Files>(
    files: &R,
    beside: &str,
    name: &str,
    there: Option<Metadata>,
) -> io::Result<()> {
    if let Some(there) = there {
        fs::set_permissions(files, beside, there.permissions())?;
    }
    fs::rename(files, beside, name)
}

// Writes a new file beside, and puts it in the place of the one of that name. Where one of these
// fails, the new file is removed.
fn replace<R: Files>(
    files: &R,
    alloc: Global,
    name: &str,
    there: Option<Metadata>,
    bytes: &[u8],
) -> Result<(), StoreError>
where
    R::File: Exclusive,
{
    let mut beside = new_beside(files, alloc, name)?;
    let done = write_whole(&mut beside.file, bytes)
        && put_in_place(files, beside.name.as_str(), name, there).is_ok();
    if done {
        return Ok(());
    }
    let _ = fs::remove_file(files, beside.name.as_str());
    Err(StoreError::Failed)
}

// Writes to what is there, which is no file: a device or a pipe, or a link that leads nowhere yet.
fn write_through<R: Files>(files: &R, name: &str, bytes: &[u8]) -> Result<(), StoreError> {
    let Ok(mut file) = fs::create(files, name) else {
        return Err(StoreError::Failed);
    };
    if write_whole(&mut file, bytes) {
        Ok(())
    } else {
        Err(StoreError::Failed)
    }
}

// Replaces the file to which a link leads, and writes through what is no link to a file.
fn write_behind<R: Files>(
    files: &R,
    alloc: Global,
    name: &str,
    bytes: &[u8],
) -> Result<(), StoreError>
where
    R::File: Exclusive,
{
    let there = match files.metadata(name) {
        Ok(there) if there.is_file() => there,
        _ => return write_through(files, name, bytes),
    };
    match files.canonicalize(alloc, name) {
        Err(e) if e.kind() == ErrorKind::OutOfMemory => Err(StoreError::NoMemory),
        Err(_) => write_through(files, name, bytes),
        Ok(behind) => replace(files, alloc, behind.as_os_str(), Some(there), bytes),
    }
}

/// Puts the bytes under the name. A file that stood there, or that a link there leads to, is
/// replaced at once, by a rename over it (POSIX, `rename`), so that a write that fails leaves it as
/// it was. A device or a pipe is written through.
///
/// `Failed` where a file can't be made, written or renamed; `NoMemory` where its name has no room.
pub fn write_file<R: Files>(
    files: &R,
    alloc: Global,
    name: &str,
    bytes: &[u8],
) -> Result<(), StoreError>
where
    R::File: Exclusive,
{
    match files.symlink_metadata(name) {
        Ok(there) if there.is_file() => replace(files, alloc, name, Some(there), bytes),
        Ok(_) => write_behind(files, alloc, name, bytes),
        Err(e) if e.kind() == ErrorKind::NotFound => replace(files, alloc, name, None, bytes),
        Err(_) => Err(StoreError::Failed),
    }
}
