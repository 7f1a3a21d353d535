// The adapters over real files and writers, of which no clause tells the contents.
use crate::given::{FullDisk, Words};
use eh_host::{FileStore, StreamSink, words_of};
use eh_outer::{Sink, SinkError, Store, StoreError};
use std::fs::File;
use std::io::{self, BufWriter, Write};
use std::rt::Files;
use std::test::Fail;
use std::{env, fs};

/// A writer that takes two bytes at a time, as long as it has room.
#[derive(Drop)]
struct Narrow {
    room: usize,
}

impl Write for Narrow {
    fn write(&mut self, bytes: &[u8]) -> io::Result<usize> {
        let count = bytes.len().min(2).min(self.room);
        self.room -= count;
        Ok(count)
    }

    fn flush(&mut self) -> io::Result<()> {
        Ok(())
    }
}

#[test]
fn adapters(rt: HostRuntime) -> Result<(), Fail> {
    let alloc = rt.alloc();
    let folder = env::temp_dir(&rt)?;
    let folder = folder.to_str().ok_or("the folder's name is no text")?;
    let here = format!(in alloc; "{folder}/ehc-adapters")?;
    let nowhere = format!(in alloc; "{folder}/ehc-no-folder/file")?;
    let mut store = FileStore::new(alloc, &rt);
    store.write_all(alloc, here.as_str(), b"old and long")?;
    store.write_all(alloc, here.as_str(), b"seven b")?;
    let read = store.read_all(alloc, here.as_str(), 7)?;
    assert_eq!(rt; read.as_slice(), b"seven b".as_slice());
    let long = store.read_all(alloc, here.as_str(), 6);
    assert_eq!(rt; long.err(), Some(StoreError::TooLong(7)));
    let missing = store.read_all(alloc, nowhere.as_str(), 7);
    assert_eq!(rt; missing.err(), Some(StoreError::Failed));
    let no_file = store.read_all(alloc, folder, 7);
    assert_eq!(rt; no_file.err(), Some(StoreError::Failed));
    let refused = store.write_all(alloc, nowhere.as_str(), b"x");
    assert_eq!(rt; refused, Err(StoreError::Failed));
    let full = store.write_all(alloc, "/dev/full", b"x");
    assert_eq!(rt; full, Err(StoreError::Failed));
    fs::remove_file(&rt, here.as_str())?;

    let mut sink = StreamSink::new(Narrow { room: 5 });
    assert_eq!(rt; sink.put(b"abc"), Ok(()));
    assert_eq!(rt; sink.put(b"abc"), Err(SinkError::Failed));
    assert_eq!(rt; sink.put(b""), Ok(()));
    Ok(())
}

// A write for which there is no file beside leaves what was there, and one that is done leaves no file beside. A file beside that its maker still holds is never taken.
#[test]
fn replaced_at_once(rt: HostRuntime) -> Result<(), Fail> {
    let alloc = rt.alloc();
    let folder = env::temp_dir(&rt)?;
    let folder = folder.to_str().ok_or("the folder's name is no text")?;
    let folder = format!(in alloc; "{folder}/ehc-replaced")?;
    let here = format!(in alloc; "{folder}/here")?;
    fs::create_dir(&rt, folder.as_str())?;
    let mut written = FileStore::new(alloc, &rt);
    written.write_all(alloc, here.as_str(), b"old")?;
    let mut held = Vec::new(alloc);
    for number in 0..64 {
        let beside = format!(in alloc; "{folder}/.ehc-{number}")?;
        let file = File::create_new(&rt, beside.as_str())?;
        assert!(rt; file.try_lock().is_ok());
        held.push(file)?;
    }
    let refused = written.write_all(alloc, here.as_str(), b"new");
    assert_eq!(rt; refused, Err(StoreError::Failed));
    let kept = FileStore::new(alloc, &rt).read_all(alloc, here.as_str(), 9)?;
    assert_eq!(rt; kept.as_slice(), b"old".as_slice());
    for number in 0..64 {
        let beside = format!(in alloc; "{folder}/.ehc-{number}")?;
        fs::remove_file(&rt, beside.as_str())?;
    }
    written.write_all(alloc, here.as_str(), b"new")?;
    let beside = format!(in alloc; "{folder}/.ehc-0")?;
    let none = FileStore::new(alloc, &rt).read_all(alloc, beside.as_str(), 9);
    assert_eq!(rt; none.err(), Some(StoreError::Failed));
    rt.remove_dir_all(alloc, folder.as_str())?;
    Ok(())
}

// What a call that was killed left beside is removed, however much there is; a link of that name stays, and so does what it leads to.
#[test]
fn left_behind(rt: HostRuntime) -> Result<(), Fail> {
    let alloc = rt.alloc();
    let folder = env::temp_dir(&rt)?;
    let folder = folder.to_str().ok_or("the folder's name is no text")?;
    let folder = format!(in alloc; "{folder}/ehc-left")?;
    let here = format!(in alloc; "{folder}/here")?;
    let other = format!(in alloc; "{folder}/other")?;
    let link = format!(in alloc; "{folder}/.ehc-0")?;
    let beside = format!(in alloc; "{folder}/.ehc-1")?;
    fs::create_dir(&rt, folder.as_str())?;
    for number in 1..64 {
        let left = format!(in alloc; "{folder}/.ehc-{number}")?;
        fs::write(&rt, left.as_str(), b"half of an im".as_slice())?;
    }
    fs::write(&rt, other.as_str(), b"other".as_slice())?;
    rt.symlink(other.as_str(), link.as_str())?;
    let mut store = FileStore::new(alloc, &rt);
    store.write_all(alloc, here.as_str(), b"image")?;
    let stored = fs::read(&rt, here.as_str())?;
    assert_eq!(rt; stored.as_slice(), b"image".as_slice());
    assert!(rt; rt.symlink_metadata(link.as_str())?.is_symlink());
    let kept = fs::read(&rt, other.as_str())?;
    assert_eq!(rt; kept.as_slice(), b"other".as_slice());
    let none = store.read_all(alloc, beside.as_str(), 99);
    assert_eq!(rt; none.err(), Some(StoreError::Failed));
    rt.remove_dir_all(alloc, folder.as_str())?;
    Ok(())
}

// A file that was read is never written, under whatever name: through a link, by another path, or by another name of it.
#[test]
fn what_was_read_stays(rt: HostRuntime) -> Result<(), Fail> {
    let alloc = rt.alloc();
    let folder = env::temp_dir(&rt)?;
    let folder = folder.to_str().ok_or("the folder's name is no text")?;
    let here = format!(in alloc; "{folder}/ehc-source")?;
    let link = format!(in alloc; "{folder}/ehc-source-link")?;
    let other = format!(in alloc; "{folder}/ehc-source-other")?;
    let apart = format!(in alloc; "{folder}/./ehc-source")?;
    fs::write(&rt, here.as_str(), b"source".as_slice())?;
    rt.symlink(here.as_str(), link.as_str())?;
    fs::write(&rt, other.as_str(), b"other".as_slice())?;
    let mut store = FileStore::new(alloc, &rt);
    store.read_all(alloc, here.as_str(), 9)?;
    for name in [here.as_str(), link.as_str(), apart.as_str()] {
        let refused = store.write_all(alloc, name, b"image");
        assert_eq!(rt; refused, Err(StoreError::Failed), "{name}");
        let kept = fs::read(&rt, here.as_str())?;
        assert_eq!(rt; kept.as_slice(), b"source".as_slice(), "{name}");
    }
    store.write_all(alloc, other.as_str(), b"image")?;
    let stored = fs::read(&rt, other.as_str())?;
    assert_eq!(rt; stored.as_slice(), b"image".as_slice());
    for name in [here.as_str(), link.as_str(), other.as_str()] {
        fs::remove_file(&rt, name)?;
    }
    Ok(())
}

// Where the disk is full in the middle of a write, what was there stays, also behind a link, and nothing is left beside it.
#[test]
fn a_full_disk(rt: HostRuntime) -> Result<(), Fail> {
    let alloc = rt.alloc();
    let folder = env::temp_dir(&rt)?;
    let folder = folder.to_str().ok_or("the folder's name is no text")?;
    let here = format!(in alloc; "{folder}/ehc-full")?;
    let link = format!(in alloc; "{folder}/ehc-full-link")?;
    let beside = format!(in alloc; "{folder}/.ehc-0")?;
    let mut files = FileStore::new(alloc, &rt);
    fs::write(&rt, here.as_str(), b"old".as_slice())?;
    rt.symlink(here.as_str(), link.as_str())?;
    for name in [here.as_str(), link.as_str()] {
        for room in 0..7 {
            let mut full = FileStore::new(alloc, FullDisk { rt: &rt, room });
            let refused = full.write_all(alloc, name, b"new one");
            assert_eq!(rt; refused, Err(StoreError::Failed), "{name} {room}");
            let kept = files.read_all(alloc, here.as_str(), 9)?;
            assert_eq!(rt; kept.as_slice(), b"old".as_slice(), "{name} {room}");
            let none = files.read_all(alloc, beside.as_str(), 9);
            assert_eq!(rt; none.err(), Some(StoreError::Failed), "{name} {room}");
        }
    }
    let mut full = FileStore::new(alloc, FullDisk { rt: &rt, room: 7 });
    full.write_all(alloc, link.as_str(), b"new one")?;
    let kept = files.read_all(alloc, here.as_str(), 9)?;
    assert_eq!(rt; kept.as_slice(), b"new one".as_slice());
    assert!(rt; rt.symlink_metadata(link.as_str())?.is_symlink());
    fs::remove_file(&rt, link.as_str())?;
    fs::remove_file(&rt, here.as_str())?;
    Ok(())
}

// A word that is no UTF-8 is no command's word: then there are none.
#[test]
fn words(rt: HostRuntime) -> Result<(), Fail> {
    let alloc = rt.alloc();
    let rows: [(&'static [&'static [u8]], &[&str]); 4] = [
        (&[b"ehc", b"run", b"\xc3\xa4.cc"], &["run", "\u{e4}.cc"]),
        (&[b"ehc", b"run", b"\xe4.cc"], &[]),
        (&[b"ehc"], &[]),
        (&[], &[]),
    ];
    for (given, wanted) in rows {
        let found = words_of(&(Words { given }, alloc)).ok_or("no memory")?;
        assert_eq!(rt; found.len(), wanted.len(), "{given:?}");
        for (word, wanted) in found.iter().zip(wanted.iter()) {
            assert_eq!(rt; word.as_str(), *wanted);
        }
    }
    Ok(())
}

// What is held back fails only at the end.
#[test]
fn held_back(rt: HostRuntime) -> Result<(), Fail> {
    for (room, whole) in [(5, false), (6, true)] {
        let writer = BufWriter::with_capacity(rt.alloc(), 8, Narrow { room })?;
        let mut sink = StreamSink::new(writer);
        assert_eq!(rt; sink.put(b"abc"), Ok(()));
        assert_eq!(rt; sink.put(b"abc"), Ok(()));
        assert_eq!(rt; sink.finish(), whole);
    }
    Ok(())
}
