// A store in memory, which fails at the calls that it is told.
ghost use Rattle.std.specs.Prelude.{◌≡◌, None, option_map};
ghost use Rattle.std.specs.FinMap.{get};
ghost use Rattle.eh_outer.specs.Store.{Reads, Writes};
ghost use Rattle.eh_outer.specs.MemStore.{MemReads, MemWrites, entries_of, files_in, files_of, store_of};

use crate::refusals::Refusals;
use crate::schedule::Schedule;
use crate::{RefusalKind, Store, StoreError};
use std::alloc::Global;
use std::marker::Model;

/// Files in memory, of which the first of each name counts.
#[derive(Drop)]
pub struct MemStore {
    files: Vec<(String, Vec<u8>)>,
    schedule: Schedule,
    refusals: Refusals,
}

impl Model for MemStore {
    ghost use Rattle.eh_outer.specs.MemStore.{MemStoreView, entries_of};

    ghost Value = { MemStoreView };

    ghost view = { λ a. record {
      entries = entries_of a.files.items;
      fails = a.schedule.fails.items;
      calls = a.schedule.calls;
      faults = a.refusals.count;
      last = a.refusals.last;
    } };
}

// The bytes of the first file of that name.
#[tactic(auto, using(crate::proofs::Files::found_at_end))]
fn find<'a>(files: &'a [(String, Vec<u8>)], name: &str) -> Option<&'a [u8]>
    ensures { option_map (λ bytes. bytes.now) result ≡ get (files_in (entries_of files.now)) name.now }
{
    for (held, bytes) in files {
        if name == held.as_str() {
            return Some(bytes.as_slice());
        }
    }
    None
}

impl MemStore {
    /// Files in memory. A call fails where its number, counted from 1, stands in `fails`, or it reads a missing file.
    pub fn new(files: Vec<(String, Vec<u8>)>, fails: Vec<u64>) -> MemStore
        ensures { result ≡ record { entries = entries_of files.items; fails = fails.items; calls = 0; faults = 0; last = None } }
    {
        MemStore {
            files,
            schedule: Schedule::new(fails),
            refusals: Refusals::new(),
        }
    }

    /// The bytes of the file of that name; none where no file has it.
    pub fn file(&self, name: &str) -> Option<&[u8]>
        ensures { option_map (λ bytes. bytes.now) result ≡ get (files_of self.now) name.now }
    {
        find(&self.files, name)
    }
}

impl Store for MemStore {
    ghost view = { store_of };

    fn read_all(&mut self, alloc: Global, name: &str, limit: u64) -> Result<Vec<u8>, StoreError>
        ensures files { (store_of self.new).files ≡ (store_of self.old).files }
        ensures answer { Reads name.now limit (store_of self.old) (store_of self.new) result }
        ensures exact { MemReads name.now limit self.old self.new result }
    {
        let fails = self.schedule.next_fails();
        let asked = String::from_str(alloc, name)?;
        if fails {
            self.refusals.add(RefusalKind::FailedRead, asked);
            return Err(StoreError::Failed);
        }
        match find(&self.files, name) {
            None => {
                self.refusals.add(RefusalKind::FailedRead, asked);
                Err(StoreError::Failed)
            }
            Some(bytes) => {
                let seen = bytes.len() as u64;
                if seen > limit {
                    self.refusals.add(RefusalKind::LongRead(seen), asked);
                    Err(StoreError::TooLong(seen))
                } else {
                    Ok(bytes.to_vec(alloc)?)
                }
            }
        }
    }

    fn write_all(&mut self, alloc: Global, name: &str, bytes: &[u8]) -> Result<(), StoreError>
        ensures answer { Writes name.now bytes.now (store_of self.old) (store_of self.new) result }
        ensures exact { MemWrites name.now bytes.now self.old self.new result }
    {
        let fails = self.schedule.next_fails();
        let asked = String::from_str(alloc, name)?;
        if fails {
            self.refusals.add(RefusalKind::FailedWrite, asked);
            return Err(StoreError::Failed);
        }
        self.files.insert(0, (asked, bytes.to_vec(alloc)?))?;
        Ok(())
    }
}
