// What a command answers.
use crate::asked::Asked;
use crate::files::Files;
use command_line::scripts;
use eh_driver::{Status, ehc};
use eh_outer::{MemSink, MemStore, Module, Runs};
use std::alloc::{AllocError, Global};

/// A command's status, and what it printed.
#[derive(Drop)]
pub struct Answer {
    pub status: Status,
    pub out: MemSink,
    pub err: MemSink,
}

impl Answer {
    pub fn out_text(&self) -> &str {
        std::str::from_utf8(self.out.bytes()).unwrap_or("(no text)\n")
    }

    pub fn err_text(&self) -> &str {
        std::str::from_utf8(self.err.bytes()).unwrap_or("(no text)\n")
    }

    /// Whether it is as another, in all.
    pub fn is_as(&self, other: &Answer) -> bool {
        self.status == other.status
            && self.out.bytes() == other.out.bytes()
            && self.err.bytes() == other.err.bytes()
    }
}

/// What a command answers over the files, which it may change.
pub fn answered(
    alloc: Global,
    files: &mut Files,
    asked: &Asked,
    words: &Vec<String>,
) -> Result<Answer, AllocError> {
    let mut modules: Vec<Box<dyn Module>> = Vec::new(alloc);
    if let Ok(scripts) = scripts(alloc, words) {
        for script in scripts {
            modules.push(Box::new(alloc, Runs::new(alloc, script)?)?)?;
        }
    }
    if modules.len() > 64 {
        return Err(AllocError);
    }
    let mut store = MemStore::new(files.copies(alloc)?, asked.store_fails.to_vec(alloc)?);
    let mut out = MemSink::new(alloc, asked.room, asked.out_fails.to_vec(alloc)?)?;
    let mut err = MemSink::new(alloc, 0x1000, asked.err_fails.to_vec(alloc)?)?;
    let status = ehc(alloc, words, &mut store, &mut out, &mut err, modules);
    for word in words {
        if let Some(bytes) = store.file(word.as_str()) {
            files.set(alloc, word.as_str(), bytes.to_vec(alloc)?)?;
        }
    }
    Ok(Answer { status, out, err })
}
