// Reading the files of a command.
ghost use Rattle.std.specs.Prelude.{◌≡◌, ◌≤◌, IfErr, OnOk, [], option_map};
ghost use Rattle.eh_commands.specs.File.{NamesRefusal, ReadsBoth, ReadsFile, ReadsInput};
ghost use Rattle.eh_commands.specs.Question.{asked_by};

use crate::status::Status;
use command_line::Raised;
use cxx_ast::standard::Std;
use eh_outer::{Store, StoreError};
use std::alloc::Global;

/// The longest source, in bytes.
pub const SOURCE_LIMIT: u64 = 0x10_0000;

/// The longest input, in bytes.
pub const INPUT_LIMIT: u64 = 0x10_0000;

/// What is asked of a file: its name, or the size of a source that is generated; that of the image to be stored, or of the schedule; places
/// of it, and what comes by there; that of its input if it has one, and those of all inputs; the most turns or steps, the standard, whether events are printed, and whether steps are counted.
#[derive(Clone, Copy)]
pub struct Question<'a> {
    pub source: &'a str,
    pub image: &'a str,
    pub places: &'a [u64],
    pub raised: Raised,
    pub input: Option<&'a str>,
    pub inputs: &'a [String],
    pub turns: u64,
    pub std: Std,
    pub trace: bool,
    pub count: bool,
}

/// How a command ended, and the file that it could not read, where it ended so.
#[derive(Clone, Copy)]
pub struct Ended<'a> {
    pub status: Status,
    pub file: &'a str,
}

/// The file of a name, whole, where it has at most so many bytes; else the status that says why not.
pub fn read<St: Store>(
    alloc: Global,
    name: &str,
    limit: u64,
    store: &mut St,
) -> Result<Vec<u8>, Status>
    ensures read { ReadsFile limit name.now (St.view store.old) (St.view store.new) result }
    ensures files { (St.view store.new).files ≡ (St.view store.old).files }
    ensures later { OnOk result ((St.view store.old).faults ≤ (St.view store.new).faults) }
{
    match store.read_all(alloc, name, limit) {
        Ok(bytes) => Ok(bytes),
        Err(StoreError::Failed) => Err(Status::ReadFault),
        Err(StoreError::TooLong(_)) => Err(Status::TooLong),
        Err(StoreError::NoMemory) => Err(Status::NoMemory),
    }
}

// The input of a name; empty where none is named.
fn read_input<St: Store>(
    alloc: Global,
    name: Option<&str>,
    store: &mut St,
) -> Result<Vec<u8>, Status>
    ensures read { ReadsInput (option_map (λ s. s.now) name.entry) (St.view store.old) (St.view store.new) result }
    ensures files { (St.view store.new).files ≡ (St.view store.old).files }
{
    match name {
        None => Ok(Vec::new(alloc)),
        Some(name) => read(alloc, name, INPUT_LIMIT, store),
    }
}

/// The file that is asked for, of at most so many bytes, and its input, which is read behind it; else how the command ends
/// that can't read one of them.
pub fn read_both<'a, St: Store>(
    alloc: Global,
    question: Question<'a>,
    limit: u64,
    store: &mut St,
) -> Result<(Vec<u8>, Vec<u8>), Ended<'a>>
    ensures read { ReadsBoth limit (asked_by question.entry []) (St.view store.old) (St.view store.new) result }
    ensures files { (St.view store.new).files ≡ (St.view store.old).files }
    ensures name { IfErr result (λ ended. NamesRefusal ended.status ended.file.now (St.view store.new)) }
{
    match read(alloc, question.source, limit, store) {
        Err(status) => Err(Ended {
            status,
            file: question.source,
        }),
        Ok(file) => match read_input(alloc, question.input, store) {
            Err(status) => Err(Ended {
                status,
                file: question.input.unwrap_or(""),
            }),
            Ok(input) => Ok((file, input)),
        },
    }
}
