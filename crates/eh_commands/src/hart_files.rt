// Reading the files of several harts.
ghost use Rattle.std.specs.Prelude.{◌≡◌, ◌≤◌, [], IfErr, OnOk, map, string_bytes};
ghost use Rattle.eh_commands.specs.File.{NamesRefusal};
ghost use Rattle.eh_commands.specs.HartFiles.{ReadsBehind, ReadsHarts, ReadsInputs, ReadsOne, harts_asked};
ghost use Rattle.eh_commands.specs.Question.{asked_by};

use crate::file::{Ended, INPUT_LIMIT, Question, read};
use crate::image::IMAGE_LIMIT;
use crate::status::Status;
use eh_outer::Store;
use std::alloc::Global;

/// The longest schedule, in bytes.
const SCHEDULE_LIMIT: u64 = 0x10_0000;

/// The files of several harts: their image, their schedule, and an input for each.
#[derive(Drop)]
pub struct HartFiles {
    pub image: Vec<u8>,
    pub schedule: Vec<u8>,
    pub inputs: Vec<Vec<u8>>,
}

// Reads an input behind others; else how the command ends.
fn read_one<'a, St: Store>(
    alloc: Global,
    name: &'a str,
    store: &mut St,
    inputs: &mut Vec<Vec<u8>>,
) -> Result<(), Ended<'a>>
    ensures read { ReadsOne name.now (St.view store.old) (St.view store.new) inputs.old.items inputs.new.items result }
    ensures files { (St.view store.new).files ≡ (St.view store.old).files }
    ensures later { OnOk result ((St.view store.old).faults ≤ (St.view store.new).faults) }
    ensures name { IfErr result (λ ended. NamesRefusal ended.status ended.file.now (St.view store.new)) }
{
    match read(alloc, name, INPUT_LIMIT, store) {
        Err(status) => Err(Ended { status, file: name }),
        Ok(input) => match inputs.push(input) {
            Ok(()) => Ok(()),
            Err(_) => Err(Ended {
                status: Status::NoMemory,
                file: "",
            }),
        },
    }
}

// Reads the inputs of these names, in order; else how the command ends.
fn read_inputs<'a, St: Store>(
    alloc: Global,
    names: &'a [String],
    store: &mut St,
) -> Result<Vec<Vec<u8>>, Ended<'a>>
    ensures read { ReadsInputs (map string_bytes names.now) (St.view store.old) (St.view store.new) result }
    ensures files { (St.view store.new).files ≡ (St.view store.old).files }
    ensures name { IfErr result (λ ended. NamesRefusal ended.status ended.file.now (St.view store.new)) }
{
    let mut inputs = Vec::new(alloc);
    let mut rest = names;
    while let Some((name, others)) = rest.split_first() {
        match read_one(alloc, name.as_str(), store, &mut inputs) {
            Err(ended) => return Err(ended),
            Ok(()) => {}
        }
        rest = others;
    }
    Ok(inputs)
}

// Reads the schedule, and then the inputs; else how the command ends.
fn read_behind<'a, St: Store>(
    alloc: Global,
    question: Question<'a>,
    store: &mut St,
) -> Result<(Vec<u8>, Vec<Vec<u8>>), Ended<'a>>
    ensures read { ReadsBehind (harts_asked (asked_by question.entry [])) (St.view store.old) (St.view store.new) result }
    ensures files { (St.view store.new).files ≡ (St.view store.old).files }
    ensures name { IfErr result (λ ended. NamesRefusal ended.status ended.file.now (St.view store.new)) }
{
    match read(alloc, question.image, SCHEDULE_LIMIT, store) {
        Err(status) => Err(Ended {
            status,
            file: question.image,
        }),
        Ok(schedule) => match read_inputs(alloc, question.inputs, store) {
            Err(ended) => Err(ended),
            Ok(inputs) => Ok((schedule, inputs)),
        },
    }
}

/// Reads the image, the schedule and the inputs that are asked for, in this order; else how the command ends that can't read
/// one of them.
pub fn read_harts<'a, St: Store>(
    alloc: Global,
    question: Question<'a>,
    store: &mut St,
) -> Result<HartFiles, Ended<'a>>
    ensures read { ReadsHarts (harts_asked (asked_by question.entry [])) (St.view store.old) (St.view store.new) result }
    ensures files { (St.view store.new).files ≡ (St.view store.old).files }
    ensures name { IfErr result (λ ended. NamesRefusal ended.status ended.file.now (St.view store.new)) }
{
    match read(alloc, question.source, IMAGE_LIMIT, store) {
        Err(status) => Err(Ended {
            status,
            file: question.source,
        }),
        Ok(image) => match read_behind(alloc, question, store) {
            Err(ended) => Err(ended),
            Ok((schedule, inputs)) => Ok(HartFiles {
                image,
                schedule,
                inputs,
            }),
        },
    }
}
