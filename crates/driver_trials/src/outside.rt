// What a user sees of `ehc`, over a store and sinks in memory.
use eh_driver::{Status, ehc};
use eh_outer::{MemSink, MemStore, Module};
use std::alloc::Global;
use std::test::Fail;

/// What a command answered, and what it left.
#[derive(Drop)]
pub struct Seen {
    pub status: Status,
    pub out: MemSink,
    pub err: MemSink,
}

/// What lies outside: the files SRC and IN, which numbers of calls of the store and of puts fail, and how much `out` can take.
#[derive(Drop)]
pub struct Outside<'a> {
    pub source: &'a [u8],
    pub input: &'a [u8],
    pub store_fails: &'a [u64],
    pub out_fails: &'a [u64],
    pub err_fails: &'a [u64],
    pub room: usize,
}

pub fn holding(source: &[u8]) -> Outside<'_> {
    Outside {
        source,
        input: &[],
        store_fails: &[],
        out_fails: &[],
        err_fails: &[],
        room: 4096,
    }
}

fn files_of(alloc: Global, outside: &Outside<'_>) -> Result<Vec<(String, Vec<u8>)>, Fail> {
    let mut files = Vec::new(alloc);
    for (name, bytes) in [("SRC", outside.source), ("IN", outside.input)] {
        files.push((String::from_str(alloc, name)?, bytes.to_vec(alloc)?))?;
    }
    Ok(files)
}

// What a command answers over a store, with these modules, at most 64.
fn answer_over(
    alloc: Global,
    words: &[&str],
    store: &mut MemStore,
    outside: &Outside<'_>,
    modules: Vec<Box<dyn Module>>,
) -> Result<Seen, Fail> {
    if modules.len() > 64 {
        return Err(Fail::new("more than 64 modules"));
    }
    let mut out = MemSink::new(alloc, outside.room, outside.out_fails.to_vec(alloc)?)?;
    let mut err = MemSink::new(alloc, 4096, outside.err_fails.to_vec(alloc)?)?;
    let mut owned = Vec::new(alloc);
    for word in words {
        owned.push(String::from_str(alloc, word)?)?;
    }
    let status = ehc(alloc, &owned, store, &mut out, &mut err, modules);
    Ok(Seen { status, out, err })
}

/// What a command answers with these modules, at most 64.
pub fn answer_with(
    alloc: Global,
    words: &[&str],
    outside: &Outside<'_>,
    modules: Vec<Box<dyn Module>>,
) -> Result<Seen, Fail> {
    let files = files_of(alloc, outside)?;
    let mut store = MemStore::new(files, outside.store_fails.to_vec(alloc)?);
    answer_over(alloc, words, &mut store, outside, modules)
}

/// What a command answers without modules.
pub fn answer(alloc: Global, words: &[&str], outside: &Outside<'_>) -> Result<Seen, Fail> {
    answer_with(alloc, words, outside, Vec::new(alloc))
}

/// The image of a source.
pub fn image_of(alloc: Global, source: &str) -> Result<Vec<u8>, Fail> {
    let outside = holding(source.as_bytes());
    let mut store = MemStore::new(files_of(alloc, &outside)?, Vec::new(alloc));
    answer_over(
        alloc,
        &["compile", "SRC", "IMG"],
        &mut store,
        &outside,
        Vec::new(alloc),
    )?;
    Ok(store.file("IMG").unwrap_or(b"").to_vec(alloc)?)
}

#[test]
fn numbers(rt: HostRuntime) {
    let cases = [
        (Status::Done, 0),
        (Status::Usage, 1),
        (Status::SourceRefused(30, 20), 2),
        (
            Status::ImageRefused {
                number: 60,
                place: 0,
                location: 0,
                other: 0,
            },
            3,
        ),
        (Status::ReadFault, 4),
        (Status::WriteFault, 5),
        (Status::NoMemory, 6),
        (Status::ScheduleRefused(80, 0), 7),
        (Status::TooLong, 8),
        (Status::Aborted, 10),
        (Status::Budget, 11),
        (Status::Stack, 12),
        (
            Status::MachineFault(rv64_machine::FaultKind::Illegal, 0),
            13,
        ),
        (Status::Undefined, 14),
        (Status::Differs, 15),
    ];
    for (status, number) in cases {
        assert_eq!(rt; status.number(), number);
    }
}
