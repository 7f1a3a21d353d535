// A store and a sink in memory: what they take, and where they fail.
use eh_outer::{MemSink, MemStore, Sink, SinkError, Store, StoreError};
use std::test::Fail;

#[test]
fn reads_and_writes(rt: HostRuntime) -> Result<(), Fail> {
    let alloc = rt.alloc();
    let mut files = Vec::new(alloc);
    files.push((String::from_str(alloc, "a")?, b"four".to_vec(alloc)?))?;
    let mut store = MemStore::new(files, [3].to_vec(alloc)?);
    let cases = [
        ("a", 4, Ok(b"four".as_slice())),
        ("a", 3, Err(StoreError::TooLong(4))),
        ("a", 4, Err(StoreError::Failed)),
        ("b", 4, Err(StoreError::Failed)),
        ("a", 4, Ok(b"four".as_slice())),
    ];
    for (name, limit, want) in cases {
        let got = store.read_all(alloc, name, limit);
        assert_eq!(rt;
            got.as_ref().map(|bytes| bytes.as_slice()),
            want.as_ref().map(|bytes| *bytes),
            "{name} {limit}"
        );
    }
    store.write_all(alloc, "a", b"new")?;
    assert_eq!(rt; store.file("a"), Some(b"new".as_slice()));
    assert_eq!(rt; store.file("b"), None);
    Ok(())
}

#[test]
fn takes_what_has_room(rt: HostRuntime) -> Result<(), Fail> {
    let alloc = rt.alloc();
    let mut sink = MemSink::new(alloc, 4, [2].to_vec(alloc)?)?;
    let cases = [
        (b"ab".as_slice(), Ok(()), b"ab".as_slice()),
        (b"c".as_slice(), Err(SinkError::Failed), b"ab".as_slice()),
        (b"cde".as_slice(), Err(SinkError::Failed), b"ab".as_slice()),
        (b"cd".as_slice(), Ok(()), b"abcd".as_slice()),
    ];
    for (piece, want, bytes) in cases {
        assert_eq!(rt; sink.put(piece), want);
        assert_eq!(rt; sink.bytes(), bytes);
    }
    Ok(())
}
