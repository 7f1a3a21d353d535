// What a segment holds from an address on.
use eh_bytes::{Segment, Segments};
use std::alloc::Global;
use std::test::Fail;

fn one_segment(alloc: Global, address: u32, bytes: &[u8]) -> Result<Segments, Fail> {
    let mut parts = Vec::new(alloc);
    parts.push(Segment {
        address: u64::from(address),
        bytes: bytes.to_vec(alloc)?,
        file_at: 0,
        write: false,
        exec: false,
    })?;
    Ok(Segments { parts })
}

#[test]
fn finds_the_rest_of_a_segment(rt: HostRuntime) -> Result<(), Fail> {
    let segments = one_segment(rt.alloc(), 16, b"abc")?;
    let cases = [
        (15, None),
        (16, Some(b"abc".as_slice())),
        (18, Some(b"c".as_slice())),
        (19, None),
    ];
    for (address, want) in cases {
        assert_eq!(rt; segments.bytes_at(address), want, "at {address}");
    }
    Ok(())
}
