// Numbers of the DWARF standard, the edges of each range, each encoding, and each refusal.
use eh_bytes::ByteError::{Encoding, LebRange, Truncated};
use eh_bytes::{ByteError, Pointer, RawCursor, RowName, put_sleb, put_uleb};
use std::alloc::Global;
use std::test::Fail;

// DWARF 5, 7.6, figure 22 and the example of its text, then numbers of ten bytes.
#[test]
fn unsigned_numbers_in_their_shortest_spelling(rt: HostRuntime) -> Result<(), Fail> {
    let cases: [(u64, &[u8]); 8] = [
        (2, b"\x02"),
        (127, b"\x7f"),
        (128, b"\x80\x01"),
        (129, b"\x81\x01"),
        (12857, b"\xb9\x64"),
        (624485, b"\xe5\x8e\x26"),
        (1 << 63, b"\x80\x80\x80\x80\x80\x80\x80\x80\x80\x01"),
        (u64::MAX, b"\xff\xff\xff\xff\xff\xff\xff\xff\xff\x01"),
    ];
    for (value, bytes) in cases {
        let mut written = Vec::new(rt.alloc());
        put_uleb(&mut written, value)?;
        assert_eq!(rt; written.as_slice(), bytes, "of {value}");
        let mut cursor = RawCursor::new(bytes, 0);
        assert_eq!(rt; cursor.take_uleb(), Ok(value), "of {value}");
        assert_eq!(rt; cursor.left(), 0, "behind {value}");
    }
    Ok(())
}

// DWARF 5, 7.6, figure 23 and the example of its text, then numbers of ten bytes.
#[test]
fn signed_numbers_in_their_shortest_spelling(rt: HostRuntime) -> Result<(), Fail> {
    let cases: [(i64, &[u8]); 11] = [
        (2, b"\x02"),
        (-2, b"\x7e"),
        (127, b"\xff\x00"),
        (-127, b"\x81\x7f"),
        (128, b"\x80\x01"),
        (-128, b"\x80\x7f"),
        (129, b"\x81\x01"),
        (-129, b"\xff\x7e"),
        (-123456, b"\xc0\xbb\x78"),
        (i64::MAX, b"\xff\xff\xff\xff\xff\xff\xff\xff\xff\x00"),
        (i64::MIN, b"\x80\x80\x80\x80\x80\x80\x80\x80\x80\x7f"),
    ];
    for (value, bytes) in cases {
        let mut written = Vec::new(rt.alloc());
        put_sleb(&mut written, value)?;
        assert_eq!(rt; written.as_slice(), bytes, "of {value}");
        let mut cursor = RawCursor::new(bytes, 0);
        assert_eq!(rt; cursor.take_sleb(), Ok(value), "of {value}");
        assert_eq!(rt; cursor.left(), 0, "behind {value}");
    }
    Ok(())
}

#[test]
fn padded_and_refused_numbers(rt: HostRuntime) {
    let cases: [(&[u8], Result<u64, ByteError>, Result<i64, ByteError>); 9] = [
        (b"\x82\x80\x00", Ok(2), Ok(2)),
        (b"\xfe\xff\x7f", Ok(0x1f_fffe), Ok(-2)),
        (b"\x80\x80\x80\x80\x80\x80\x80\x80\x80\x00", Ok(0), Ok(0)),
        (b"", Err(Truncated), Err(Truncated)),
        (b"\xff", Err(Truncated), Err(Truncated)),
        (
            b"\x80\x80\x80\x80\x80\x80\x80\x80\x80",
            Err(Truncated),
            Err(Truncated),
        ),
        (
            b"\x80\x80\x80\x80\x80\x80\x80\x80\x80\x80\x00",
            Err(LebRange),
            Err(LebRange),
        ),
        (
            b"\x80\x80\x80\x80\x80\x80\x80\x80\x80\x02",
            Err(LebRange),
            Err(LebRange),
        ),
        (
            b"\xff\xff\xff\xff\xff\xff\xff\xff\xff\x7e",
            Err(LebRange),
            Err(LebRange),
        ),
    ];
    for (bytes, unsigned, signed) in cases {
        let mut cursor = RawCursor::new(bytes, 0);
        assert_eq!(rt; cursor.take_uleb(), unsigned, "of {bytes:?}");
        if unsigned.is_err() {
            assert_eq!(rt; cursor.position(), 0, "after {bytes:?}");
        }
        let mut cursor = RawCursor::new(bytes, 0);
        assert_eq!(rt; cursor.take_sleb(), signed, "of {bytes:?}");
    }
}

fn address(value: u64) -> Result<Pointer, ByteError> {
    Ok(Pointer {
        value,
        indirect: false,
    })
}

fn stored_at(value: u64) -> Result<Pointer, ByteError> {
    Ok(Pointer {
        value,
        indirect: true,
    })
}

// The field stands at byte 1 of a list whose first byte has the address 0xffff, so its own is 0x10000.
#[test]
fn pointers_of_each_encoding(rt: HostRuntime) {
    let cases: [(u8, &[u8], Result<Pointer, ByteError>); 24] = [
        (
            0x00,
            b"-\x01\x00\x00\x00\x00\x00\x00\x80",
            address(0x8000_0000_0000_0001),
        ),
        (
            0x04,
            b"-\xff\xff\xff\xff\xff\xff\xff\xff",
            address(u64::MAX),
        ),
        (
            0x0c,
            b"-\xff\xff\xff\xff\xff\xff\xff\xff",
            address(u64::MAX),
        ),
        (0x01, b"-\xe5\x8e\x26", address(624485)),
        (0x09, b"-\xc0\xbb\x78", address(0xffff_ffff_fffe_1dc0)),
        (0x02, b"-\xff\xff", address(0xffff)),
        (0x0a, b"-\xff\x7f", address(0x7fff)),
        (0x0a, b"-\x00\x80", address(0xffff_ffff_ffff_8000)),
        (0x03, b"-\xff\xff\xff\xff", address(0xffff_ffff)),
        (0x0b, b"-\xff\xff\xff\x7f", address(0x7fff_ffff)),
        (0x0b, b"-\x00\x00\x00\x80", address(0xffff_ffff_8000_0000)),
        (0x1b, b"-\xf0\xff\xff\xff", address(0xfff0)),
        (0x10, b"-\xff\xff\xff\xff\xff\xff\xff\xff", address(0xffff)),
        (0x11, b"-\x04", address(0x10004)),
        (0x19, b"-\x7f", address(0xffff)),
        (0x9b, b"-\x04\x00\x00\x00", stored_at(0x10004)),
        (0x83, b"-\x04\x00\x00\x00", stored_at(4)),
        (0x9b, b"-\x00\x00\x00\x00", address(0)),
        (0x1b, b"-\x00\x00\x00", Err(Truncated)),
        (0x04, b"-\x00\x00\x00\x00\x00\x00\x00", Err(Truncated)),
        (
            0x01,
            b"-\xff\xff\xff\xff\xff\xff\xff\xff\xff\x02",
            Err(LebRange),
        ),
        (0x05, b"-\x00\x00\x00\x00\x00\x00\x00\x00", Err(Encoding)),
        (0x20, b"-\x00\x00\x00\x00\x00\x00\x00\x00", Err(Encoding)),
        (0xff, b"-\x00\x00\x00\x00\x00\x00\x00\x00", Err(Encoding)),
    ];
    for (encoding, bytes, want) in cases {
        if bytes.is_empty() {
            continue;
        }
        let mut cursor = RawCursor::new(bytes, 1);
        assert_eq!(rt;
            cursor.take_encoded(encoding, 0xffff),
            want,
            "of {encoding}"
        );
        let behind = if want.is_ok() { bytes.len() } else { 1 };
        assert_eq!(rt; cursor.position(), behind, "of {encoding}");
    }
}

#[test]
fn numbers_written_are_read_again(rt: HostRuntime) -> Result<(), Fail> {
    let mut state = 1u64;
    for round in 0..10_000u32 {
        state = state
            .wrapping_mul(0x5851_f42d_4c95_7f2d)
            .wrapping_add(0x1405_7b7e_f767_814f);
        let value = state >> (round % 64);
        let signed = value.cast_signed();
        let mut written = Vec::new(rt.alloc());
        put_uleb(&mut written, value)?;
        put_sleb(&mut written, signed)?;
        let mut cursor = RawCursor::new(&written, 0);
        assert_eq!(rt; cursor.take_uleb(), Ok(value));
        assert_eq!(rt; cursor.take_sleb(), Ok(signed));
        assert_eq!(rt; cursor.take_u8(), Err(Truncated));
    }
    Ok(())
}

#[test]
fn names_keep_their_bytes(rt: HostRuntime) -> Result<(), Fail> {
    let name = RowName::new(Vec::from_slice(rt.alloc(), b"main")?);
    assert_eq!(rt; name.as_bytes(), b"main".as_slice());
    assert_eq!(rt; name.into_bytes().as_slice(), b"main".as_slice());
    Ok(())
}
