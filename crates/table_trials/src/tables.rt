// Worked tables with their lists, and each refusal by a change of one of them.
use eh_bytes::{Region64, Segment, Segments};
use lsda_read::{Lsda, TableError};
use std::alloc::Global;
use std::test::Fail;
use table_forms::Site;

const REGION: Region64 = Region64 {
    start: 0x2_0100,
    length: 0x40,
};

// A segment of code of 0x140 bytes at 0x20000, from byte 0x1000 of its file on, that begins with
// the table and ends with the region. Bytes of it are changed.
fn memory(alloc: Global, table: &[u8], changes: &[(usize, u8)]) -> Result<Segments, Fail> {
    let mut bytes = table.to_vec(alloc)?;
    bytes.resize(0x140, 0)?;
    for &(at, byte) in changes {
        if let Some(old) = bytes.get_mut(at) {
            *old = byte;
        }
    }
    let mut parts = Vec::new(alloc);
    parts.push(Segment {
        address: 0x2_0000,
        bytes,
        file_at: 0x1000,
        write: false,
        exec: true,
    })?;
    Ok(Segments { parts })
}

// Two sites, the second without a pad; one action with filter 1; one entry.
const TWO_SITES: &[u8] =
    b"\xff\x1b\x11\x01\x08\x10\x08\x20\x01\x18\x08\x00\x00\x01\x00\x00\x00\x00\x00\x00";

// One site; filter -1 names the list behind the entry, which has index 1.
const SPECIFICATION: &[u8] =
    b"\xff\x1b\x0d\x01\x04\x10\x08\x20\x01\x7f\x00\x00\x00\x00\x00\x00\x01\x00";

fn sites_of(alloc: Global, table: &Lsda<'_>) -> Result<Vec<Site>, Fail> {
    Ok(table.sites().collect(alloc)?)
}

fn chain_of(alloc: Global, table: &Lsda<'_>, action: u64) -> Result<Vec<i64>, Fail> {
    Ok(table.chain(action).collect(alloc)?)
}

fn list_of(alloc: Global, table: &Lsda<'_>, j: u64) -> Result<Vec<u64>, Fail> {
    Ok(table.spec_list(j).collect(alloc)?)
}

// The refusal of a table, by number and place.
fn refusal_of(memory: &Segments, address: u64) -> Option<(u8, u64)> {
    match Lsda::read_at(memory, address, REGION) {
        Ok(_) => None,
        Err(TableError { reason, place, .. }) => Some((reason.number(), place)),
    }
}

// The same, where what was judged is kept.
fn judged(alloc: Global, memory: &Segments, address: u64) -> Result<Option<(u8, u64)>, Fail> {
    Ok(match Lsda::judged_at(alloc, memory, address, REGION)? {
        Ok(_) => None,
        Err(TableError { reason, place, .. }) => Some((reason.number(), place)),
    })
}

// By hand from the Itanium C++ ABI's "Exception Handling Tables".
#[test]
fn worked_tables_with_their_lists(rt: HostRuntime) -> Result<(), Fail> {
    let alloc = rt.alloc();
    let two = memory(alloc, TWO_SITES, &[])?;
    let table = Lsda::read_at(&two, 0x2_0000, REGION).expect(&rt, "no refusal");
    let wanted = [
        Site {
            start: 0x2_0110,
            end: 0x2_0118,
            pad: 0x2_0120,
            action: 1,
        },
        Site {
            start: 0x2_0118,
            end: 0x2_0120,
            pad: 0,
            action: 0,
        },
    ];
    assert_eq!(rt; sites_of(alloc, &table)?.as_slice(), wanted.as_slice());
    assert_eq!(rt; chain_of(alloc, &table, 1)?.as_slice(), [1].as_slice());
    assert_eq!(rt; table.type_entry(1), 0);

    let specification = memory(alloc, SPECIFICATION, &[])?;
    let table = Lsda::read_at(&specification, 0x2_0000, REGION).expect(&rt, "no refusal");
    assert_eq!(rt; chain_of(alloc, &table, 1)?.as_slice(), [-1].as_slice());
    assert_eq!(rt; list_of(alloc, &table, 1)?.as_slice(), [1].as_slice());
    Ok(())
}

// An entry that is the address of a word, and sites of four bytes a number.
#[test]
fn tables_in_other_encodings(rt: HostRuntime) -> Result<(), Fail> {
    let alloc = rt.alloc();
    let indirect = memory(
        alloc,
        b"\xff\x9b\x0d\x01\x04\x10\x08\x20\x01\x01\x00\x00\x04\x00\x00\x00\x00\x00\x03",
        &[],
    )?;
    let table = Lsda::read_at(&indirect, 0x2_0000, REGION).expect(&rt, "no refusal");
    assert_eq!(rt; table.type_entry(1), 0x3_0000);

    let fixed = memory(
        alloc,
        b"\xff\x1b\x15\x03\x0d\x10\0\0\0\x08\0\0\0\x20\0\0\0\x01\x01\0\0\0\0\0",
        &[],
    )?;
    let table = Lsda::read_at(&fixed, 0x2_0000, REGION).expect(&rt, "no refusal");
    let wanted = [Site {
        start: 0x2_0110,
        end: 0x2_0118,
        pad: 0x2_0120,
        action: 1,
    }];
    assert_eq!(rt; sites_of(alloc, &table)?.as_slice(), wanted.as_slice());
    assert_eq!(rt; chain_of(alloc, &table, 1)?.as_slice(), [1].as_slice());
    assert_eq!(rt; table.type_entry(1), 0);
    Ok(())
}

// Each refusal, at its place in the file.
#[test]
fn changes_that_are_refused(rt: HostRuntime) -> Result<(), Fail> {
    let alloc = rt.alloc();
    let cases: [(&[u8], &[(usize, u8)], Option<(u8, u64)>); 13] = [
        (TWO_SITES, &[], None),
        // The call-site table ends before the second action.
        (TWO_SITES, &[(4, 7)], Some((1, 0x100c))),
        // The offset of the base goes on behind ten bytes.
        (
            TWO_SITES,
            &[
                (2, 0x80),
                (3, 0x80),
                (4, 0x80),
                (5, 0x80),
                (6, 0x80),
                (7, 0x80),
                (8, 0x80),
                (9, 0x80),
                (10, 0x80),
                (11, 0x80),
            ],
            Some((2, 0x1002)),
        ),
        // LPStart is indirect; sites are relative.
        (TWO_SITES, &[(0, 0x9b)], Some((3, 0x1000))),
        (TWO_SITES, &[(3, 0x11)], Some((3, 0x1003))),
        // The second site begins before the end of the first, or ends behind its function.
        (TWO_SITES, &[(9, 0x17)], Some((4, 0x1009))),
        (TWO_SITES, &[(10, 0x29)], Some((5, 0x1009))),
        // The pad lies behind the segment.
        (TWO_SITES, &[(7, 0x40)], Some((6, 0x1005))),
        // The chain goes back before the action table, or to its own record.
        (TWO_SITES, &[(14, 0x7b)], Some((7, 0x1005))),
        (TWO_SITES, &[(14, 0x7f)], Some((8, 0x100d))),
        // Entry 2 would begin at byte 12, before the action table.
        (TWO_SITES, &[(13, 2)], Some((9, 0x100d))),
        // Filter -320 names a list behind the segment.
        (
            TWO_SITES,
            &[(13, 0xc0), (14, 0x7d)],
            Some((14, 0x1000 + 20 + 319)),
        ),
        // No types.
        (
            b"\xff\xff\x01\x04\x10\x08\x20\x01\x01\x00",
            &[],
            Some((15, 0x1008)),
        ),
    ];
    for (table, changes, wanted) in cases {
        let changed = memory(alloc, table, changes)?;
        assert_eq!(rt; refusal_of(&changed, 0x2_0000), wanted);
        assert_eq!(rt; judged(alloc, &changed, 0x2_0000)?, wanted);
    }
    let valid = memory(alloc, TWO_SITES, &[])?;
    assert_eq!(rt; refusal_of(&valid, 0x3_0000), Some((1, 0)));
    Ok(())
}

// Records that several chains come to, and lists that several records name: the first of all refusals.
#[test]
fn parts_that_are_met_again(rt: HostRuntime) -> Result<(), Fail> {
    let alloc = rt.alloc();
    let cases: [(&[u8], &[(usize, u8)], Option<(u8, u64)>); 6] = [
        // Sites name records 0, 2, 0 and 4 of one chain.
        (
            b"\xff\xff\x01\x10\0\x04\0\x01\x04\x04\0\x03\x08\x04\0\x01\x0c\x04\0\x05\0\x01\0\x01\0\0",
            &[],
            None,
        ),
        // Records 2 and 0 of one loop are named; it is refused at the first record of each chain.
        (
            b"\xff\xff\x01\x08\0\x04\0\x03\x04\x04\0\x01\0\x01\0\x7d",
            &[],
            Some((8, 0x100c)),
        ),
        // Behind a chain that ends, two sites name one that leads outside.
        (
            b"\xff\xff\x01\x0c\0\x04\0\x06\x04\x04\0\x03\x08\x04\0\x01\0\x01\0\xff\x03\0\0",
            &[],
            Some((7, 0x1008)),
        ),
        // Two records name the list 5, whose entry would begin before the action table: the one that stands first comes last in the chain.
        (
            b"\xff\x1b\x0a\x01\x04\0\x04\0\x03\x7f\0\x7f\x7d\x05\0",
            &[],
            Some((9, 0x1009)),
        ),
        // Lists that begin at the last byte of the segment and at the one before, where no 0 ends them.
        (
            b"\xff\x1b\x10\x01\x04\0\x04\0\x01\xd3\x7d\x01\xd4\x7d\0\0\0\0\0",
            &[(0x13e, 1), (0x13f, 1)],
            Some((14, 0x113e)),
        ),
        // The same with a 0 at the end.
        (
            b"\xff\x1b\x10\x01\x04\0\x04\0\x01\xd3\x7d\x01\xd4\x7d\0\0\0\0\0",
            &[(0x13e, 1)],
            None,
        ),
    ];
    for (table, changes, wanted) in cases {
        let changed = memory(alloc, table, changes)?;
        assert_eq!(rt; refusal_of(&changed, 0x2_0000), wanted);
        assert_eq!(rt; judged(alloc, &changed, 0x2_0000)?, wanted);
    }
    Ok(())
}
